//! The tokens of a value in an answer, in their order.
use dispatch::offer::{Offering, RefusedOffer};
use masks::aligned::AlignedBitmapSlice;
use masks::bitmap::{Bitmap, Recounted};
use masks::bitmask::Span;
use masks::builder::BitmapBuilder;
use masks::chunks::BitChunks;
use masks::cursor::Step;
use masks::iterator::BitmapIter;
use masks::next_and_not::NextFlag;
use masks::refusal::Refused;
use masks::slice_iterator::{Run, SlicesIterator};
use masks::superseding::Winner;
use masks::true_idx::TrueIdxIter;
use notation::answer::{Answer, Token};
use std::alloc::AllocError;

// Whether there was memory for an answer.
pub(crate) type Answered = Result<(), AllocError>;

pub(crate) trait ToTokens: Copy {
    // Appends the tokens of the value to an answer.
    fn append_to(self, answer: &mut Answer) -> Answered;
}

// Sets the answer to that of a call that does not refuse: 0 and its value.
pub(crate) fn given<T: ToTokens>(to: &mut Answer, value: T) -> Answered {
    to.begin(0)?;
    value.append_to(to)
}

// Sets the answer to that of a call: 0 and its value, or the number of its refusal.
pub(crate) fn answer<T: ToTokens, R: Into<u8> + Drop>(
    to: &mut Answer,
    r: Result<T, R>,
) -> Answered {
    match r {
        Ok(value) => given(to, value),
        Err(refusal) => to.begin(refusal.into()),
    }
}

// Sets the answer to that of a call whose refusal has the record: 0 and its value, or the number and that record.
pub(crate) fn answer_back<T: ToTokens, S: ToTokens>(
    to: &mut Answer,
    r: Result<T, Refused<S>>,
) -> Answered {
    match r {
        Ok(value) => given(to, value),
        Err(back) => refused(to, back.refusal, back.state),
    }
}

// Sets the answer to that of a call that leaves a record whether it refuses or not: the number and that record.
pub(crate) fn left<S: ToTokens, R: Into<u8> + Drop>(
    to: &mut Answer,
    r: Result<(), R>,
    state: S,
) -> Answered {
    match r {
        Ok(()) => given(to, state),
        Err(refusal) => refused(to, refusal, state),
    }
}

fn refused<S: ToTokens, R: Into<u8> + Drop>(to: &mut Answer, refusal: R, state: S) -> Answered {
    to.begin(refusal.into())?;
    state.append_to(to)
}

// A value of one token.
pub(crate) trait Single: Copy + Drop + Into<Token> {}

impl Single for bool {}

impl Single for u32 {}

impl Single for u64 {}

impl Single for usize {}

impl Single for Token {}

impl<T: Single> ToTokens for T {
    fn append_to(self, answer: &mut Answer) -> Answered {
        answer.push(self.into())
    }
}

// A call that only writes has no value.
impl ToTokens for () {
    fn append_to(self, _answer: &mut Answer) -> Answered {
        Ok(())
    }
}

// None is `-`.
impl<T: ToTokens> ToTokens for Option<T> {
    fn append_to(self, answer: &mut Answer) -> Answered {
        match self {
            Some(value) => value.append_to(answer),
            None => answer.push(Token::Missing),
        }
    }
}

impl<A: ToTokens, B: ToTokens> ToTokens for (A, B) {
    fn append_to(self, answer: &mut Answer) -> Answered {
        let (first, second) = self;
        first.append_to(answer)?;
        second.append_to(answer)
    }
}

impl<A: ToTokens, B: ToTokens, C: ToTokens> ToTokens for (A, B, C) {
    fn append_to(self, answer: &mut Answer) -> Answered {
        let (first, second, third) = self;
        first.append_to(answer)?;
        second.append_to(answer)?;
        third.append_to(answer)
    }
}

// The item, and the cursor after it.
impl<T: ToTokens, C: ToTokens> ToTokens for Step<T, C> {
    fn append_to(self, answer: &mut Answer) -> Answered {
        (self.item, self.cursor).append_to(answer)
    }
}

// A span and a run have the same fields, and so have the three cursors below. They share no trait: one with their fields as methods would
// need an impl of each too, as long as these.
impl ToTokens for Span {
    fn append_to(self, answer: &mut Answer) -> Answered {
        (self.start, self.length).append_to(answer)
    }
}

impl ToTokens for Run {
    fn append_to(self, answer: &mut Answer) -> Answered {
        (self.start, self.length).append_to(answer)
    }
}

impl ToTokens for AlignedBitmapSlice {
    fn append_to(self, answer: &mut Answer) -> Answered {
        let prefix = (self.prefix, self.prefix_len);
        let bulk = (self.bulk_start, self.bulk_len);
        (prefix, bulk, (self.suffix, self.suffix_len)).append_to(answer)
    }
}

impl ToTokens for SlicesIterator {
    fn append_to(self, answer: &mut Answer) -> Answered {
        (self.start, self.length, self.place).append_to(answer)
    }
}

impl ToTokens for BitmapIter {
    fn append_to(self, answer: &mut Answer) -> Answered {
        (self.start, self.length, self.place).append_to(answer)
    }
}

impl ToTokens for BitChunks {
    fn append_to(self, answer: &mut Answer) -> Answered {
        (self.start, self.length, self.place).append_to(answer)
    }
}

impl ToTokens for TrueIdxIter {
    fn append_to(self, answer: &mut Answer) -> Answered {
        let span = (self.start, self.length);
        (span, self.place, self.masked).append_to(answer)
    }
}

// The serial first, then the span, then the zero count, `?` if it is not known.
impl ToTokens for Bitmap {
    fn append_to(self, answer: &mut Answer) -> Answered {
        let zeros = match self.unset {
            Some(zeros) => Token::from(zeros),
            None => Token::Unknown,
        };
        (self.serial, (self.start, self.length), zeros).append_to(answer)
    }
}

// The serial first.
impl ToTokens for BitmapBuilder {
    fn append_to(self, answer: &mut Answer) -> Answered {
        (self.serial, self.length, (self.word, self.ones)).append_to(answer)
    }
}

impl ToTokens for Recounted {
    fn append_to(self, answer: &mut Answer) -> Answered {
        (self.zeros, self.mask).append_to(answer)
    }
}

// Which of two masks, the part of its slice, and its record over that part.
impl ToTokens for Winner {
    fn append_to(self, answer: &mut Answer) -> Answered {
        (self.second, (self.from, self.to), self.mask).append_to(answer)
    }
}

impl ToTokens for NextFlag {
    fn append_to(self, answer: &mut Answer) -> Answered {
        (self.position, self.windows).append_to(answer)
    }
}

impl ToTokens for Offering {
    fn append_to(self, answer: &mut Answer) -> Answered {
        (self.truck, self.cursor, self.windows).append_to(answer)
    }
}

// Sets the answer to that of `offer`. A refused one has the round's cursor, and no other record. `RefusedOffer` is no `Refused` by a rule
// of the project: dispatch names only the types of masks that combinations and searches take or return (tests/dispatch_calls.py).
pub(crate) fn offered(to: &mut Answer, r: Result<Offering, RefusedOffer>) -> Answered {
    match r {
        Ok(offering) => given(to, offering),
        Err(none) => refused(to, none.refusal, none.cursor),
    }
}
