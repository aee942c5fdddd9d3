//! The calls of the cursors over x.
use crate::tokens::Answered;
use crate::{tokens, values};
use masks::iterator::BitmapIter;
use masks::slice_iterator::SlicesIterator;
use masks::true_idx::TrueIdxIter;
use notation::answer::Answer;
use notation::arguments::{Arguments, Serial};
use notation::call::{BitsCall, CursorCall};

pub(crate) fn cursor_answer(
    to: &mut Answer,
    call: CursorCall,
    a: &Arguments,
    x: &[u8],
) -> Answered {
    match call {
        CursorCall::NewSlices => {
            let mask = values::mask(a, 0, Serial::First);
            tokens::answer(to, SlicesIterator::new(mask, x))
        }
        CursorCall::NextSlice => tokens::answer_back(to, runs(a).next(x)),
        CursorCall::NewTrueIdx => {
            let mask = values::optional(a, 1, Serial::First);
            tokens::answer(to, TrueIdxIter::new(a.size(0), mask, x))
        }
        CursorCall::NextTrueIdx => tokens::answer_back(to, positions(a).next(x)),
    }
}

pub(crate) fn bits_answer(to: &mut Answer, call: BitsCall, a: &Arguments, x: &[u8]) -> Answered {
    let c = BitmapIter {
        start: a.size(0),
        length: a.size(1),
        place: a.size(2),
    };
    match call {
        BitsCall::New => tokens::answer(to, BitmapIter::new(x, a.size(0), a.size(1))),
        BitsCall::Next => tokens::answer_back(to, c.next(x)),
        BitsCall::Nth => tokens::answer_back(to, c.nth(x, a.size(3))),
        BitsCall::TakeLeadingOnes => tokens::answer_back(to, c.take_leading_ones(x)),
        BitsCall::TakeLeadingZeros => tokens::answer_back(to, c.take_leading_zeros(x)),
    }
}

pub(crate) fn chunk_answer(to: &mut Answer, a: &Arguments, x: &[u8], out: &mut [u32]) -> Answered {
    tokens::answer_back(to, positions(a).next_chunk(x, out))
}

fn runs(a: &Arguments) -> SlicesIterator {
    SlicesIterator {
        start: a.size(0),
        length: a.size(1),
        place: a.size(2),
    }
}

fn positions(a: &Arguments) -> TrueIdxIter {
    TrueIdxIter {
        start: a.size(0),
        length: a.size(1),
        place: a.size(2),
        masked: a.flag(3),
    }
}
