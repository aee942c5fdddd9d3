//! The cursors of masks and the items that they return, as records and numbers of the C interface.
ghost use Rattle.std.specs.Prelude.{ℕ, ◌≡◌};
ghost use Rattle.words.specs.Flags.{digit};
ghost use Rattle.masks.specs.equations.Answer.{answer, answer_back};
ghost use Rattle.masks.specs.equations.Cursor.{answer_step};
ghost use Rattle.capi.specs.declared.records.Cursor.{Cursor};
ghost use Rattle.capi.specs.Answers.{as_cursor, as_remainder, as_step, as_taken};
ghost use Rattle.capi.specs.Records.{chunks_out, cursor_of, iter_out, slices_out, true_out};
ghost use Rattle.capi.specs.Records.{chunks_place, iter_place, slices_place, true_place};

use crate::answers::{CursorAnswer, StepAnswer};
use crate::records::Cursor;
use masks::chunks::BitChunks;
use masks::cursor::Step;
use masks::iterator::BitmapIter;
use masks::refusal::{Refusal, Refused};
use masks::slice_iterator::{Run, SlicesIterator};
use masks::true_idx::TrueIdxIter;

// A cursor of masks. A new one is returned as the record `out`, and after a step only as the number `place`.
pub(crate) trait Walk: Copy {
    ghost crossing: { Self → Cursor };

    ghost standing: { Self → ℕ };

    // Returns the cursor's record.
    fn out(self) -> Cursor
        ensures { result ≡ crossing self };

    // Returns the cursor's place. `out` has it too, but a step's contract names only the place, so that no export has to unfold the record.
    fn place(self) -> usize
        ensures { result ≡ standing self };
}

// An item that a cursor returns. `parts` returns it as `value` and `count` of a step: by `as`, since a u64 has no `From` of a `usize`.
pub(crate) trait Item: Copy {
    ghost valued: { Self → ℕ };

    ghost counted: { Self → ℕ };

    fn parts(self) -> (u64, usize)
        ensures { result ≡ (valued self, counted self) };
}

// Returns a cursor's record, for the four impls below. It is no default body: that cannot read the fields, and each impl unfolds its own
// definition.
fn cursor_of(start: usize, length: usize, place: usize, masked: u8) -> Cursor
    ensures { result ≡ cursor_of start length place masked }
{
    Cursor {
        start,
        length,
        place,
        masked,
    }
}

#[tactic(auto, unfolding(crate::specs::Records::chunks_out))]
impl Walk for BitChunks {
    ghost crossing = { chunks_out };

    ghost standing = { chunks_place };

    fn out(self) -> Cursor {
        cursor_of(self.start, self.length, self.place, 1)
    }

    fn place(self) -> usize {
        self.place
    }
}

#[tactic(auto, unfolding(crate::specs::Records::slices_out))]
impl Walk for SlicesIterator {
    ghost crossing = { slices_out };

    ghost standing = { slices_place };

    fn out(self) -> Cursor {
        cursor_of(self.start, self.length, self.place, 1)
    }

    fn place(self) -> usize {
        self.place
    }
}

#[tactic(auto, unfolding(crate::specs::Records::iter_out))]
impl Walk for BitmapIter {
    ghost crossing = { iter_out };

    ghost standing = { iter_place };

    fn out(self) -> Cursor {
        cursor_of(self.start, self.length, self.place, 1)
    }

    fn place(self) -> usize {
        self.place
    }
}

#[tactic(auto, unfolding(crate::specs::Records::true_out))]
impl Walk for TrueIdxIter {
    ghost crossing = { true_out };

    ghost standing = { true_place };

    fn out(self) -> Cursor {
        cursor_of(self.start, self.length, self.place, self.masked.into())
    }

    fn place(self) -> usize {
        self.place
    }
}

impl Item for u64 {
    ghost valued = { λ n. n };

    ghost counted = { λ n. 0 };

    fn parts(self) -> (u64, usize) {
        (self, 0)
    }
}

impl Item for usize {
    ghost valued = { λ n. n };

    ghost counted = { λ n. 0 };

    fn parts(self) -> (u64, usize) {
        (self as u64, 0)
    }
}

impl Item for bool {
    ghost valued = { digit };

    ghost counted = { λ x. 0 };

    fn parts(self) -> (u64, usize) {
        (self.into(), 0)
    }
}

impl Item for Run {
    ghost valued = { λ r. r.start };

    ghost counted = { λ r. r.length };

    fn parts(self) -> (u64, usize) {
        (self.start as u64, self.length)
    }
}

// A new cursor.
#[tactic(auto, unfolding(crate::specs::Answers::as_cursor))]
impl<C: Walk> From<Result<C, Refusal>> for CursorAnswer {
    ghost from_gives = { λ r a. a ≡ as_cursor C.crossing (answer r) };

    fn from(r: Result<C, Refusal>) -> CursorAnswer {
        match r {
            Ok(c) => CursorAnswer {
                refusal: 0,
                cursor: c.out(),
            },
            Err(e) => CursorAnswer {
                refusal: e.into(),
                ..CursorAnswer::default()
            },
        }
    }
}

// An item, or none.
#[tactic(auto, unfolding(crate::specs::Answers::as_step))]
impl<T: Item, C: Walk> From<Result<Step<T, C>, Refused<C>>> for StepAnswer {
    ghost from_gives = { λ r a. a ≡ as_step T.valued T.counted C.standing (answer_step r) };

    fn from(r: Result<Step<T, C>, Refused<C>>) -> StepAnswer {
        match r {
            Ok(step) => match step.item {
                Some(item) => {
                    let (value, count) = item.parts();
                    StepAnswer {
                        refusal: 0,
                        found: true,
                        value,
                        count,
                        place: step.cursor.place(),
                    }
                }
                None => StepAnswer {
                    place: step.cursor.place(),
                    ..StepAnswer::default()
                },
            },
            Err(e) => StepAnswer {
                refusal: e.refusal.into(),
                place: e.state.place(),
                ..StepAnswer::default()
            },
        }
    }
}

// The number of flags passed over, or of positions written.
#[tactic(auto, unfolding(crate::specs::Answers::as_taken))]
impl<C: Walk> From<Result<(usize, C), Refused<C>>> for StepAnswer {
    ghost from_gives = { λ r a. a ≡ as_taken C.standing (answer_back r) };

    fn from(r: Result<(usize, C), Refused<C>>) -> StepAnswer {
        match r {
            Ok((count, c)) => StepAnswer {
                found: true,
                count,
                place: c.place(),
                ..StepAnswer::default()
            },
            Err(e) => StepAnswer {
                refusal: e.refusal.into(),
                place: e.state.place(),
                ..StepAnswer::default()
            },
        }
    }
}

// Returns the step of a remainder, whose cursor stays at `place`. Since `place` is a second argument, this is no `From`.
#[tactic(auto, unfolding(crate::specs::Answers::as_remainder))]
pub(crate) fn remainder_out(place: usize, r: Result<(u64, usize), Refused<BitChunks>>) -> StepAnswer
    ensures { result ≡ as_remainder place (answer_back r) }
{
    match r {
        Ok((value, count)) => StepAnswer {
            refusal: 0,
            found: true,
            value,
            count,
            place,
        },
        Err(e) => StepAnswer {
            refusal: e.refusal.into(),
            place,
            ..StepAnswer::default()
        },
    }
}
