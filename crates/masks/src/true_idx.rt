//! The positions of the ones of a mask; with no mask every position.
ghost use Rattle.std.specs.Prelude.{◌≡◌, false, ◌≤◌, length as list_length, IfOk, IfErr};
ghost use Rattle.masks.specs.Cursor.{step_of};
ghost use Rattle.masks.specs.Refusal.{failure_back, failure_of};
ghost use Rattle.masks.specs.Checks.{first_failed, limit};
ghost use Rattle.masks.specs.Iterator.{leading_from};
ghost use Rattle.masks.specs.TrueIdx.{true_moved, new_true_checks, first_true, true_checks, true_flags, true_step};
ghost use Rattle.masks.specs.Search.{nth_from};

mod positions;

use crate::bitmap::Bitmap;
use crate::checks::{check_limit, check_mask};
use crate::cursor::{Step, check_cursor};
use crate::refusal::{Refusal, Refused, check};
use crate::span::zeros_from;

/// A cursor over the positions of the ones of a mask or, without a mask, over every position. The Rust's `TrueIdxIter`. `masked` replaces
/// an `Option` of the mask: the reference's cursor holds no mask, and the C interface passes the field.
#[derive(Clone, Copy, PartialEq, Eq, Debug)]
pub struct TrueIdxIter {
    pub start: usize,
    pub length: usize,
    pub place: usize,
    pub masked: bool,
}

// Makes the checks of a new cursor over a mask: check 1 of the stated length, those of the mask, and check 5: the two lengths are equal.
fn check_stated(length: usize, mask: Bitmap, bytes: &[u8]) -> Result<(), Refusal>
    ensures { failure_of result ≡ first_failed (new_true_checks length (Some mask) bytes.now) }
{
    check_limit(length)?;
    check_mask(mask, bytes)?;
    check(Refusal::UnequalLengths, length == mask.length)
}

// Makes the checks of a new cursor; without a mask only check 1 of the stated length.
fn check_new(length: usize, mask: Option<Bitmap>, bytes: &[u8]) -> Result<(), Refusal>
    ensures { failure_of result ≡ first_failed (new_true_checks length mask bytes.now) }
{
    match mask {
        Some(m) => check_stated(length, m, bytes),
        None => check_limit(length),
    }
}

// Returns the cursor at place 0, over a mask or, without one, over every position below `length`.
fn first_true(length: usize, mask: Option<Bitmap>) -> TrueIdxIter
    ensures { result ≡ first_true length mask }
{
    match mask {
        Some(m) => TrueIdxIter {
            start: m.start,
            length,
            place: 0,
            masked: true,
        },
        None => TrueIdxIter {
            start: 0,
            length,
            place: 0,
            masked: false,
        },
    }
}

// Makes checks 1, 2 and 6 of a cursor over `size` bytes; without a mask only 1 and 6.
pub(crate) fn check_next(cursor: TrueIdxIter, size: usize) -> Result<(), Refusal>
    ensures { failure_of result ≡ first_failed (true_checks cursor size) }
{
    if cursor.masked {
        return check_cursor(cursor.start, cursor.length, cursor.place, size);
    }
    check_limit(cursor.start)?;
    check_limit(cursor.length)?;
    check(Refusal::OutsideMask, cursor.place <= cursor.length)
}

// Counts the zeros before the next one; 0 without a mask. Takes the cursor's fields, as `zeros_from` does: a `CheckedSpan` made here slows
// `next` without a mask (PROVING, `zeros_next`).
fn zeros_next(cursor: TrueIdxIter, bytes: &[u8]) -> usize
    requires { (cursor.start ≤ limit) × ((cursor.length ≤ limit) × (cursor.place ≤ cursor.length)) }
    ensures { result ≡ leading_from false (true_flags cursor bytes.now) cursor.place }
{
    if cursor.masked {
        return zeros_from(bytes, cursor.start, cursor.length, cursor.place);
    }
    0
}

impl TrueIdxIter {
    /// Returns a cursor at the first position. Refuses with 5 if `length` is not the length of the mask. No mask is Arrow's none, which
    /// means all ones: the cursor then returns every position below `length`.
    pub fn new(length: usize, mask: Option<Bitmap>, bytes: &[u8]) -> Result<TrueIdxIter, Refusal>
        ensures refused { failure_of result ≡ first_failed (new_true_checks length mask bytes.now) }
        ensures cursor { IfOk result (λ c. c ≡ first_true length mask) }
    {
        check_new(length, mask, bytes)?;
        Ok(first_true(length, mask))
    }

    /// Returns the position of the next one, and the cursor past it; with no ones left no position, and the cursor at the length.
    pub fn next(self, bytes: &[u8]) -> Result<Step<usize, TrueIdxIter>, Refused<TrueIdxIter>>
        ensures refused { failure_back result ≡ first_failed
            (true_checks self (list_length bytes.now)) }
        ensures step { IfOk result (λ s. step_of s.item s.cursor ≡
            true_step self (nth_from (true_flags self bytes.now) 0 self.place)) }
        ensures state { IfErr result (λ e. e.state ≡ self) }
    {
        check_next(self, bytes.len()).map_err(|r| r.with(self))?;
        let position = self.place + zeros_next(self, bytes);
        if position >= self.length {
            return Ok(Step {
                item: None,
                cursor: self.moved(self.length),
            });
        }
        let past = position + 1;
        Ok(Step {
            item: Some(position),
            cursor: self.moved(past),
        })
    }

    // Returns the cursor moved to `place`.
    pub(crate) fn moved(self, place: usize) -> Self
        ensures { result ≡ true_moved self place }
    {
        TrueIdxIter { place, ..self }
    }
}
