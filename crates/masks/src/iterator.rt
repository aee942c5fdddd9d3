//! The cursor over single flags of a span, and how many flags in a row at its place are equal.
ghost use Rattle.std.specs.Prelude.{◌≡◌, ◌≢◌, ◌+◌, true, false, length as list_length, IfOk, IfErr};
ghost use Rattle.masks.specs.Checks.{first_failed, span_checks};
ghost use Rattle.masks.specs.Cursor.{step_of};
ghost use Rattle.masks.specs.Iterator.{first_iter, flag_step, iter_checks, leading_at, moved_to};
ghost use Rattle.masks.specs.Refusal.{failure_back, failure_of};

use crate::checks::check_span;
use crate::cursor::{Step, check_cursor};
use crate::refusal::{Refusal, Refused};
use crate::span::leading_from;
use words::word::flag_at;

/// A cursor over the flags of a span; its place counts flags. The Rust's `BitmapIter`, with the bytes lent to each call.
#[derive(Clone, Copy, PartialEq, Eq, Debug, Default)]
pub struct BitmapIter {
    pub start: usize,
    pub length: usize,
    pub place: usize,
}

impl BitmapIter {
    /// Returns a cursor at the first flag of a span. For length 0 the cursor is all zeros and nothing is checked.
    pub fn new(bytes: &[u8], start: usize, length: usize) -> Result<BitmapIter, Refusal>
        ensures empty { length ≡ 0 → failure_of result ≡ 0 }
        ensures refused { length ≢ 0 → failure_of result ≡ first_failed
            (span_checks start length (list_length bytes.now)) }
        ensures cursor { IfOk result (λ c. c ≡ first_iter start length) }
    {
        if length == 0 {
            return Ok(BitmapIter::default());
        }
        check_span(start, length, bytes.len())?;
        Ok(BitmapIter {
            start,
            length,
            place: 0,
        })
    }

    /// Returns the flag at the cursor, and the cursor past it; at the end no flag.
    pub fn next(self, bytes: &[u8]) -> Result<Step<bool, BitmapIter>, Refused<BitmapIter>>
        ensures refused { failure_back result ≡ first_failed (iter_checks self bytes.now) }
        ensures step { IfOk result (λ s. step_of s.item s.cursor ≡ flag_step bytes.now self 0) }
        ensures state { IfErr result (λ e. e.state ≡ self) }
    {
        self.nth(bytes, 0)
    }

    /// Skips n flags and returns the one after them, and the cursor past it; past the end no flag, and the cursor at the length.
    pub fn nth(self, bytes: &[u8], n: usize) -> Result<Step<bool, BitmapIter>, Refused<BitmapIter>>
        ensures refused { failure_back result ≡ first_failed (iter_checks self bytes.now) }
        ensures step { IfOk result (λ s. step_of s.item s.cursor ≡ flag_step bytes.now self n) }
        ensures state { IfErr result (λ e. e.state ≡ self) }
    {
        check_cursor(self.start, self.length, self.place, bytes.len()).map_err(|r| r.with(self))?;
        if n >= self.length - self.place {
            return Ok(Step {
                item: None,
                cursor: self.moved(self.length),
            });
        }
        let at = self.place + n;
        let past = at + 1;
        let flag = flag_at(bytes, self.start + at);
        Ok(Step {
            item: Some(flag),
            cursor: self.moved(past),
        })
    }

    /// Counts the ones in a row at the cursor, and moves past them.
    pub fn take_leading_ones(self, bytes: &[u8]) -> Result<(usize, BitmapIter), Refused<BitmapIter>>
        ensures refused { failure_back result ≡ first_failed (iter_checks self bytes.now) }
        ensures number { IfOk result (λ r. r.0 ≡ leading_at true self bytes.now) }
        ensures cursor { IfOk result (λ r. r.1 ≡
            moved_to self (self.place + leading_at true self bytes.now)) }
        ensures state { IfErr result (λ e. e.state ≡ self) }
    {
        self.take_leading(bytes, true)
    }

    /// Counts the zeros in a row at the cursor, and moves past them.
    pub fn take_leading_zeros(
        self,
        bytes: &[u8],
    ) -> Result<(usize, BitmapIter), Refused<BitmapIter>>
        ensures refused { failure_back result ≡ first_failed (iter_checks self bytes.now) }
        ensures number { IfOk result (λ r. r.0 ≡ leading_at false self bytes.now) }
        ensures cursor { IfOk result (λ r. r.1 ≡
            moved_to self (self.place + leading_at false self bytes.now)) }
        ensures state { IfErr result (λ e. e.state ≡ self) }
    {
        self.take_leading(bytes, false)
    }

    // Counts the flags in a row at the cursor that equal `flag`, and moves past them.
    fn take_leading(
        self,
        bytes: &[u8],
        flag: bool,
    ) -> Result<(usize, BitmapIter), Refused<BitmapIter>>
        ensures refused { failure_back result ≡ first_failed (iter_checks self bytes.now) }
        ensures number { IfOk result (λ r. r.0 ≡ leading_at flag self bytes.now) }
        ensures cursor { IfOk result (λ r. r.1 ≡
            moved_to self (self.place + leading_at flag self bytes.now)) }
        ensures state { IfErr result (λ e. e.state ≡ self) }
    {
        check_cursor(self.start, self.length, self.place, bytes.len()).map_err(|r| r.with(self))?;
        let taken = leading_from(flag, bytes, self.start, self.length, self.place);
        let past = self.place + taken;
        Ok((taken, self.moved(past)))
    }

    // Returns the cursor moved to `place`.
    fn moved(self, place: usize) -> Self
        ensures { result ≡ moved_to self place }
    {
        BitmapIter { place, ..self }
    }
}
