//! The reasons for which a call refuses, and how the checks of a call are joined.
ghost use Rattle.std.specs.Prelude.{◌≡◌, cond, Some};
ghost use Rattle.masks.specs.Checks.{earlier as earlier_of};
ghost use Rattle.masks.specs.Refusal.{failure_of, number, reason, said};

use std::error::Error;
use std::fmt;

/// The checks that a call can fail, in their order: of several that fail the first one here is the answer. Each is a check of the reference
/// with its number. The list, with its texts and numbers, is written from include/refusals.txt.
#[derive(Clone, Copy, PartialEq, Eq, PartialOrd, Ord, Debug)]
pub enum Refusal {
    /// 1: a start or a length is above 4,194,304: of a span, mask, cursor, builder or inner piece, a stated length, or a resulting start or
    /// length.
    AboveLimit,
    /// 2: start + length is above 8 * the bytes lent.
    OutsideBytes,
    /// 13: an end of 0 or below, one that is not above the end before it, a last end below the length, no runs for a length above 0, or a
    /// number of values that is not the number of ends.
    BrokenRunEnds,
    /// 3: a known zero count is not the number of zeros among the flags. Each call that takes a mask counts a known one again.
    FalseCount,
    /// 14: two masks with equal serials have different flags or lengths.
    SerialConflict,
    /// 4: the builder is not possible: its word has a bit set at or above length mod 64, its ones are above 64 * (length div 64), or its
    /// buffer has fewer than 8 * (length div 64) bytes.
    ImpossibleBuilder,
    /// 5: the masks combined, or a mask and the length stated for it, differ in length.
    UnequalLengths,
    /// 12: rows * columns, computed exactly, is not the length of the mask.
    NotAGrid,
    /// 6: a slice's end, a split point or a cursor's place is above the length, an index or a truck is not below it, a row or a column is
    /// not below the number of rows or of columns, or a pushed word has more than 64 flags or a bit set after them.
    OutsideMask,
    /// 7: when a slice recounts, the known count is below the zeros cut off, or the rest of it is above the new length. No call returns
    /// this number: a known count is exact, since check 3 comes first.
    CountNotOfSlice,
    /// 8: the address remainder is above 7.
    AddressRemainder,
    /// 9: the output, or the builder's buffer, has fewer than 8 * ceil(new length / 64) bytes, or the output of counts or of run ends has
    /// fewer places than there are counts or runs.
    OutputTooSmall,
}

impl Refusal {
    // Returns the words for the check that failed: those of the Rust crate.
    fn reason(self) -> &'static str
        ensures { result.now ≡ reason self }
    {
        match self {
            Refusal::AboveLimit => "a start or a length is above 4,194,304",
            Refusal::OutsideBytes => "start + length is above 8 * the bytes lent",
            Refusal::BrokenRunEnds => {
                "the run ends do not rise from above 0 to the length or above it, or are not as many as their values"
            }
            Refusal::FalseCount => "a known zero count is not the number of zeros",
            Refusal::SerialConflict => "the masks have equal serials and different flags",
            Refusal::ImpossibleBuilder => {
                "the builder is not possible: its word, ones or buffer do not fit its length"
            }
            Refusal::UnequalLengths => {
                "the masks combined, or a mask and the length stated for it, are not equal in length"
            }
            Refusal::NotAGrid => "rows * columns is not the length of the mask",
            Refusal::OutsideMask => "the inner piece does not lie in its mask",
            Refusal::CountNotOfSlice => {
                "the known count is below the zeros cut off, or the rest above the new length"
            }
            Refusal::AddressRemainder => "the address remainder is above 7",
            Refusal::OutputTooSmall => {
                "the output does not hold 8 * ceil(new length / 64) bytes, or all counts or ends"
            }
        }
    }

    // Returns the refusal with the record that was passed to the call.
    pub(crate) fn with<S>(self, state: S) -> Refused<S>
        ensures { (result.refusal ≡ self) × (result.state ≡ state) }
    {
        Refused {
            refusal: self,
            state,
        }
    }
}

// The number by which documents and the C interface name a refusal.
impl From<Refusal> for u8 {
    ghost from_gives = { λ r n. n ≡ number r };

    fn from(refusal: Refusal) -> u8 {
        match refusal {
            Refusal::AboveLimit => 1,
            Refusal::OutsideBytes => 2,
            Refusal::BrokenRunEnds => 13,
            Refusal::FalseCount => 3,
            Refusal::SerialConflict => 14,
            Refusal::ImpossibleBuilder => 4,
            Refusal::UnequalLengths => 5,
            Refusal::NotAGrid => 12,
            Refusal::OutsideMask => 6,
            Refusal::CountNotOfSlice => 7,
            Refusal::AddressRemainder => 8,
            Refusal::OutputTooSmall => 9,
        }
    }
}

impl fmt::Display for Refusal {
    ghost output = { λ r. Some (said r) };

    fn fmt<W: fmt::Write>(&self, f: &mut fmt::Formatter<W>) -> fmt::Result {
        write!(f, "refused with {}: {}", u8::from(*self), self.reason())
    }
}

impl Error for Refusal {}

/// A refusal, and the record that was passed to the call.
#[derive(Clone, Copy, PartialEq, Eq, Debug)]
pub struct Refused<S> {
    pub refusal: Refusal,
    pub state: S,
}

impl<S> fmt::Display for Refused<S> {
    ghost output = { λ r. Some (said r.refusal) };

    fn fmt<W: fmt::Write>(&self, f: &mut fmt::Formatter<W>) -> fmt::Result {
        write!(f, "{}", self.refusal)
    }
}

// By this `?` passes the refusal on, in a caller that does not return the record.
impl<S: Drop> From<Refused<S>> for Refusal {
    ghost from_gives = { λ e r. r ≡ e.refusal };

    fn from(refused: Refused<S>) -> Refusal {
        refused.refusal
    }
}

impl<S: fmt::Debug + Drop> Error for Refused<S> {}

/// Returns the refusal of two checks that comes first in their order; none if both pass. It joins checks of which one made later may come
/// first, as check 1 of a second mask comes before check 3 of the first. If each comes after those made before it, a call uses `?`.
pub fn earlier(a: Result<(), Refusal>, b: Result<(), Refusal>) -> Result<(), Refusal>
    ensures refused { failure_of result ≡ earlier_of (failure_of a) (failure_of b) }
{
    match (a, b) {
        (Err(x), Err(y)) => Err(x.min(y)),
        (Err(x), Ok(())) => Err(x),
        (Ok(()), b) => b,
    }
}

/// Refuses with `refusal` unless the check holds.
pub fn check(refusal: Refusal, holds: bool) -> Result<(), Refusal>
    ensures refused { failure_of result ≡ cond holds 0 (number refusal) }
{
    if holds { Ok(()) } else { Err(refusal) }
}
