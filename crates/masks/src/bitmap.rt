//! The mask: its record, and the calls that make one, cut it and count it. As in the reference, a mask and its bytes are two parameters;
//! they become a `CheckedSpan` once the mask's checks have passed.
ghost use Rattle.std.specs.Prelude.{◌≡◌, false, ◌+◌, length as list_length, Some, IfOk, IfErr, OnOk, OnErr};
ghost use Rattle.words.specs.Flags.{copies};
ghost use Rattle.masks.specs.Refusal.{failure_of, failure_back};
ghost use Rattle.masks.specs.Checks.{first_failed, span_checks};
ghost use Rattle.masks.specs.Frozen.{with_frozen};
ghost use Rattle.masks.specs.Utils.{zeros};
ghost use Rattle.masks.specs.Mask.{cut_zeros, empty_mask, kept_count, piece_checks, recounts as recounts_of};
ghost use Rattle.masks.specs.Mask.{mask_checks, slice_checks, sliced_mask, uncounted, zero_count, zeroed_checks};
ghost use Rattle.masks.specs.Mask.{cut_mask, mask_of, mask_under, with_count, written_mask};
ghost use Rattle.masks.specs.Workers.{cut_of, recounted_of, PieceAllowed};

use crate::checks::{check_limit, check_mask, check_output, check_span, sum_at_most};
use crate::refusal::{Refusal, Refused, check, earlier};
use crate::span::CheckedSpan;
use words::flags::Operand;
use words::loops::fill;

/// A mask: a span of its bytes, its zero count if it is known, and the serial of the revocation list that it was drawn up under. The Rust's
/// `Bitmap` with a serial.
#[derive(Clone, Copy, PartialEq, Eq, Debug)]
pub struct Bitmap {
    pub start: usize,
    pub length: usize,
    pub unset: Option<usize>,
    pub serial: u32,
}

/// A mask with its count known, and the count.
#[derive(Clone, Copy, PartialEq, Eq, Debug)]
pub struct Recounted {
    pub mask: Bitmap,
    pub zeros: usize,
}

impl Bitmap {
    /// The flag limit: the largest start and length that the calls take.
    pub const LIMIT: usize = 4194304;

    /// Returns the empty mask.
    pub fn new() -> Self
        ensures { result ≡ empty_mask }
    {
        mask_of(0, 0, Some(0))
    }

    /// Returns a mask of `length` zeros and writes its frozen bytes to the start of `out`. Refuses with 1 if `length` is above the flag
    /// limit, with 9 if `out` is too short.
    pub fn new_zeroed(length: usize, out: &mut [u8]) -> Result<Bitmap, Refusal>
        ensures refused { failure_of result ≡ first_failed
            (zeroed_checks length (list_length out.old)) }
        ensures mask { IfOk result (λ m. m ≡ mask_of 0 length (Some length)) }
        ensures bytes { OnOk result (out.new ≡ with_frozen out.old (copies length false)) }
        ensures unchanged { OnErr result (out.new ≡ out.old) }
    {
        check_limit(length)?;
        check_output(length, out.len())?;
        fill(false, length, out);
        Ok(mask_of(0, length, Some(length)))
    }

    /// Returns the mask of `length` flags of `bytes` starting at `start`. Its zeros are not counted; the count is known only for length 0.
    /// Refuses with 1 if `start` or `length` is above the flag limit, with 2 if the flags end past the bytes.
    pub fn try_new(bytes: &[u8], start: usize, length: usize) -> Result<Bitmap, Refusal>
        ensures refused { failure_of result ≡ first_failed
            (span_checks start length (list_length bytes.now)) }
        ensures mask { IfOk result (λ m. m ≡ mask_of start length (uncounted length)) }
    {
        check_span(start, length, bytes.len())?;
        let unset = not_counted(length);
        Ok(mask_of(start, length, unset))
    }

    /// Returns the number of zeros, and the mask with that count stored.
    pub fn unset_bits(self, bytes: &[u8]) -> Result<Recounted, Refused<Bitmap>>
        ensures refused { failure_back result ≡ first_failed (mask_checks self bytes.now) }
        ensures zeros { IfOk result (λ r. r.zeros ≡ zero_count self bytes.now) }
        ensures mask { IfOk result (λ r. r.mask ≡
            with_count self (Some (zero_count self bytes.now))) }
        ensures state { IfErr result (λ e. e.state ≡ self) }
    {
        check_mask(self, bytes).map_err(|r| r.with(self))?;
        let zeros = match self.unset {
            Some(zeros) => zeros,
            None => {
                let span = CheckedSpan {
                    bytes,
                    start: self.start,
                    length: self.length,
                };
                span.zeros()
            }
        };
        Ok(Recounted {
            mask: with_count(self, Some(zeros)),
            zeros,
        })
    }

    // Returns the mask's flags in the form in which the combinations take an operand.
    pub(crate) fn flags<'a>(self, bytes: &'a [u8]) -> Operand<'a>
        ensures { (result.bytes.now ≡ bytes.now) × (result.start ≡ self.start) }
    {
        Operand {
            bytes,
            start: self.start,
        }
    }

    /// Returns the mask of the `length` flags starting at `offset`, under the serial of this one. Refuses with 6 if they do not all lie in
    /// this mask, with 1 if `offset`, `length` or their start in the bytes is above the flag limit.
    #[inline(always)]
    pub fn slice(
        self,
        bytes: &[u8],
        offset: usize,
        length: usize,
    ) -> Result<Bitmap, Refused<Bitmap>>
        ensures refused { failure_back result ≡ first_failed
            (slice_checks self bytes.now offset length) }
        ensures mask { IfOk result (λ m. m ≡ sliced_mask self bytes.now offset length) }
        ensures state { IfErr result (λ e. e.state ≡ self) }
    {
        check_piece(self, bytes, offset, length).map_err(|r| r.with(self))?;
        let start = self.start + offset;
        let unset = cut_count(self, bytes, offset, length).map_err(|r| r.with(self))?;
        Ok(cut_mask(self, start, length, unset))
    }
}

// Makes a mask's record from its parts, under a serial.
pub(crate) fn mask_under(serial: u32, start: usize, length: usize, unset: Option<usize>) -> Bitmap
    ensures { result ≡ mask_under serial start length unset }
{
    Bitmap {
        start,
        length,
        unset,
        serial,
    }
}

// Makes the record of a mask that is made of no other one: its serial is 0.
fn mask_of(start: usize, length: usize, unset: Option<usize>) -> Bitmap
    ensures { result ≡ mask_of start length unset }
{
    mask_under(0, start, length, unset)
}

// Returns a mask cut to `length` flags of its bytes starting at `start`, with `unset` as their count. Keeps the serial.
pub(crate) fn cut_mask(mask: Bitmap, start: usize, length: usize, unset: Option<usize>) -> Bitmap
    ensures { result ≡ cut_mask mask start length unset }
{
    Bitmap {
        start,
        length,
        unset,
        ..mask
    }
}

// Returns a mask with its zero count replaced by `unset`.
fn with_count(mask: Bitmap, unset: Option<usize>) -> Bitmap
    ensures { result ≡ with_count mask unset }
{
    Bitmap { unset, ..mask }
}

// Returns the zero count of a result that was not counted: 0 if it has no flags, else unknown.
pub(crate) fn not_counted(length: usize) -> Option<usize>
    ensures { result ≡ uncounted length }
{
    if length == 0 { Some(0) } else { None }
}

/// Returns the mask of n flags that a call wrote as frozen bytes of its own: it starts at 0, its count is known only if there are no flags,
/// and its serial is that of the mask they were taken from.
pub fn written_mask(mask: Bitmap, n: usize) -> Bitmap
    ensures mask { result ≡ written_mask mask n }
{
    cut_mask(mask, 0, n, not_counted(n))
}

// Makes checks 1, 2, 3 and 6 of a slice of `length` flags of a mask starting at `offset`.
fn check_piece(mask: Bitmap, bytes: &[u8], offset: usize, length: usize) -> Result<(), Refusal>
    ensures { failure_of result ≡ first_failed (piece_checks mask bytes.now offset length) }
{
    let inside = check(
        Refusal::OutsideMask,
        sum_at_most(offset, length, mask.length),
    );
    let starts = check(
        Refusal::AboveLimit,
        sum_at_most(mask.start, offset, Bitmap::LIMIT),
    );
    let short = check_limit(length);
    let near = check_limit(offset);
    let piece = earlier(near, earlier(short, earlier(starts, inside)));
    earlier(check_mask(mask, bytes), piece)
}

// Returns whether a slice of n of `old` flags recounts the known number of zeros: if not all flags are equal, and it cuts off at most a
// fifth of the flags, or at most 32.
fn recounts(old: usize, n: usize, zeros: usize) -> bool
    ensures { result ≡ recounts_of old n zeros }
{
    zeros != 0 && zeros != old && old.saturating_sub(n) <= (old / 5).max(32)
}

// Returns the zero count of the slice of n flags starting at `offset`. Makes a span of the mask only if it counts anew.
fn cut_count(mask: Bitmap, bytes: &[u8], offset: usize, n: usize) -> Result<Option<usize>, Refusal>
    requires { PieceAllowed mask (list_length bytes.now) offset n }
    ensures { result ≡
        cut_of mask.length n (cut_zeros mask bytes.now offset n) mask.unset }
{
    match mask.unset {
        None => Ok(None),
        Some(zeros) => {
            if recounts(mask.length, n, zeros) {
                let span = CheckedSpan {
                    bytes,
                    start: mask.start,
                    length: mask.length,
                };
                recount(zeros, span.cut_zeros(offset, n), n)
            } else {
                Ok(kept_count(zeros, mask.length, n))
            }
        }
    }
}

// Returns the known count less the zeros that were cut off, or refuses with 7 if the known count cannot be right.
fn recount(zeros: usize, cut: usize, length: usize) -> Result<Option<usize>, Refusal>
    ensures { result ≡ recounted_of zeros cut length }
{
    match zeros.checked_sub(cut) {
        Some(rest) if rest <= length => Ok(Some(rest)),
        _ => Err(Refusal::CountNotOfSlice),
    }
}

// Returns the count of a slice that is not recounted: still known if the mask was all ones or all zeros, else unknown.
fn kept_count(zeros: usize, old: usize, length: usize) -> Option<usize>
    ensures { result ≡ kept_count zeros old length }
{
    match zeros {
        0 => Some(0),
        _ if zeros == old => Some(length),
        _ => None,
    }
}
