//! The checks that the calls share. Those that are public are for crates above masks, which make checks of their own from them.
ghost use Rattle.std.specs.Prelude.{◌≡◌, cond, ◌&&◌, [], ◌∷◌, ◌++◌, ◌+◌, ◌≤◌, eqb, leb};
ghost use Rattle.masks.specs.Refusal.{failure_of};
ghost use Rattle.masks.specs.Checks.{earlier as earlier_of, rank as rank_of};
ghost use Rattle.masks.specs.Checks.{first_failed, limit, check, within_limit, span_checks, address_checks, output_checks};
ghost use Rattle.masks.specs.Mask.{count_valid, mask_checks};
ghost use Rattle.masks.specs.Utils.{zeros};
ghost use Rattle.words.specs.Loops.{stretch};
ghost use Rattle.masks.specs.Appends.{inner_checks};
ghost use Rattle.masks.specs.Builder.{possible, builder_checks, none_from};

use crate::bitmap::Bitmap;
use crate::builder::BitmapBuilder;
use crate::refusal;
use crate::refusal::{Refusal, check};
use crate::utils::{all_flags, zeros_at};
use words::counts::none_from;

/// Returns the number of two failed checks that comes first in their order; each is 0 if nothing failed. For checks of which some are of a
/// crate above masks: a number that is none of `Refusal` comes after all that are. `refusal::earlier` joins two of `Refusal`.
pub fn earlier(a: u8, b: u8) -> u8
    ensures first { result ≡ earlier_of a b }
{
    if a == 0 {
        return b;
    }
    if b == 0 {
        return a;
    }
    if rank(a) <= rank(b) { a } else { b }
}

// Returns the place of a number in the order of the checks, counted from 0; any other number comes after them all. Written from
// include/refusals.txt.
#[tactic(auto, unfolding(crate::specs::Checks::rank, crate::specs::Checks::place_in))]
fn rank(number: u8) -> u8
    ensures { result ≡ rank_of number }
{
    match number {
        1 => 0,
        2 => 1,
        13 => 2,
        3 => 3,
        14 => 4,
        4 => 5,
        5 => 6,
        12 => 7,
        6 => 8,
        7 => 9,
        8 => 10,
        9 => 11,
        _ => 12,
    }
}

// Returns whether n is at most the flag limit.
pub(crate) fn within_limit(n: usize) -> bool
    ensures { result ≡ leb n limit }
{
    n <= Bitmap::LIMIT
}

/// Makes checks 1 and 2 of a span over `size` bytes. The numbers may have any size: check 1 comes before they are added.
pub fn check_span(start: usize, length: usize, size: usize) -> Result<(), Refusal>
    ensures refused { failure_of result ≡ first_failed (span_checks start length size) }
{
    // `&`: one branch for both, in every check of a mask.
    check(
        Refusal::AboveLimit,
        within_limit(start) & within_limit(length),
    )?;
    let end = (start + length).div_ceil(8);
    check(Refusal::OutsideBytes, end <= size)
}

// Makes check 8: an address remainder is at most 7.
pub(crate) fn check_address(address: usize) -> Result<(), Refusal>
    ensures { failure_of result ≡ first_failed (address_checks address) }
{
    check(Refusal::AddressRemainder, address <= 7)
}

// Returns whether z is the number of zeros of a span. Counts them, except if z is 0 or the length: then it looks for a flag that differs.
// Takes the span as three arguments, in registers, as `zeros_at` does; `count_valid` below passes those of the mask.
fn is_zero_count(z: usize, bytes: &[u8], start: usize, length: usize) -> bool
    requires { (start ≤ limit) × (length ≤ limit) }
    ensures { result ≡ eqb z (zeros (stretch bytes.now start length)) }
{
    if z == 0 {
        return all_flags(true, bytes, start, length);
    }
    if z == length {
        return all_flags(false, bytes, start, length);
    }
    z == zeros_at(bytes, start, length, 0)
}

// Returns whether check 3 passes: a known zero count is that of the mask's flags. The function that reads them is not inlined and gets a
// slice of its own, so that `bytes`, for a mask whose count is unknown, stays in registers.
fn count_valid(mask: Bitmap, bytes: &[u8]) -> bool
    requires { (mask.start ≤ limit) × (mask.length ≤ limit) }
    ensures { result ≡ count_valid mask bytes.now }
{
    match mask.unset {
        Some(z) => is_zero_count(z, &bytes[0..], mask.start, mask.length),
        None => true,
    }
}

/// Makes checks 1 to 3 of a mask. Counts its zeros only if 1 and 2 pass: both come before 3.
pub fn check_mask(mask: Bitmap, bytes: &[u8]) -> Result<(), Refusal>
    ensures refused { failure_of result ≡ first_failed (mask_checks mask bytes.now) }
{
    check_span(mask.start, mask.length, bytes.len())?;
    check(Refusal::FalseCount, count_valid(mask, bytes))
}

// Returns whether a + b <= c, without overflow.
pub(crate) fn sum_at_most(a: usize, b: usize, c: usize) -> bool
    ensures { result ≡ leb (a + b) c }
{
    a <= c && b <= c - a
}

/// Makes check 9: an output of `size` bytes holds the frozen bytes of n flags.
pub fn check_output(n: usize, size: usize) -> Result<(), Refusal>
    ensures refused { failure_of result ≡ first_failed (output_checks n size) }
{
    check(Refusal::OutputTooSmall, n.div_ceil(64) <= size / 8)
}

// Returns whether calls can have produced this builder over a buffer of `size` bytes (check 4).
fn is_possible(b: BitmapBuilder, size: usize) -> bool
    ensures { result ≡ possible b size }
{
    let whole = b.length / 64;
    none_from(b.word, b.length % 64) && b.ones <= 64 * whole && 8 * whole <= size
}

// Makes checks 4 and 9 for a builder that is to have n flags. Tests the buffer first: one that holds n flags holds the finished words too.
fn check_room(b: BitmapBuilder, n: usize, size: usize) -> Result<(), Refusal>
    requires { (n ≤ limit) × (b.length ≤ n) }
    ensures { failure_of result ≡ first_failed (check 4 (possible b size) ∷ output_checks n size) }
{
    if size / 8 < n.div_ceil(64) {
        return check_small(b, size);
    }
    if 64 * (b.length / 64) < b.ones {
        return Err(Refusal::ImpossibleBuilder);
    }
    check(Refusal::ImpossibleBuilder, none_from(b.word, b.length % 64))
}

// Refuses with 4 or 9, once the buffer is known not to hold the flags: with 9 if the builder is possible.
fn check_small(b: BitmapBuilder, size: usize) -> Result<(), Refusal>
    ensures { failure_of result ≡ cond (possible b size) 9 4 }
{
    check(Refusal::ImpossibleBuilder, is_possible(b, size))?;
    Err(Refusal::OutputTooSmall)
}

// Makes checks 1, 4 and 9 for appending `more` flags to a builder. Not by `sum_at_most`, which makes both tests: this is faster (PROVING,
// `check_builder`).
pub(crate) fn check_builder(b: BitmapBuilder, more: usize, size: usize) -> Result<(), Refusal>
    ensures { failure_of result ≡ first_failed (builder_checks b (b.length + more) size) }
{
    if Bitmap::LIMIT < b.length {
        return Err(Refusal::AboveLimit);
    }
    if Bitmap::LIMIT - b.length < more {
        return Err(Refusal::AboveLimit);
    }
    check_room(b, b.length + more, size)
}

// Makes checks 1, 2, 4 and 9 for appending a span of n flags of a slice of `bytes` bytes to a builder over `size` bytes.
pub(crate) fn check_span_grow(
    start: usize,
    n: usize,
    bytes: usize,
    b: BitmapBuilder,
    size: usize,
) -> Result<(), Refusal>
    ensures { failure_of result ≡ first_failed
        (span_checks start n bytes ++ builder_checks b (b.length + n) size) }
{
    refusal::earlier(check_span(start, n, bytes), check_builder(b, n, size))
}

// Makes checks 1 and 6 on a pushed word of k flags: k is within the limit and at most 64, and no bit from k up is set.
pub(crate) fn check_word(word: u64, k: usize) -> Result<(), Refusal>
    ensures { failure_of result ≡ first_failed
        (within_limit k ∷ check 6 (leb k 64 && none_from word k) ∷ []) }
{
    check_limit(k)?;
    check(Refusal::OutsideMask, k <= 64 && none_from(word, k))
}

// Makes check 1 on a stated length.
pub(crate) fn check_limit(n: usize) -> Result<(), Refusal>
    ensures { failure_of result ≡ first_failed (within_limit n ∷ []) }
{
    check(Refusal::AboveLimit, within_limit(n))
}

// Makes checks 1 and 6 on n flags starting at `start` of a mask of `whole` flags.
pub(crate) fn check_inner(start: usize, n: usize, whole: usize) -> Result<(), Refusal>
    ensures { failure_of result ≡ first_failed (inner_checks start n whole) }
{
    check_limit(start)?;
    check_limit(n)?;
    check(Refusal::OutsideMask, sum_at_most(start, n, whole))
}
