//! Exported to C and Rust: the calls over spans without a mask: the aligned split, the counts, a span split in two, 32 flags as a number.
#![tactic(auto, using(masks::proofs::refusal::ClauseLaws::answered, masks::proofs::refusal::SpanClauses::zeros_counted, masks::proofs::refusal::SpanClauses::leading_counted, masks::proofs::refusal::SpanClauses::trailing_counted, masks::proofs::refusal::SpanClauses::split_made), unfolding(masks::specs::equations::Bitmask::split_at, masks::specs::equations::Bitmask::window_at))]

ghost use Rattle.std.specs.Prelude.{◌≡◌, true, false};
ghost use Rattle.masks.specs.equations.Answer.{answer};
ghost use Rattle.masks.specs.equations.Aligned.{aligned_of};
ghost use Rattle.masks.specs.equations.Bitmask.{window_at};
ghost use Rattle.masks.specs.equations.Bitmask.{split_at};
ghost use Rattle.words.specs.Ends.{leading, trailing};
ghost use Rattle.words.specs.Loops.{stretch};
ghost use Rattle.masks.specs.Utils.{zeros};
ghost use Rattle.masks.specs.equations.Utils.{span_count};
ghost use Rattle.capi.specs.Answers.{as_number, as_spans, as_split};

use crate::answers::{NumberAnswer, SpansAnswer, SplitAnswer};
use masks::aligned::AlignedBitmapSlice;
use masks::bitmask::{Span, get_u32, split_at_unchecked};
use masks::refusal::Refusal;
use masks::utils::{count_zeros, leading_ones, leading_zeros, trailing_ones, trailing_zeros};

#[tactic(auto, unfolding(crate::specs::Answers::as_split))]
impl From<Result<AlignedBitmapSlice, Refusal>> for SplitAnswer {
    ghost from_gives = { λ r a. a ≡ as_split (answer r) };

    fn from(r: Result<AlignedBitmapSlice, Refusal>) -> SplitAnswer {
        match r {
            Ok(s) => SplitAnswer {
                refusal: 0,
                prefix: s.prefix,
                prefix_len: s.prefix_len,
                bulk_start: s.bulk_start,
                bulk_len: s.bulk_len,
                suffix: s.suffix,
                suffix_len: s.suffix_len,
            },
            Err(e) => SplitAnswer {
                refusal: e.into(),
                ..SplitAnswer::default()
            },
        }
    }
}

#[tactic(auto, unfolding(crate::specs::Answers::as_spans))]
impl From<Result<(Span, Span), Refusal>> for SpansAnswer {
    ghost from_gives = { λ r a. a ≡ as_spans (answer r) };

    fn from(r: Result<(Span, Span), Refusal>) -> SpansAnswer {
        match r {
            Ok((a, b)) => SpansAnswer {
                refusal: 0,
                first_start: a.start,
                first_length: a.length,
                second_start: b.start,
                second_length: b.length,
            },
            Err(e) => SpansAnswer {
                refusal: e.into(),
                ..SpansAnswer::default()
            },
        }
    }
}

/// Splits a span into a prefix, whole words at addresses divisible by 8, and a suffix. `address` is the address of the first byte modulo
/// 8. A span that lies in eight bytes is all prefix. With length 0 every field is 0, without any check.
///
/// ```
/// use poruwhina::calls::aligned_new;
///
/// let split = aligned_new(&[0xFF; 24], 4, 180, 0);
/// assert_eq!((split.prefix_len, split.bulk_len, split.suffix_len), (60, 1, 56));
/// assert_eq!(aligned_new(&[0xFF; 24], 4, 180, 8).refusal, 8);
/// ```
#[unsafe(no_mangle)]
pub extern "C" fn pw_aligned_new(
    bytes: &[u8],
    start: usize,
    length: usize,
    address: usize,
) -> SplitAnswer
    ensures { result ≡ as_split (aligned_of bytes.now start length address) }
{
    AlignedBitmapSlice::new(bytes, start, length, address).into()
}

/// Counts the zeros of a span. `address` is the address of the first byte modulo 8; the count does not depend on it. With length 0 returns
/// 0 without any check.
///
/// ```
/// assert_eq!(poruwhina::calls::count_zeros(&[0x2D], 0, 6, 0).value, 2);
/// assert_eq!(poruwhina::calls::count_zeros(&[0x2D], 2, 7, 0).refusal, 2);
/// ```
#[unsafe(no_mangle)]
pub extern "C" fn pw_count_zeros(
    bytes: &[u8],
    start: usize,
    length: usize,
    address: usize,
) -> NumberAnswer
    ensures { result ≡
        as_number (span_count bytes.now start length address (zeros (stretch bytes.now start length))) }
{
    count_zeros(bytes, start, length, address).into()
}

/// Counts the zeros before the first set flag of a span, or the whole length if no flag is set. `address` is the address of the first byte
/// modulo 8; the count does not depend on it. With length 0 returns 0 without any check.
///
/// ```
/// assert_eq!(poruwhina::calls::leading_zeros(&[0x2C], 0, 6, 0).value, 2);
/// assert_eq!(poruwhina::calls::leading_zeros(&[0x2C], 0, 6, 8).refusal, 8);
/// ```
#[unsafe(no_mangle)]
pub extern "C" fn pw_leading_zeros(
    bytes: &[u8],
    start: usize,
    length: usize,
    address: usize,
) -> NumberAnswer
    ensures { result ≡
        as_number (span_count bytes.now start length address (leading false (stretch bytes.now start length))) }
{
    leading_zeros(bytes, start, length, address).into()
}

/// Counts the ones before the first zero of a span, or the whole length if every flag is set. `address` is the address of the first byte
/// modulo 8; the count does not depend on it. With length 0 returns 0 without any check.
///
/// ```
/// assert_eq!(poruwhina::calls::leading_ones(&[0x2D], 2, 4, 0).value, 2);
/// ```
#[unsafe(no_mangle)]
pub extern "C" fn pw_leading_ones(
    bytes: &[u8],
    start: usize,
    length: usize,
    address: usize,
) -> NumberAnswer
    ensures { result ≡
        as_number (span_count bytes.now start length address (leading true (stretch bytes.now start length))) }
{
    leading_ones(bytes, start, length, address).into()
}

/// Counts the zeros after the last set flag of a span, or the whole length if no flag is set. `address` is the address of the first byte
/// modulo 8; the count does not depend on it. With length 0 returns 0 without any check.
///
/// ```
/// assert_eq!(poruwhina::calls::trailing_zeros(&[0x2D], 0, 8, 0).value, 2);
/// ```
#[unsafe(no_mangle)]
pub extern "C" fn pw_trailing_zeros(
    bytes: &[u8],
    start: usize,
    length: usize,
    address: usize,
) -> NumberAnswer
    ensures { result ≡
        as_number (span_count bytes.now start length address (trailing false (stretch bytes.now start length))) }
{
    trailing_zeros(bytes, start, length, address).into()
}

/// Counts the ones after the last zero of a span, or the whole length if every flag is set. `address` is the address of the first byte
/// modulo 8; the count does not depend on it. With length 0 returns 0 without any check.
///
/// ```
/// assert_eq!(poruwhina::calls::trailing_ones(&[0x2D], 0, 4, 0).value, 2);
/// ```
#[unsafe(no_mangle)]
pub extern "C" fn pw_trailing_ones(
    bytes: &[u8],
    start: usize,
    length: usize,
    address: usize,
) -> NumberAnswer
    ensures { result ≡
        as_number (span_count bytes.now start length address (trailing true (stretch bytes.now start length))) }
{
    trailing_ones(bytes, start, length, address).into()
}

/// Returns two spans: the first `at` flags, and the flags starting at `at`. `at` may equal the length; above it the call is refused with
/// 6.
///
/// ```
/// let parts = poruwhina::calls::split_at_unchecked(&[0x2D], 1, 6, 4);
/// assert_eq!((parts.first_start, parts.first_length), (1, 4));
/// assert_eq!((parts.second_start, parts.second_length), (5, 2));
/// ```
#[unsafe(no_mangle)]
pub extern "C" fn pw_split_at_unchecked(
    bytes: &[u8],
    start: usize,
    length: usize,
    at: usize,
) -> SpansAnswer
    ensures { result ≡ as_spans (split_at bytes.now start length at) }
{
    split_at_unchecked(bytes, start, length, at).into()
}

/// Returns 32 flags starting at `index`, the first in the lowest bit, with zeros past the end of the span. `index` may be any number.
///
/// ```
/// assert_eq!(poruwhina::calls::get_u32(&[0x2D], 0, 6, 2).value, 0x0B);
/// ```
#[unsafe(no_mangle)]
pub extern "C" fn pw_get_u32(
    bytes: &[u8],
    start: usize,
    length: usize,
    index: usize,
) -> NumberAnswer
    ensures { result ≡ as_number (window_at bytes.now start length index) }
{
    get_u32(bytes, start, length, index)
        .map(|w| w as usize) // `usize` has no `From` of a u32
        .into()
}
