//! Spans cut in two, windows of 32 flags, and searches for the n-th set flag by such windows.
ghost use Rattle.std.specs.Prelude.{◌≡◌, length as list_length, IfOk};
ghost use Rattle.words.specs.Loops.{stretch};
ghost use Rattle.masks.specs.Refusal.{failure_of};
ghost use Rattle.masks.specs.Bitmask.{parts_at, split_checks, window_word};
ghost use Rattle.masks.specs.Checks.{first_failed, span_checks};
ghost use Rattle.masks.specs.Search.{nth_from, nth_back};

use crate::bitmap::Bitmap;
use crate::checks::{check_span, sum_at_most};
use crate::refusal::{Refusal, check, earlier};
use crate::span::CheckedSpan;

/// A span: a start bit and a length in bits. The Rust's `BitMask`, with the bytes lent to each call.
#[derive(Clone, Copy, PartialEq, Eq, Debug)]
pub struct Span {
    pub start: usize,
    pub length: usize,
}

// Makes checks 1, 2 and 6 of a span over `size` bytes that is split at `at`.
fn check_split(start: usize, length: usize, at: usize, size: usize) -> Result<(), Refusal>
    ensures { failure_of result ≡ first_failed (split_checks start length at size) }
{
    earlier(
        check_span(start, length, size),
        earlier(
            check(Refusal::AboveLimit, sum_at_most(start, at, Bitmap::LIMIT)),
            check(Refusal::OutsideMask, at <= length),
        ),
    )
}

/// Splits a span in two: the flags below `at`, and the rest. Refuses with 6 if `at` is above the length, with 1 if `start + at` is above
/// the flag limit.
pub fn split_at_unchecked(
    bytes: &[u8],
    start: usize,
    length: usize,
    at: usize,
) -> Result<(Span, Span), Refusal>
    ensures refused { failure_of result ≡ first_failed
        (split_checks start length at (list_length bytes.now)) }
    ensures spans { IfOk result (λ s. s ≡ parts_at start length at) }
{
    check_split(start, length, at, bytes.len())?;
    let second = start + at;
    let rest = length - at;
    Ok((
        Span { start, length: at },
        Span {
            start: second,
            length: rest,
        },
    ))
}

/// Returns the 32 flags starting at `index`, with zeros past the end of the span.
pub fn get_u32(bytes: &[u8], start: usize, length: usize, index: usize) -> Result<u32, Refusal>
    ensures refused { failure_of result ≡ first_failed
        (span_checks start length (list_length bytes.now)) }
    ensures word { IfOk result (λ w. w ≡ window_word bytes.now start length index) }
{
    let span = CheckedSpan::new(bytes, start, length)?;
    Ok(span.window(index))
}

/// Returns the position of the n-th set flag at or after `from`, counting from 0, or none if there are at most n.
pub fn nth_set_bit_idx(
    bytes: &[u8],
    start: usize,
    length: usize,
    n: usize,
    from: usize,
) -> Result<Option<usize>, Refusal>
    ensures refused { failure_of result ≡ first_failed
        (span_checks start length (list_length bytes.now)) }
    ensures position { IfOk result (λ p. p ≡ nth_from (stretch bytes.now start length) n from) }
{
    let span = CheckedSpan::new(bytes, start, length)?;
    Ok(span.nth_from(n, from))
}

/// Returns the position of the n-th set flag below `end`, where the last one is number 0, or none if there are at most n. `end` may exceed
/// the length.
pub fn nth_set_bit_idx_rev(
    bytes: &[u8],
    start: usize,
    length: usize,
    n: usize,
    end: usize,
) -> Result<Option<usize>, Refusal>
    ensures refused { failure_of result ≡ first_failed
        (span_checks start length (list_length bytes.now)) }
    ensures position { IfOk result (λ p. p ≡ nth_back (stretch bytes.now start length) n end) }
{
    let span = CheckedSpan::new(bytes, start, length)?;
    Ok(span.nth_back(n, end.min(span.length)))
}
