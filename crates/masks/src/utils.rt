//! Counts over bare spans. A span that fits one word starting at its first byte is read as one. For others each count passes the address to
//! the aligned split and works from its three parts; the answer does not depend on the address.
ghost use Rattle.std.specs.Prelude.{◌≡◌, ◌≢◌, true, false, ◌+◌, ◌*◌, ◌%◌, ◌≤◌, eqb, length as list_length, IfOk};
ghost use Rattle.words.specs.Ends.{leading, trailing};
ghost use Rattle.words.specs.Loops.{stretch};
ghost use Rattle.masks.specs.Aligned.{aligned_checks};
ghost use Rattle.masks.specs.Checks.{first_failed, limit};
ghost use Rattle.masks.specs.Refusal.{failure_of};
ghost use Rattle.masks.specs.Utils.{zeros};
ghost use Rattle.masks.specs.Workers.{zeros_of_all};

use crate::aligned::{AddressedSpan, check_aligned};
use crate::refusal::Refusal;
use crate::span_ends::{Back, End, Front, SplitSpan};
use words::uniform::{all_equal, differs_early};
use words::word::{near_word, ones_below};

// Counts the zeros of a span that one word load covers. Separate, so that callers can inline it. This and `short_run` take the span as
// three arguments: a `CheckedSpan` would require more of their callers than one load needs.
fn short_zeros(bytes: &[u8], start: usize, length: usize) -> usize
    requires { start % 8 + length ≤ 64 }
    ensures { result ≡ zeros (stretch bytes.now start length) }
{
    length - ones_below(near_word(bytes, start), length)
}

// Counts the zeros of any span, by the three parts of its split.
fn long_zeros(span: &AddressedSpan) -> usize
    ensures { result ≡ zeros (stretch span.now.bytes.now span.now.start span.now.length) }
{
    span.length - SplitSpan::new(span).ones()
}

// Counts the zeros of a span that has passed its checks. Too large to be inlined into a call; `count_zeros` reads a short span itself and
// passes its address remainder, other calls pass 0. Takes the span as three arguments, in registers: with a struct `check_mask` became too
// large to be inlined into the calls (PROVING, `zeros_at`).
pub(crate) fn zeros_at(bytes: &[u8], start: usize, length: usize, address: usize) -> usize
    requires { (start ≤ 2 * limit) × ((length ≤ limit) × (address ≤ 7)) }
    ensures { result ≡ zeros (stretch bytes.now start length) }
{
    if start % 8 + length <= 64 {
        return short_zeros(bytes, start, length);
    }
    long_zeros(&AddressedSpan {
        bytes,
        start,
        length,
        address,
    })
}

// Returns whether all flags of a span equal `flag`: `all_equal` of words under a contract by the number of zeros, which the checks cite.
// The zeros are not counted; the first word with another flag ends the search. This and `other_early` take the span as three arguments,
// since they require nothing of it.
pub(crate) fn all_flags(flag: bool, bytes: &[u8], start: usize, length: usize) -> bool
    ensures { result ≡ eqb (zeros (stretch bytes.now start length)) (zeros_of_all flag length) }
{
    all_equal(flag, bytes, start, length)
}

// Returns true if the first word of a span shows a flag other than `flag`; false leaves it open. Small enough to be inlined into a call, as
// `all_flags` is not.
pub(crate) fn other_early(flag: bool, bytes: &[u8], start: usize, length: usize) -> bool
    ensures { result ≡
        true → eqb (zeros (stretch bytes.now start length)) (zeros_of_all flag length) ≡ false }
{
    differs_early(flag, bytes, start, length)
}

/// Counts the zeros of a span; 0, with no check, for length 0. `zeros_at` is not inlined and gets a slice of its own: so `bytes`, which
/// would otherwise be read from memory, stays in registers for the short spans.
pub fn count_zeros(
    bytes: &[u8],
    start: usize,
    length: usize,
    address: usize,
) -> Result<usize, Refusal>
    ensures empty { length ≡ 0 → failure_of result ≡ 0 }
    ensures refused { length ≢ 0 → failure_of result ≡ first_failed
        (aligned_checks start length (list_length bytes.now) address) }
    ensures zeros { IfOk result (λ n. n ≡ zeros (stretch bytes.now start length)) }
{
    if length == 0 {
        return Ok(0);
    }
    check_aligned(start, length, bytes.len(), address)?;
    if start % 8 + length <= 64 {
        return Ok(short_zeros(bytes, start, length));
    }
    Ok(zeros_at(&bytes[0..], start, length, address))
}

// Counts the flags in a row that equal `flag`, at an end of a span that fits a word: it is read as one.
fn short_run<E: End>(flag: bool, bytes: &[u8], start: usize, length: usize) -> usize
    requires { start % 8 + length ≤ 64 }
    ensures { result ≡ E.run flag (stretch bytes.now start length) }
{
    E::in_word(flag, near_word(bytes, start), length)
}

// Counts the flags in a row that equal `flag`, at an end of any span, by the three parts of its split.
fn long_run<E: End>(flag: bool, span: &AddressedSpan) -> usize
    ensures { result ≡ E.run flag (stretch span.now.bytes.now span.now.start span.now.length) }
{
    SplitSpan::new(span).run::<E>(flag)
}

// Makes the checks and counts the flags in a row that equal `flag`, at an end of the span; 0, with no check, for length 0. `count_zeros`
// makes the same tests: one body for both would take the two ways to count as a type parameter, by a trait of its own, where two calls
// differ.
fn run_flags<E: End>(
    flag: bool,
    bytes: &[u8],
    start: usize,
    length: usize,
    address: usize,
) -> Result<usize, Refusal>
    ensures empty { length ≡ 0 → failure_of result ≡ 0 }
    ensures refused { length ≢ 0 → failure_of result ≡ first_failed
        (aligned_checks start length (list_length bytes.now) address) }
    ensures number { IfOk result (λ n. n ≡ E.run flag (stretch bytes.now start length)) }
{
    if length == 0 {
        return Ok(0);
    }
    check_aligned(start, length, bytes.len(), address)?;
    if start % 8 + length <= 64 {
        return Ok(short_run::<E>(flag, bytes, start, length));
    }
    let span = AddressedSpan {
        bytes,
        start,
        length,
        address,
    };
    Ok(long_run::<E>(flag, &span))
}

/// Counts the zeros at the start of a span. This and the three below are the Rust's names for `run_flags`.
pub fn leading_zeros(
    bytes: &[u8],
    start: usize,
    length: usize,
    address: usize,
) -> Result<usize, Refusal>
    ensures empty { length ≡ 0 → failure_of result ≡ 0 }
    ensures refused { length ≢ 0 → failure_of result ≡ first_failed
        (aligned_checks start length (list_length bytes.now) address) }
    ensures number { IfOk result (λ n. n ≡ leading false (stretch bytes.now start length)) }
{
    run_flags::<Front>(false, bytes, start, length, address)
}

/// Counts the ones at the start of a span.
pub fn leading_ones(
    bytes: &[u8],
    start: usize,
    length: usize,
    address: usize,
) -> Result<usize, Refusal>
    ensures empty { length ≡ 0 → failure_of result ≡ 0 }
    ensures refused { length ≢ 0 → failure_of result ≡ first_failed
        (aligned_checks start length (list_length bytes.now) address) }
    ensures number { IfOk result (λ n. n ≡ leading true (stretch bytes.now start length)) }
{
    run_flags::<Front>(true, bytes, start, length, address)
}

/// Counts the zeros at the end of a span.
pub fn trailing_zeros(
    bytes: &[u8],
    start: usize,
    length: usize,
    address: usize,
) -> Result<usize, Refusal>
    ensures empty { length ≡ 0 → failure_of result ≡ 0 }
    ensures refused { length ≢ 0 → failure_of result ≡ first_failed
        (aligned_checks start length (list_length bytes.now) address) }
    ensures number { IfOk result (λ n. n ≡ trailing false (stretch bytes.now start length)) }
{
    run_flags::<Back>(false, bytes, start, length, address)
}

/// Counts the ones at the end of a span.
pub fn trailing_ones(
    bytes: &[u8],
    start: usize,
    length: usize,
    address: usize,
) -> Result<usize, Refusal>
    ensures empty { length ≡ 0 → failure_of result ≡ 0 }
    ensures refused { length ≢ 0 → failure_of result ≡ first_failed
        (aligned_checks start length (list_length bytes.now) address) }
    ensures number { IfOk result (λ n. n ≡ trailing true (stretch bytes.now start length)) }
{
    run_flags::<Back>(true, bytes, start, length, address)
}
