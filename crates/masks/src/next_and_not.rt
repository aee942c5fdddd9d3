//! A search over two masks, the second of which may be absent, for the next flag that is set in the first and not in the second: it starts
//! at a place and goes round once.
//!
//! Its answer has the number of windows of 32 flags that it covers. The code reads words of 64 flags and passes over whole blocks; the
//! number follows from where it stops.
ghost use Rattle.std.specs.Prelude.{◌≡◌, false, ℕ, ◌+◌, ◌≤◌, take, IfOk};
ghost use Rattle.words.specs.Counts.{any_set};
ghost use Rattle.words.specs.Flags.{window, word_flags};
ghost use Rattle.masks.specs.Refusal.{failure_of};
ghost use Rattle.masks.specs.Checks.{first_failed, limit};
ghost use Rattle.masks.specs.Iterator.{leading_from};
ghost use Rattle.masks.specs.NextAndNot.{free_flags, next_checks, next_set, other_checks, windows_of};
ghost use Rattle.masks.specs.Workers.{PassedTo, Searchable};

use crate::bitmap::Bitmap;
use crate::checks::check_mask;
use crate::refusal::{Refusal, check, earlier};
use words::counts::any_set;
use words::ends::leading_in_word;
use words::flags::Operand;
use words::ops::{Op, and_not_word};
use words::word::{shr_or_zero, word_from};

/// A position, or none, and the number of windows of 32 flags that the search covers.
#[derive(Clone, Copy, PartialEq, Eq, Debug)]
pub struct NextFlag {
    pub position: Option<usize>,
    pub windows: usize,
}

/// Returns the first position at or after `from` that is set in the first mask and not in the second, else the first such position below
/// `from`, or none. An absent second mask takes nothing away. Windows begin at `from` and at every 32nd flag after it, then at 0 and at
/// every 32nd flag below `from`; the answer counts those up to the one that holds the position, or all. Refuses with 6 if `from` is above
/// the length.
///
/// Masks of at most 64 flags are one word each, read once and searched twice, with no loop. This function and its checks are compiled into
/// its callers, which short masks notice (PROVING, `next_and_not`).
#[inline(always)]
pub fn next_and_not(
    first: Bitmap,
    first_bytes: &[u8],
    second: Option<Bitmap>,
    second_bytes: &[u8],
    from: usize,
) -> Result<NextFlag, Refusal>
    ensures refused { failure_of result ≡ first_failed
        (next_checks first first_bytes.now second second_bytes.now from) }
    ensures found { IfOk result (λ f. f ≡ next_set
        first.length (free_flags first first_bytes.now second second_bytes.now) from) }
{
    check_next(first, first_bytes, second, second_bytes, from)?;
    let length = first.length;
    if length <= 64 {
        let word = free_word(first, first_bytes, second, second_bytes, 0);
        return Ok(next_in_word(word, length, from));
    }
    let ahead = zeros_ahead(first, first_bytes, second, second_bytes, from, length);
    if ahead < length - from {
        let position = from + ahead;
        let read = ahead / 32 + 1;
        return Ok(NextFlag {
            position: Some(position),
            windows: read,
        });
    }
    let passed = windows_of(length - from);
    let before = zeros_ahead(first, first_bytes, second, second_bytes, 0, from);
    if before < from {
        let read = passed + (before / 32 + 1);
        return Ok(NextFlag {
            position: Some(before),
            windows: read,
        });
    }
    let read = passed + windows_of(from);
    Ok(NextFlag {
        position: None,
        windows: read,
    })
}

// Searches the first n flags of a word for a one, at or after `from` and then below it, and counts the windows. Its returns repeat those of
// `next_and_not`: here each search is one number, there the second is a call, made only if the first finds none.
fn next_in_word(word: u64, n: usize, from: usize) -> NextFlag
    requires { (n ≤ 64) × (from ≤ n) }
    ensures { result ≡ next_set n (take n (word_flags word)) from }
{
    let ahead = leading_in_word(false, shr_or_zero(word, from), n - from);
    if ahead < n - from {
        return NextFlag {
            position: Some(from + ahead),
            windows: ahead / 32 + 1,
        };
    }
    let passed = windows_of(n - from);
    let before = leading_in_word(false, word, from);
    if before < from {
        return NextFlag {
            position: Some(before),
            windows: passed + (before / 32 + 1),
        };
    }
    NextFlag {
        position: None,
        windows: passed + windows_of(from),
    }
}

// Returns how many windows n flags take.
fn windows_of(n: usize) -> usize
    requires { n ≤ limit }
    ensures { result ≡ windows_of n }
{
    n.div_ceil(32)
}

// Makes the checks of the first mask, of the second if it is there (check 5 among them), and of `from`, which is at most the length.
#[inline(always)]
fn check_next(
    first: Bitmap,
    first_bytes: &[u8],
    second: Option<Bitmap>,
    second_bytes: &[u8],
    from: usize,
) -> Result<(), Refusal>
    ensures { failure_of result ≡ first_failed
        (next_checks first first_bytes.now second second_bytes.now from) }
{
    let place = check(Refusal::OutsideMask, from <= first.length);
    let other = check_other(first.length, second, second_bytes);
    earlier(check_mask(first, first_bytes), earlier(other, place))
}

// Makes the checks of the second mask, and check 5: its length is n. Without a second mask makes none.
fn check_other(n: usize, second: Option<Bitmap>, bytes: &[u8]) -> Result<(), Refusal>
    ensures { failure_of result ≡ first_failed (other_checks n second bytes.now) }
{
    match second {
        Some(m) => {
            check_mask(m, bytes)?;
            check(Refusal::UnequalLengths, n == m.length)
        }
        None => Ok(()),
    }
}

// Returns whether one of the n flags starting at `at` is set in the first mask and not in the second. This and the three functions below
// take both masks and their bytes one by one, which is faster than methods of a struct of the four (PROVING, `any_free`).
fn any_free(
    first: Bitmap,
    first_bytes: &[u8],
    second: Option<Bitmap>,
    second_bytes: &[u8],
    at: usize,
    n: usize,
) -> bool
    requires { Searchable first second (at + n) first.length }
    ensures { result ≡ any_set
        (window (free_flags first first_bytes.now second second_bytes.now) at n) }
{
    let a = Operand {
        bytes: first_bytes,
        start: first.start + at,
    };
    match second {
        Some(m) => {
            let b = Operand {
                bytes: second_bytes,
                start: m.start + at,
            };
            any_set(Op::AndNot, &a, &b, &b, n)
        }
        None => any_set(Op::And, &a, &a, &a, n),
    }
}

// Returns the 64 flags starting at `at`, each set if it is set in the first mask and not in the second; those past the length have no
// meaning. It has two callers, and is compiled into both for short masks (PROVING, `free_word`).
#[inline(always)]
fn free_word(
    first: Bitmap,
    first_bytes: &[u8],
    second: Option<Bitmap>,
    second_bytes: &[u8],
    at: usize,
) -> u64
    requires { Searchable first second at first.length }
    ensures { (k : ℕ) → k ≤ 64 → at + k ≤ first.length
        → take k (word_flags result) ≡
        window (free_flags first first_bytes.now second second_bytes.now) at k }
{
    let own = word_from(first_bytes, first.start + at);
    match second {
        Some(m) => and_not_word(own, word_from(second_bytes, m.start + at)),
        None => own,
    }
}

// Passes over blocks of 1,024 flags that have no flag set in the first mask and not in the second, and returns where it stops: at a block
// that has one, or at the last flags before `end`. This loop and that of `zeros_ahead` are `while`, which is faster than `for` loops over a
// range of blocks and a `step_by(64)` (PROVING, `pass_blocks`).
fn pass_blocks(
    first: Bitmap,
    first_bytes: &[u8],
    second: Option<Bitmap>,
    second_bytes: &[u8],
    from: usize,
    end: usize,
) -> usize
    requires { Searchable first second from end }
    ensures { PassedTo
        (take end (free_flags first first_bytes.now second second_bytes.now)) end from result }
{
    let mut at = from;
    while end - at >= 1024 {
        if any_free(first, first_bytes, second, second_bytes, at, 1024) {
            return at;
        }
        at += 1024;
    }
    at
}

// Counts the flags starting at `from`, and below `end`, before the first that is set in the first mask and not in the second.
fn zeros_ahead(
    first: Bitmap,
    first_bytes: &[u8],
    second: Option<Bitmap>,
    second_bytes: &[u8],
    from: usize,
    end: usize,
) -> usize
    requires { Searchable first second from end }
    ensures { result ≡ leading_from
        false (take end (free_flags first first_bytes.now second second_bytes.now)) from }
{
    let mut at = pass_blocks(first, first_bytes, second, second_bytes, from, end);
    while at < end {
        let k = (end - at).min(64);
        let same = leading_in_word(
            false,
            free_word(first, first_bytes, second, second_bytes, at),
            k,
        );
        at += same;
        if same < k {
            return at - from;
        }
    }
    at - from
}
