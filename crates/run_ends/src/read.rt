//! Run ends read as a list of flags.
ghost use Rattle.std.specs.Prelude.{◌≡◌, ◌+◌, ◌-◌, ◌*◌, ◌/◌, ◌≤◌, ◌<◌, ℕ, Bool, false, List, get_or, min};
ghost use Rattle.std.specs.Prelude.{length as list_length, IfOk, OnOk, OnErr};
ghost use Rattle.words.specs.Flags.{copies, flags_of, over, window, word_flags};
ghost use Rattle.words.specs.Loops.{stretch, whole_words};
ghost use Rattle.masks.specs.Checks.{first_failed};
ghost use Rattle.masks.specs.Frozen.{with_frozen};
ghost use Rattle.masks.specs.Mask.{mask_flags, written_mask};
ghost use Rattle.masks.specs.Refusal.{failure_of};
ghost use Rattle.run_ends.specs.Read.{flags_read, read_checks};
ghost use Rattle.run_ends.specs.Workers.{Readable, WordsWritten};

use crate::rules::{check_runs, end_of};
use masks::bitmap::{Bitmap, written_mask};
use masks::checks::{check_mask, check_output, check_span};
use masks::refusal::{Refusal, check, earlier};
use words::loops::fill_whole;
use words::word::{concat_low, constant_word, flag_at, low_flags, store_at, store_whole};

/// Reads a list of `length` flags from run ends, writes it as frozen bytes to the start of `out`, and returns its mask, under the serial of
/// the values: flag p is the value of the first run whose end is above p. `values` has the flag of each run. Refuses with 13 if an end is
/// 0 or below or not above the one before it, if the last end is below `length`, if there are no runs for a length above 0, or if there
/// are not as many values as ends; with 9 if the output is too short.
pub fn from_run_ends(
    ends: &[i32],
    values: Bitmap,
    bytes: &[u8],
    length: usize,
    out: &mut [u8],
) -> Result<Bitmap, Refusal>
    ensures refused { failure_of result ≡ first_failed
        (read_checks ends.now values bytes.now length (list_length out.old)) }
    ensures mask { IfOk result (λ m. m ≡ written_mask values length) }
    ensures bytes { OnOk result (out.new ≡ with_frozen out.old
        (flags_read ends.now (mask_flags values bytes.now) length)) }
    ensures unchanged { OnErr result (out.new ≡ out.old) }
{
    check_read(ends, values, bytes, length, out.len())?;
    write_runs(ends, bytes, values.start, length, out);
    Ok(written_mask(values, length))
}

// Makes the checks of a reading in their order: 1 of the stated length comes before 2 of the values, and 13 before their count, which is
// counted only after it.
fn check_read(
    ends: &[i32],
    values: Bitmap,
    bytes: &[u8],
    n: usize,
    size: usize,
) -> Result<(), Refusal>
    ensures { failure_of result ≡ first_failed (read_checks ends.now values bytes.now n size) }
{
    earlier(
        check_span(values.start, values.length, bytes.len()),
        check(Refusal::AboveLimit, n <= Bitmap::LIMIT),
    )?;
    check_runs(ends, n, values.length)?;
    check_mask(values, bytes)?;
    check_output(n, size)
}

// Writes the n flags of run ends to the start of `out`. The flag of run k is flag start + k of `bytes`. Flags enter a word in progress,
// which is written when it is full.
fn write_runs(ends: &[i32], bytes: &[u8], start: usize, n: usize, out: &mut [u8])
    requires { Readable ends.now start n (list_length out.old) }
    ensures { flags_of out.new ≡ over (flags_of out.old) (whole_words
        (flags_read ends.now (stretch bytes.now start (list_length ends.now)) n)) }
{
    let mut word = 0;
    let mut last = 0;
    for (k, end) in ends.iter().enumerate() {
        let position = end_of(*end);
        let next = least(position, n);
        let flag = flag_at(bytes, start + k);
        word = push_run(word, last, next, flag, out);
        last = next;
    }
    let rest = n % 64;
    if rest == 0 {
        return;
    }
    store_at(out, 8 * (n / 64), low_flags(word, rest));
}

fn least(a: usize, b: usize) -> usize
    ensures { result ≡ min a b }
{
    if a < b { a } else { b }
}

// Appends copies of a flag, up to before position `next`, to the flags before position `last`, and returns the word then in progress. The
// flags of a word in progress after its last one are of no account.
fn push_run(word: u64, last: usize, next: usize, flag: bool, out: &mut [u8]) -> u64
    requires { (last ≤ next) × (8 * (next / 64) ≤ list_length out.old) }
    ensures { (old all : List Bool) → WordsWritten old (flags_of out.old) all word last
        → ((p : ℕ) → last ≤ p → p < next → get_or all p false ≡ flag)
        → WordsWritten old (flags_of out.new) all result next }
{
    let fill = constant_word(flag);
    let joined = concat_low(word, last % 64, fill);
    if last / 64 == next / 64 {
        return joined;
    }
    close_word(joined, last / 64, next / 64, flag, out);
    fill
}

// Writes the word in progress, which is full, as word `first`, and copies of a flag as the words after it up to before word `end`.
fn close_word(word: u64, first: usize, end: usize, flag: bool, out: &mut [u8])
    requires { (first < end) × (8 * end ≤ list_length out.old) }
    ensures { (old all : List Bool) → flags_of out.old ≡ over old (window all 0 (64 * first))
        → word_flags word ≡ window all (64 * first) 64
        → copies (64 * (end - (first + 1))) flag ≡ window all (64 * (first + 1)) (64 * (end - (first + 1)))
        → flags_of out.new ≡ over old (window all 0 (64 * end)) }
{
    store_whole(out, 8 * first, word);
    let next = first + 1;
    if next == end {
        return;
    }
    fill_whole(flag, end - next, &mut out[8 * next..]);
}
