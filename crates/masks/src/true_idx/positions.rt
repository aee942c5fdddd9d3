//! Many positions of ones at once, written to a lent output: for callers that need all of them, since a call for each costs more than what
//! it does.
ghost use Rattle.std.specs.Prelude.{◌≡◌, true, List, ℕ, ◌+◌, ◌*◌, ◌≤◌, min, take, length as list_length, IfOk, IfErr, OnOk, OnErr};
ghost use Rattle.words.specs.Flags.{copies, over, word_flags};
ghost use Rattle.words.specs.Loops.{stretch};
ghost use Rattle.masks.specs.Checks.{first_failed, limit};
ghost use Rattle.masks.specs.Frozen.{over_from};
ghost use Rattle.masks.specs.Positions.{place_after, left_of};
ghost use Rattle.masks.specs.Refusal.{failure_back};
ghost use Rattle.masks.specs.TrueIdx.{ones_from, ones_left, true_checks, true_moved};

use crate::refusal::Refused;
use crate::span::{CheckedSpan, flags_word};
use crate::true_idx::{TrueIdxIter, check_next};
use words::ends::leading_in_word;
use words::word::shr_or_zero;

// Writes consecutive positions, starting with `first`, as the u32 that the gathers take as an index: by `as`, since each is proved to
// fit.
fn write_row(part: &mut [u32], first: usize)
    requires { first + list_length part.old ≤ 2 * limit }
    ensures { part.new ≡ ones_from first (copies (list_length part.old) true) }
{
    for (i, slot) in part.iter_mut().enumerate() {
        *slot = (first + i) as u32;
    }
}

// Writes n consecutive positions, starting with `first`, to `out` at `at`.
fn write_run(out: &mut [u32], at: usize, first: usize, n: usize)
    requires { (at + n ≤ list_length out.old) × (first + n ≤ 2 * limit) }
    ensures { out.new ≡ over_from out.old at (ones_from first (copies n true)) }
{
    let end = at + n;
    write_row(&mut out[at..end], first);
}

// Writes the positions of a word's ones after the `done` already written, as many as fit, and returns how many are then written. A run is
// written as a whole, with no test of each flag. The word's first flag is number `first`. A `loop`, since an iteration moves by what it
// finds (`zeros + ones`), and carries three values.
fn write_word(out: &mut [u32], done: usize, word: u64, first: usize) -> usize
    requires { (done ≤ list_length out.old) × (first ≤ limit) }
    ensures count { result ≡
        min (list_length out.old) (done + list_length (ones_from first (word_flags word))) }
    ensures positions { out.new ≡ over_from out.old done (ones_from first (word_flags word)) }
{
    let mut w = word;
    let mut at = first;
    let mut count = done;
    loop {
        let zeros = leading_in_word(false, w, 64);
        if zeros >= 64 {
            return count;
        }
        let rest = shr_or_zero(w, zeros);
        let ones = leading_in_word(true, rest, 64);
        let n = ones.min(out.len() - count);
        write_run(out, count, at + zeros, n);
        count += n;
        if n < ones {
            return count;
        }
        w = shr_or_zero(rest, ones);
        at += zeros + ones;
    }
}

// Writes the positions of the ones of a span at or after `place`, word by word, as many as fit, and returns their number. A `while`, which
// is faster than `for at in (..).step_by(64)` (PROVING, `write_words`).
fn write_words(out: &mut [u32], span: CheckedSpan, place: usize) -> usize
    requires { place ≤ span.length }
    ensures count { result ≡
        min (list_length out.old)
        (list_length
        (ones_left (stretch span.entry.bytes.now span.entry.start span.entry.length) place)) }
    ensures positions { out.new ≡
        over_from out.old 0
        (ones_left (stretch span.entry.bytes.now span.entry.start span.entry.length) place) }
{
    let mut at = place;
    let mut count = 0;
    while at < span.length {
        if count >= out.len() {
            return count;
        }
        let k = (span.length - at).min(64);
        count = write_word(out, count, flags_word(span.bytes, span.start + at, k), at);
        at += k;
    }
    count
}

// Writes the positions that a cursor has left, as many as fit, and returns their number. Without a mask they are consecutive.
fn write_positions(cursor: TrueIdxIter, bytes: &[u8], out: &mut [u32]) -> usize
    requires { first_failed (true_checks cursor (list_length bytes.now)) ≡ 0 }
    ensures count { result ≡ min (list_length out.old) (list_length (left_of cursor bytes.now)) }
    ensures positions { out.new ≡ over out.old (left_of cursor bytes.now) }
{
    if cursor.masked {
        let span = CheckedSpan {
            bytes,
            start: cursor.start,
            length: cursor.length,
        };
        return write_words(out, span, cursor.place);
    }
    let n = (cursor.length - cursor.place).min(out.len());
    write_run(out, 0, cursor.place, n);
    n
}

// Returns the place of a cursor that has written `count` positions to `out`. `as`, since `usize` has no `From` of a u32. Not by `last` and
// `map_or`: this is faster (PROVING, `place_after`).
fn place_after(cursor: TrueIdxIter, out: &[u32], count: usize) -> usize
    requires { count ≤ list_length out.now }
    ensures { (old left : List ℕ) →
        out.now ≡ over old left → count ≡ min (list_length old) (list_length left)
        → result ≡ place_after cursor left (list_length old) }
{
    if count < out.len() {
        return cursor.length;
    }
    if count == 0 {
        return cursor.place;
    }
    out[count - 1] as usize + 1
}

impl TrueIdxIter {
    /// Writes the positions of the next ones to the start of `out`, as many as fit: the results of repeated calls of `next`. Returns their
    /// number, and the cursor past the last; if there are fewer than `out` has room for, the cursor at the length.
    pub fn next_chunk(
        self,
        bytes: &[u8],
        out: &mut [u32],
    ) -> Result<(usize, TrueIdxIter), Refused<TrueIdxIter>>
        ensures refused { failure_back result ≡ first_failed
            (true_checks self (list_length bytes.now)) }
        ensures number { IfOk result (λ r. r.0 ≡
            list_length (take (list_length out.old) (left_of self bytes.now))) }
        ensures cursor { IfOk result (λ r. r.1 ≡
            true_moved self (place_after self (left_of self bytes.now) (list_length out.old))) }
        ensures positions { OnOk result (out.new ≡ over out.old (left_of self bytes.now)) }
        ensures unchanged { OnErr result (out.new ≡ out.old) }
        ensures state { IfErr result (λ e. e.state ≡ self) }
    {
        check_next(self, bytes.len()).map_err(|r| r.with(self))?;
        let count = write_positions(self, bytes, out);
        let place = place_after(self, out, count);
        Ok((count, self.moved(place)))
    }
}
