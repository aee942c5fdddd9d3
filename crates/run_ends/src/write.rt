//! A list of flags written as the fewest runs.
ghost use Rattle.std.specs.Prelude.{◌≡◌, ◌≤◌, ◌<◌, ◌+◌, ◌^◌, cond, eqb, pos, set, length as list_length, IfOk, OnOk, OnErr};
ghost use Rattle.words.specs.Flags.{over};
ghost use Rattle.words.specs.Loops.{stretch};
ghost use Rattle.masks.specs.Checks.{first_failed, limit};
ghost use Rattle.masks.specs.Frozen.{with_frozen};
ghost use Rattle.masks.specs.Mask.{mask_flags, written_mask};
ghost use Rattle.masks.specs.Refusal.{failure_of};
ghost use Rattle.run_ends.specs.Write.{run_count, run_flags, write_checks, written_ends};
ghost use Rattle.run_ends.specs.WriteWorkers.{put_from, set_places};

use masks::bitmap::{Bitmap, written_mask};
use masks::checks::check_output;
use masks::compare::num_edges;
use masks::refusal::{Refusal, check};
use words::changes::{changed_flags, fill_alternating, without_first};
use words::ends::leading_in_word;
use words::word::{constant_word, flag_at, low_flags, word_from};

/// Writes the flags of a mask as the fewest runs: where each ends to the front of `ends`, and its flag, as frozen bytes, to the start of
/// `out`. Returns the mask of the runs' flags, under the serial of `mask`; its length is the number of runs. Refuses with 9, and writes
/// neither, if either output is too short.
pub fn to_run_ends(
    mask: Bitmap,
    bytes: &[u8],
    ends: &mut [i32],
    out: &mut [u8],
) -> Result<Bitmap, Refusal>
    ensures refused { failure_of result ≡ first_failed
        (write_checks mask bytes.now (list_length ends.old) (list_length out.old)) }
    ensures mask { IfOk result (λ m. m ≡ written_mask mask (run_count mask bytes.now)) }
    ensures ends { OnOk result (ends.new ≡ over ends.old (written_ends (mask_flags mask bytes.now))) }
    ensures bytes { OnOk result (out.new ≡ with_frozen out.old (run_flags (mask_flags mask bytes.now))) }
    ensures unchanged { OnErr result ((ends.new ≡ ends.old) × (out.new ≡ out.old)) }
{
    let runs = check_write(mask, bytes, ends.len(), out.len())?;
    write_ends(bytes, mask.start, mask.length, ends);
    fill_alternating(flag_at(bytes, mask.start), runs, out);
    Ok(written_mask(mask, runs))
}

// Makes the checks of the call, and returns the number of runs.
fn check_write(mask: Bitmap, bytes: &[u8], places: usize, size: usize) -> Result<usize, Refusal>
    ensures refused { failure_of result ≡ first_failed (write_checks mask bytes.now places size) }
    ensures runs { IfOk result (λ n. n ≡ run_count mask bytes.now) }
{
    let edges = num_edges(mask, bytes)?;
    let runs = runs_of(edges, mask.length);
    check(Refusal::OutputTooSmall, runs <= places)?;
    check_output(runs, size)?;
    Ok(runs)
}

// Returns how many runs n flags have, of which `edges` differ from the one after them.
fn runs_of(edges: usize, n: usize) -> usize
    requires { (edges ≤ n) × (n ≤ limit) }
    ensures { result ≡ cond (eqb n 0) 0 (edges + 1) }
{
    if n == 0 { 0 } else { edges + 1 }
}

// Writes where the runs of n flags end, starting at flag `start` of `bytes`: at each flag that differs from the one before it, which are
// the set flags of words, and the last one at n.
fn write_ends(bytes: &[u8], start: usize, n: usize, ends: &mut [i32])
    requires { (start ≤ limit) × ((n ≤ limit)
        × (list_length (written_ends (stretch bytes.now start n)) ≤ list_length ends.old)) }
    ensures { ends.new ≡ over ends.old (written_ends (stretch bytes.now start n)) }
{
    if n == 0 {
        return;
    }
    let mut before = constant_word(flag_at(bytes, start));
    let mut count = 0;
    let whole = n / 64;
    for i in 0..whole {
        let w = word_from(bytes, start + 64 * i);
        count = write_places(ends, count, changed_flags(before, w), 64 * i);
        before = w;
    }
    let at = 64 * whole;
    let w = word_from(bytes, start + at);
    let last = low_flags(changed_flags(before, w), n - at);
    count = write_places(ends, count, last, at);
    write_end(ends, count, n);
}

// Writes the positions of the set flags of a word after the `done` ends already written, and returns how many are then written. The word's
// first flag is at position `first`.
fn write_places(ends: &mut [i32], done: usize, word: u64, first: usize) -> usize
    requires { (done + list_length (set_places first word) ≤ list_length ends.old) × (first ≤ limit) }
    ensures count { result ≡ done + list_length (set_places first word) }
    ensures ends { ends.new ≡ put_from ends.old done (set_places first word) }
{
    let mut w = word;
    let mut count = done;
    while w != 0 {
        let place = leading_in_word(false, w, 64);
        write_end(ends, count, first + place);
        w = without_first(w);
        count += 1;
    }
    count
}

// Writes a position as end number `at`. By `as`, since it fits.
fn write_end(ends: &mut [i32], at: usize, position: usize)
    requires { (at < list_length ends.old) × (position < 2 ^ 31) }
    ensures { ends.new ≡ set ends.old at (pos position) }
{
    ends[at] = position as i32;
}
