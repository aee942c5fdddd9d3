//! The runs of ones of a mask, one by one.
ghost use Rattle.std.specs.Prelude.{◌≡◌, ◌&&◌, ◌≤◌, eqb, leb, IfOk, IfErr};
ghost use Rattle.words.specs.Loops.{stretch};
ghost use Rattle.masks.specs.Cursor.{step_of};
ghost use Rattle.masks.specs.Checks.{first_failed};
ghost use Rattle.masks.specs.Mask.{mask_checks};
ghost use Rattle.masks.specs.Refusal.{failure_back, failure_of};
ghost use Rattle.masks.specs.SliceIterator.{run_checks, slice_step, slices_at, slices_moved};
ghost use Rattle.masks.specs.Workers.{first_run};

use crate::bitmap::Bitmap;
use crate::checks::check_mask;
use crate::cursor::{Step, check_cursor};
use crate::refusal::{Refusal, Refused};
use crate::span::{CheckedSpan, zeros_from};

/// A cursor over the runs of ones of a mask; its place counts flags. The Rust's `SlicesIterator`, with the bytes lent to each call.
#[derive(Clone, Copy, PartialEq, Eq, Debug)]
pub struct SlicesIterator {
    pub start: usize,
    pub length: usize,
    pub place: usize,
}

/// A run of ones: the position of the first one in the mask, and how many they are. Not a `Span`, whose start is a bit of the bytes.
#[derive(Clone, Copy, PartialEq, Eq, Debug)]
pub struct Run {
    pub start: usize,
    pub length: usize,
}

// Returns whether a byte is all ones, is entered at its first bit, and lies inside the span, of which `left` flags are left. By nested
// tests, which are faster than `&&` (PROVING, `is_full_byte`).
fn is_full_byte(byte: u8, bit: usize, left: usize) -> bool
    ensures { result ≡ (eqb bit 0 && (eqb byte 255 && leb 8 left)) }
{
    if bit == 0 {
        if byte == 255 { left >= 8 } else { false }
    } else {
        false
    }
}

// Returns the first run of ones at or after `place`; with no ones left an empty run at the length. Reads byte by byte and, inside a byte,
// bit by bit; at the end of the run it leaves both loops. Passes over a byte of ones at once; a zero before the run moves the start on.
// The two loops have the form of the Rust's run walker (ARCHITECTURE, Forms of the code).
fn run_from(span: CheckedSpan, place: usize) -> Run
    requires { place ≤ span.length }
    ensures { result ≡
        first_run (stretch span.entry.bytes.now span.entry.start span.entry.length) place }
{
    let mut first = place;
    let mut at = place;
    'bytes: loop {
        if at >= span.length {
            let ones = at - first;
            break 'bytes Run {
                start: first,
                length: ones,
            };
        }
        let flag = span.start + at;
        let byte = span.bytes[flag / 8];
        let mut bit = flag % 8;
        let left = span.length - at;
        if is_full_byte(byte, bit, left) {
            at += 8;
            continue 'bytes;
        }
        let stop = (bit + left).min(8);
        while bit < stop {
            if (byte >> bit) % 2 == 0 {
                let ones = at - first;
                if ones > 0 {
                    break 'bytes Run {
                        start: first,
                        length: ones,
                    };
                }
                first = at + 1;
            }
            bit += 1;
            at += 1;
        }
    }
}

impl SlicesIterator {
    /// Returns a cursor at the first flag of a mask.
    pub fn new(mask: Bitmap, bytes: &[u8]) -> Result<SlicesIterator, Refusal>
        ensures refused { failure_of result ≡ first_failed (mask_checks mask bytes.now) }
        ensures cursor { IfOk result (λ c. c ≡ slices_at mask.start mask.length 0) }
    {
        check_mask(mask, bytes)?;
        Ok(SlicesIterator {
            start: mask.start,
            length: mask.length,
            place: 0,
        })
    }

    /// Returns the next run of ones, and the cursor past it; with no ones left no run, and the cursor at the length. If the cursor is
    /// inside a run, the run starts at the cursor. Passes over the zeros before a run by words.
    pub fn next(self, bytes: &[u8]) -> Result<Step<Run, SlicesIterator>, Refused<SlicesIterator>>
        ensures refused { failure_back result ≡ first_failed (run_checks self bytes.now) }
        ensures step { IfOk result (λ s. step_of s.item s.cursor ≡
            slice_step self (stretch bytes.now self.start self.length)) }
        ensures state { IfErr result (λ e. e.state ≡ self) }
    {
        check_cursor(self.start, self.length, self.place, bytes.len()).map_err(|r| r.with(self))?;
        let near = self.place + zeros_from(bytes, self.start, self.length, self.place);
        let span = CheckedSpan {
            bytes,
            start: self.start,
            length: self.length,
        };
        let run = run_from(span, near);
        if run.length == 0 {
            return Ok(Step {
                item: None,
                cursor: self.moved(self.length),
            });
        }
        let past = run.start + run.length;
        Ok(Step {
            item: Some(run),
            cursor: self.moved(past),
        })
    }

    // Returns the cursor moved to `place`.
    fn moved(self, place: usize) -> Self
        ensures { result ≡ slices_moved self place }
    {
        SlicesIterator { place, ..self }
    }
}
