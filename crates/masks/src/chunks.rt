//! The words of a span that starts at any bit: a cursor that returns them one by one, and the flags after the last whole word.
ghost use Rattle.std.specs.Prelude.{◌≡◌, ◌+◌, ◌%◌, length as list_length, IfOk, IfErr};
ghost use Rattle.masks.specs.Checks.{first_failed, span_checks};
ghost use Rattle.masks.specs.Chunks.{chunk_checks, chunk_step, chunks_at, remainder_word};
ghost use Rattle.masks.specs.Cursor.{step_of};
ghost use Rattle.masks.specs.Refusal.{failure_back, failure_of};

use crate::checks::check_span;
use crate::cursor::{Step, check_cursor};
use crate::refusal::{Refusal, Refused};
use crate::span::{CheckedSpan, flags_word};

/// A cursor over the words of a span; its place counts words. The Rust's `BitChunks`, with the bytes lent to each call.
#[derive(Clone, Copy, PartialEq, Eq, Debug)]
pub struct BitChunks {
    pub start: usize,
    pub length: usize,
    pub place: usize,
}

/// The Rust's `BitChunksExact`, whose span starts at 0: the name of its constructor. It has no record of its own.
#[derive(Clone, Copy)]
pub struct BitChunksExact {}

impl BitChunks {
    /// Returns a cursor at the first word of a span.
    pub fn new(bytes: &[u8], start: usize, length: usize) -> Result<BitChunks, Refusal>
        ensures refused { failure_of result ≡ first_failed
            (span_checks start length (list_length bytes.now)) }
        ensures cursor { IfOk result (λ c. c ≡ chunks_at start length 0) }
    {
        check_span(start, length, bytes.len())?;
        Ok(BitChunks {
            start,
            length,
            place: 0,
        })
    }

    /// Returns the word at the cursor, and the cursor one word further; after the last whole word no word, and the cursor unmoved.
    pub fn next(self, bytes: &[u8]) -> Result<Step<u64, BitChunks>, Refused<BitChunks>>
        ensures refused { failure_back result ≡ first_failed (chunk_checks self bytes.now) }
        ensures step { IfOk result (λ s. step_of s.item s.cursor ≡ chunk_step bytes.now self) }
        ensures state { IfErr result (λ e. e.state ≡ self) }
    {
        check_cursor(self.start, self.length, self.place, bytes.len()).map_err(|r| r.with(self))?;
        if self.place >= self.length / 64 {
            return Ok(Step {
                item: None,
                cursor: self,
            });
        }
        let further = self.place + 1;
        let span = CheckedSpan {
            bytes,
            start: self.start,
            length: self.length,
        };
        let word = span.word(self.place);
        Ok(Step {
            item: Some(word),
            cursor: BitChunks {
                place: further,
                ..self
            },
        })
    }

    /// Returns the flags after the last whole word, as a word, and how many they are, wherever the cursor is.
    pub fn remainder(self, bytes: &[u8]) -> Result<(u64, usize), Refused<BitChunks>>
        ensures refused { failure_back result ≡ first_failed (chunk_checks self bytes.now) }
        ensures word { IfOk result (λ r. r.0 ≡ remainder_word bytes.now self.start self.length) }
        ensures number { IfOk result (λ r. r.1 ≡ self.length % 64) }
        ensures state { IfErr result (λ e. e.state ≡ self) }
    {
        check_cursor(self.start, self.length, self.place, bytes.len()).map_err(|r| r.with(self))?;
        let rest = self.length % 64;
        let first = self.start + self.length - rest;
        Ok((flags_word(bytes, first, rest), rest))
    }
}

impl BitChunksExact {
    /// Returns a cursor at the first word of the first `length` flags of `bytes`: a `BitChunks` of start 0.
    pub fn new(bytes: &[u8], length: usize) -> Result<BitChunks, Refusal>
        ensures refused { failure_of result ≡ first_failed
            (span_checks 0 length (list_length bytes.now)) }
        ensures cursor { IfOk result (λ c. c ≡ chunks_at 0 length 0) }
    {
        BitChunks::new(bytes, 0, length)
    }
}
