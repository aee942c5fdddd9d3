//! Flags of a span gathered by indices of 32 bits, a word at a time.
ghost use Rattle.std.specs.Prelude.{◌≡◌, false, ◌≤◌, length, take, get_or, IfOk, IfErr, OnErr};
ghost use Rattle.words.specs.Flags.{word_flags};
ghost use Rattle.words.specs.Loops.{stretch};
ghost use Rattle.masks.specs.Appends.{all_below, gather_checks, gathered, span_grow_checks};
ghost use Rattle.masks.specs.Builder.{filling, appended};
ghost use Rattle.masks.specs.Checks.{first_failed};
ghost use Rattle.masks.specs.Refusal.{failure_back};
ghost use Rattle.masks.specs.Workers.{Room};

use crate::builder::{BitmapBuilder, push_flags};
use crate::checks::{check_builder, check_span};
use crate::refusal::{Refusal, Refused, check, earlier};
use crate::span::CheckedSpan;
use words::word::{concat_low, constant_word, flag_at};

impl BitmapBuilder {
    /// Appends the flag at each index; refuses with 6 if an index is not below the length of the span. This and
    /// `opt_gather_extend_from_slice` are the Rust's names over `append_gathered`. They differ in the check of the indices, so one function
    /// for both would take a flag and promise by cases.
    pub fn gather_extend_from_slice(
        self,
        buf: &mut [u8],
        bytes: &[u8],
        start: usize,
        n: usize,
        idxs: &[u32],
    ) -> Result<BitmapBuilder, Refused<BitmapBuilder>>
        ensures refused { failure_back result ≡ first_failed
            (gather_checks self buf.old bytes.now start n idxs.now) }
        ensures appended { IfOk result (λ b. filling b buf.new ≡
            appended (filling self buf.old) (gathered (stretch bytes.now start n) idxs.now)) }
        ensures unchanged { OnErr result (buf.new ≡ buf.old) }
        ensures state { IfErr result (λ e. e.state ≡ self) }
    {
        earlier(
            earlier(
                check_span(start, n, bytes.len()),
                check_builder(self, idxs.len(), buf.len()),
            ),
            check(Refusal::OutsideMask, all_below(idxs, n)),
        )
        .map_err(|r| r.with(self))?;
        let span = CheckedSpan {
            bytes,
            start,
            length: n,
        };
        Ok(append_gathered(self, buf, &span, idxs))
    }

    /// Appends the flag at each index, or 0 if the index is not below the span's length.
    #[tactic(auto, using(crate::proofs::checks::CheckLaws::two_pieces), unfolding(crate::specs::Appends::span_grow_checks))]
    pub fn opt_gather_extend_from_slice(
        self,
        buf: &mut [u8],
        bytes: &[u8],
        start: usize,
        n: usize,
        idxs: &[u32],
    ) -> Result<BitmapBuilder, Refused<BitmapBuilder>>
        ensures refused { failure_back result ≡ first_failed
            (span_grow_checks self buf.old bytes.now start n (length idxs.now)) }
        ensures appended { IfOk result (λ b. filling b buf.new ≡
            appended (filling self buf.old) (gathered (stretch bytes.now start n) idxs.now)) }
        ensures unchanged { OnErr result (buf.new ≡ buf.old) }
        ensures state { IfErr result (λ e. e.state ≡ self) }
    {
        earlier(
            check_span(start, n, bytes.len()),
            check_builder(self, idxs.len(), buf.len()),
        )
        .map_err(|r| r.with(self))?;
        let span = CheckedSpan {
            bytes,
            start,
            length: n,
        };
        Ok(append_gathered(self, buf, &span, idxs))
    }
}

// Returns whether all indices are below n. `as`, here and below, since `usize` has no `From` of a u32.
fn all_below(idxs: &[u32], n: usize) -> bool
    ensures { result ≡ all_below n idxs.now }
{
    idxs.iter().all(|x| (*x as usize) < n)
}

// Returns the flag at an index of a span, or 0 if the index is not below its length.
fn span_flag(span: &CheckedSpan, at: usize) -> bool
    ensures { result ≡ get_or (stretch span.now.bytes.now span.now.start span.now.length) at false }
{
    at < span.length && flag_at(span.bytes, span.start + at)
}

// Gathers the flags at up to 64 indices into a word.
fn gather_word(span: &CheckedSpan, idxs: &[u32]) -> u64
    requires { length idxs.now ≤ 64 }
    ensures { take (length idxs.now) (word_flags result)
        ≡ gathered (stretch span.now.bytes.now span.now.start span.now.length) idxs.now }
{
    let mut w: u64 = 0;
    for (i, x) in idxs.iter().enumerate() {
        let flag = span_flag(span, *x as usize);
        w = concat_low(w, i, constant_word(flag));
    }
    w
}

// Appends the flag at each index of a span, a word at a time; 0 for an index that is not below its length.
fn append_gathered(
    b: BitmapBuilder,
    buf: &mut [u8],
    span: &CheckedSpan,
    idxs: &[u32],
) -> BitmapBuilder
    requires { Room b (length idxs.now) (length buf.old) }
    ensures { filling result buf.new ≡ appended (filling b buf.old)
        (gathered (stretch span.now.bytes.now span.now.start span.now.length) idxs.now) }
{
    let mut grown = b;
    for part in idxs.chunks(64) {
        let word = gather_word(span, part);
        grown = push_flags(grown, buf, word, part.len());
    }
    grown
}
