//! A span appended with each flag repeated.
ghost use Rattle.std.specs.Prelude.{◌≡◌, ◌*◌, length, IfOk, IfErr, OnErr};
ghost use Rattle.words.specs.Loops.{stretch};
ghost use Rattle.masks.specs.Refusal.{failure_of, failure_back};
ghost use Rattle.masks.specs.Appends.{grow_checks, repeated, span_grow_checks};
ghost use Rattle.masks.specs.Builder.{filling, appended};
ghost use Rattle.masks.specs.Checks.{first_failed};
ghost use Rattle.masks.specs.Workers.{Room};

use crate::builder::BitmapBuilder;
use crate::builder::extend::{append_copies, append_stretch};
use crate::checks::{check_builder, check_span};
use crate::refusal::{Refusal, Refused, earlier};
use crate::span::CheckedSpan;
use words::word::flag_at;

impl BitmapBuilder {
    /// Appends each flag of a span, `repeats` times in turn; 0 repeats append nothing.
    #[tactic(auto, using(crate::proofs::checks::CheckLaws::two_pieces), unfolding(crate::specs::Appends::span_grow_checks))]
    pub fn extend_each_repeated_from_slice_unchecked(
        self,
        buf: &mut [u8],
        bytes: &[u8],
        start: usize,
        n: usize,
        repeats: usize,
    ) -> Result<BitmapBuilder, Refused<BitmapBuilder>>
        ensures refused { failure_back result ≡ first_failed
            (span_grow_checks self buf.old bytes.now start n (n * repeats)) }
        ensures appended { IfOk result (λ b. filling b buf.new ≡
            appended (filling self buf.old) (repeated repeats (stretch bytes.now start n))) }
        ensures unchanged { OnErr result (buf.new ≡ buf.old) }
        ensures state { IfErr result (λ e. e.state ≡ self) }
    {
        earlier(
            check_span(start, n, bytes.len()),
            check_product(self, n, repeats, buf.len()),
        )
        .map_err(|r| r.with(self))?;
        let span = CheckedSpan {
            bytes,
            start,
            length: n,
        };
        Ok(append_repeated(self, buf, &span, repeats))
    }
}

// Makes the checks for appending n * repeats flags. A product that overflows is far above the flag limit.
fn check_product(b: BitmapBuilder, n: usize, repeats: usize, size: usize) -> Result<(), Refusal>
    ensures { failure_of result ≡ first_failed (grow_checks b (n * repeats) size) }
{
    check_builder(b, n.saturating_mul(repeats), size)
}

// Appends each flag of a span `repeats` times in turn.
fn append_repeated(
    b: BitmapBuilder,
    buf: &mut [u8],
    span: &CheckedSpan,
    repeats: usize,
) -> BitmapBuilder
    requires { Room b (span.now.length * repeats) (length buf.old) }
    ensures { filling result buf.new ≡ appended (filling b buf.old)
        (repeated repeats (stretch span.now.bytes.now span.now.start span.now.length)) }
{
    if repeats == 0 {
        return b;
    }
    if repeats == 1 {
        return append_stretch(b, buf, span);
    }
    append_runs(b, buf, span, repeats)
}

// Appends each flag `repeats` times, a run at a time. A range: flags are bits, and there is no slice of them.
fn append_runs(
    b: BitmapBuilder,
    buf: &mut [u8],
    span: &CheckedSpan,
    repeats: usize,
) -> BitmapBuilder
    requires { Room b (span.now.length * repeats) (length buf.old) }
    ensures { filling result buf.new ≡ appended (filling b buf.old)
        (repeated repeats (stretch span.now.bytes.now span.now.start span.now.length)) }
{
    let mut grown = b;
    for i in 0..span.length {
        let flag = flag_at(span.bytes, span.start + i);
        grown = append_copies(grown, buf, repeats, flag);
    }
    grown
}
