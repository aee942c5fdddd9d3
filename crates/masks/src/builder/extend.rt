//! Long extensions of a builder: up to a full word, then whole words written straight to the buffer, then the rest. The workers require
//! `Room`, a fact about the builder, the number of flags to append and the buffer. It is no field of a struct, since that number is another
//! one at each call; a builder and its buffer stay two parameters, as the reference lends them.
ghost use Rattle.std.specs.Prelude.{true, ◌&&◌, ◌≡◌, ◌+◌, ◌*◌, ◌%◌, ◌≤◌, ◌<◌, leb, ltb, length, IfOk, IfErr, OnErr};
ghost use Rattle.words.specs.Flags.{copies, window};
ghost use Rattle.words.specs.Loops.{stretch};
ghost use Rattle.masks.specs.Appends.{constant_checks, span_grow_checks, subslice_checks};
ghost use Rattle.masks.specs.Builder.{filling, appended};
ghost use Rattle.masks.specs.Checks.{first_failed};
ghost use Rattle.masks.specs.Mask.{mask_flags};
ghost use Rattle.masks.specs.Refusal.{failure_back};
ghost use Rattle.masks.specs.Workers.{Room};

use crate::bitmap::Bitmap;
use crate::builder::{BitmapBuilder, close_word, push_flags, push_inside, rebuilt};
use crate::checks::{check_builder, check_inner, check_limit, check_mask, check_span_grow};
use crate::refusal::{Refused, earlier};
use crate::span::CheckedSpan;
use words::counts::{copy_count, none_from};
use words::loops::fill_whole;
use words::word::{constant_flags, constant_word, low_flags, near_word, word_from};

// The flag limit in whole words.
const LIMIT_WORDS: usize = Bitmap::LIMIT / 64;

impl BitmapBuilder {
    /// Appends n copies of a flag.
    #[tactic(auto, using(crate::proofs::checks::CheckLaws::two_pieces), unfolding(crate::specs::Appends::constant_checks))]
    pub fn extend_constant(
        self,
        buf: &mut [u8],
        n: usize,
        flag: bool,
    ) -> Result<BitmapBuilder, Refused<BitmapBuilder>>
        ensures refused { failure_back result ≡ first_failed
            (constant_checks self (length buf.old) n) }
        ensures appended { IfOk result (λ b. filling b buf.new ≡
            appended (filling self buf.old) (copies n flag)) }
        ensures unchanged { OnErr result (buf.new ≡ buf.old) }
        ensures state { IfErr result (λ e. e.state ≡ self) }
    {
        if fast_append_ok(self, n, buf.len()) {
            return Ok(push_inside(self, constant_flags(flag, n), n));
        }
        earlier(check_builder(self, n, buf.len()), check_limit(n)).map_err(|r| r.with(self))?;
        Ok(append_copies(self, buf, n, flag))
    }

    /// Appends the n flags of `bytes` starting at `start`. Refuses with 2 if they end past the bytes.
    #[tactic(auto, unfolding(crate::specs::Appends::span_grow_checks))]
    pub fn extend_from_slice(
        self,
        buf: &mut [u8],
        bytes: &[u8],
        start: usize,
        n: usize,
    ) -> Result<BitmapBuilder, Refused<BitmapBuilder>>
        ensures refused { failure_back result ≡ first_failed
            (span_grow_checks self buf.old bytes.now start n n) }
        ensures appended { IfOk result (λ b. filling b buf.new ≡
            appended (filling self buf.old) (stretch bytes.now start n)) }
        ensures unchanged { OnErr result (buf.new ≡ buf.old) }
        ensures state { IfErr result (λ e. e.state ≡ self) }
    {
        check_span_grow(start, n, bytes.len(), self, buf.len()).map_err(|r| r.with(self))?;
        if one_load_fits(self, n) {
            return Ok(push_inside(self, low_flags(near_word(bytes, start), n), n));
        }
        let span = CheckedSpan {
            bytes,
            start,
            length: n,
        };
        Ok(append_stretch(self, buf, &span))
    }

    /// Appends the n flags of a mask starting at `start`. Refuses with 6 if they do not all lie in the mask.
    #[tactic(auto, using(crate::proofs::checks::CheckLaws::two_pieces), unfolding(crate::specs::Appends::subslice_checks))]
    pub fn subslice_extend_from_bitmap(
        self,
        buf: &mut [u8],
        mask: Bitmap,
        bytes: &[u8],
        start: usize,
        n: usize,
    ) -> Result<BitmapBuilder, Refused<BitmapBuilder>>
        ensures refused { failure_back result ≡ first_failed
            (subslice_checks self buf.old mask bytes.now start n) }
        ensures appended { IfOk result (λ b. filling b buf.new ≡
            appended (filling self buf.old) (window (mask_flags mask bytes.now) start n)) }
        ensures unchanged { OnErr result (buf.new ≡ buf.old) }
        ensures state { IfErr result (λ e. e.state ≡ self) }
    {
        earlier(
            check_mask(mask, bytes),
            earlier(
                check_inner(start, n, mask.length),
                check_builder(self, n, buf.len()),
            ),
        )
        .map_err(|r| r.with(self))?;
        let span = CheckedSpan {
            bytes,
            start: mask.start + start,
            length: n,
        };
        Ok(append_stretch(self, buf, &span))
    }
}

// Returns true only if no check fails and the word in progress has room for n flags, as in most calls: these make no further check.
fn fast_append_ok(b: BitmapBuilder, n: usize, size: usize) -> bool
    ensures { result ≡ true → (b.length % 64 + n < 64) × Room b n size }
{
    let fill = b.length % 64;
    n <= 63 - fill
        && none_from(b.word, fill)
        && b.ones <= 64 * (b.length / 64)
        && b.length / 64 < (size / 8).min(LIMIT_WORDS)
}

// Returns whether n flags can be read by one load and fit in the word in progress.
fn one_load_fits(b: BitmapBuilder, n: usize) -> bool
    ensures { result ≡ (leb n 57 && ltb (b.length % 64 + n) 64) }
{
    n <= 57 && b.length % 64 + n < 64
}

// Returns how many flags complete the word in progress.
fn to_whole(b: BitmapBuilder) -> usize
    ensures { (result ≤ 63) × ((b.length + result) % 64 ≡ 0) }
{
    (64 - b.length % 64) % 64
}

// Appends n copies of a flag: into the word in progress, or up to its end, then whole words, then the rest.
pub(crate) fn append_copies(b: BitmapBuilder, buf: &mut [u8], n: usize, flag: bool) -> BitmapBuilder
    requires { Room b n (length buf.old) }
    ensures { filling result buf.new ≡ appended (filling b buf.old) (copies n flag) }
{
    let fill = b.length % 64;
    if fill + n < 64 {
        return push_inside(b, constant_flags(flag, n), n);
    }
    let left = n - (64 - fill);
    let rest = left % 64;
    let started = close_word(b, buf, constant_word(flag));
    let filled = fill_words(started, buf, left / 64, flag);
    push_inside(filled, constant_flags(flag, rest), rest)
}

// Appends `whole` words of one flag to a builder that has no word in progress. Place and record are as in `copy_words`: here the ones are
// known before the words are written, there the copy counts them.
fn fill_words(b: BitmapBuilder, buf: &mut [u8], whole: usize, flag: bool) -> BitmapBuilder
    requires { (b.length % 64 ≡ 0) × Room b (64 * whole) (length buf.old) }
    ensures { filling result buf.new ≡ appended (filling b buf.old) (copies (64 * whole) flag) }
{
    let n = 64 * whole;
    let longer = b.length + n;
    let ones = b.ones + n * usize::from(flag);
    let at = 8 * (b.length / 64);
    fill_whole(flag, whole, &mut buf[at..]);
    rebuilt(b, longer, 0, ones)
}

// Appends flags of a span: up to a full word, whole words, and a last word, which is read on its own so that each word of the loop has a
// byte after it. Compiled into its callers, which short spans notice (PROVING, `append_stretch`).
#[inline(always)]
pub(crate) fn append_stretch(b: BitmapBuilder, buf: &mut [u8], span: &CheckedSpan) -> BitmapBuilder
    requires { Room b span.now.length (length buf.old) }
    ensures { filling result buf.new ≡ appended (filling b buf.old)
        (stretch span.now.bytes.now span.now.start span.now.length) }
{
    let CheckedSpan {
        bytes,
        start,
        length: n,
    } = *span;
    let first = word_from(bytes, start);
    if n <= 64 {
        return push_flags(b, buf, first, n);
    }
    let head = to_whole(b);
    let left = n - head;
    let whole = (left - 1) / 64;
    let rest = left - 64 * whole;
    let started = push_flags(b, buf, first, head);
    let copied = copy_words(started, buf, bytes, start + head, whole);
    let last = word_from(bytes, start + n - rest);
    push_flags(copied, buf, last, rest)
}

// Appends `whole` words of flags of `bytes`, starting at flag `start`, to a builder that has no word in progress. The copy counts the ones.
fn copy_words(
    b: BitmapBuilder,
    buf: &mut [u8],
    bytes: &[u8],
    start: usize,
    whole: usize,
) -> BitmapBuilder
    requires { (b.length % 64 ≡ 0) × Room b (64 * whole) (length buf.old) }
    ensures { filling result buf.new ≡
        appended (filling b buf.old) (stretch bytes.now start (64 * whole)) }
{
    let n = 64 * whole;
    let longer = b.length + n;
    let at = 8 * (b.length / 64);
    let ones = b.ones + copy_count(bytes, start, n, &mut buf[at..]);
    rebuilt(b, longer, 0, ones)
}
