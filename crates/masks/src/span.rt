//! Spans that have passed their checks: words of their flags, counts over them, and how many flags in a row are equal.
ghost use Rattle.std.specs.Prelude.{false, ◌≡◌, ◌+◌, ◌-◌, ◌*◌, ◌≤◌, length as list_length, IfOk};
ghost use Rattle.words.specs.Flags.{word_flags, word_of};
ghost use Rattle.words.specs.Loops.{stretch};
ghost use Rattle.masks.specs.Checks.{first_failed, limit, span_checks};
ghost use Rattle.masks.specs.Iterator.{leading_from};
ghost use Rattle.masks.specs.Compare.{edges};
ghost use Rattle.masks.specs.Refusal.{failure_of};
ghost use Rattle.masks.specs.Utils.{zeros};

mod search;

use crate::checks::check_span;
use crate::refusal::Refusal;
use crate::utils::zeros_at;
use words::counts::count_ones_of;
use words::ends::leading_in_word;
use words::flags::Operand;
use words::merge::merge_reversed;
use words::ops::Op;
use words::word::{byte_word, low_flags, near_word, word_from};

// A span of lent bytes that has passed checks 1 and 2, or a piece of such a span.
#[derive(Clone, Copy)]
pub(crate) struct CheckedSpan<'a> {
    pub bytes: &'a [u8],
    pub start: usize,
    pub length: usize,
    ghost ends: { start + length ≤ 2 * limit },
    ghost short: { length ≤ limit },
    ghost inside: { start + length ≤ 8 * list_length bytes.now },
}

impl CheckedSpan<'_> {
    // Makes checks 1 and 2 and returns the span.
    pub(crate) fn new(bytes: &[u8], start: usize, length: usize) -> Result<CheckedSpan<'_>, Refusal>
        ensures refused { failure_of result ≡ first_failed
            (span_checks start length (list_length bytes.now)) }
        ensures span { IfOk result (λ s.
            (s.bytes.now ≡ bytes.now) × ((s.start ≡ start) × (s.length ≡ length))) }
    {
        check_span(start, length, bytes.len())?;
        Ok(CheckedSpan {
            bytes,
            start,
            length,
        })
    }

    // Reads the 64 flags starting at flag 64 * k, all in range. Merges two words if the start is inside a byte. Not by `word_from`, which
    // promises the same and is slower here (PROVING, `CheckedSpan::word`).
    pub(crate) fn word(self, k: usize) -> u64
        requires { 64 * k + 64 ≤ self.length }
        ensures { word_flags result ≡ stretch self.entry.bytes.now (self.entry.start + 64 * k) 64 }
    {
        let at = self.start / 8 + 8 * k;
        let offset = self.start % 8;
        if offset == 0 {
            return byte_word(self.bytes, at);
        }
        merge_reversed(
            byte_word(self.bytes, at),
            byte_word(self.bytes, at + 8),
            offset,
        )
    }

    // Counts the zeros of the span.
    pub(crate) fn zeros(&self) -> usize
        ensures { result ≡ zeros (stretch self.now.bytes.now self.now.start self.now.length) }
    {
        zeros_at(self.bytes, self.start, self.length, 0)
    }

    // Counts the zeros before and after the slice of n flags starting at `offset`.
    pub(crate) fn cut_zeros(&self, offset: usize, n: usize) -> usize
        requires { offset + n ≤ self.now.length }
        ensures { result ≡ zeros (stretch self.now.bytes.now self.now.start offset)
            + zeros (stretch self.now.bytes.now (self.now.start + offset + n) (self.now.length - (offset + n))) }
    {
        let end = offset + n;
        let before = self.front(offset);
        let after = CheckedSpan {
            bytes: self.bytes,
            start: self.start + offset + n,
            length: self.length - end,
        };
        before.zeros() + after.zeros()
    }

    // Counts the edges: the ones of the flags xor the flags shifted by one.
    pub(crate) fn edges(&self) -> usize
        ensures { result ≡ edges (stretch self.now.bytes.now self.now.start self.now.length) }
    {
        if self.length <= 1 {
            return 0;
        }
        let own = Operand {
            bytes: self.bytes,
            start: self.start,
        };
        let next = Operand {
            bytes: self.bytes,
            start: self.start + 1,
        };
        count_ones_of(Op::Xor, &own, &next, &next, self.length - 1)
    }
}

// Reads k flags, at most 64, starting at `bit`, as a word.
pub(crate) fn flags_word(bytes: &[u8], bit: usize, k: usize) -> u64
    requires { k ≤ 64 }
    ensures { result ≡ word_of (stretch bytes.now bit k) }
{
    low_flags(word_from(bytes, bit), k)
}

// Counts the flags in a row, starting at `place`, that equal `flag`. Reads the first word here, since the run is usually short. This,
// `zeros_from` and `leading_by_words` take a span as three arguments, in registers: a `CheckedSpan` is passed through memory to a function
// that is not inlined (PROVING, `leading_from`).
pub(crate) fn leading_from(
    flag: bool,
    bytes: &[u8],
    start: usize,
    length: usize,
    place: usize,
) -> usize
    requires { (start ≤ limit) × ((length ≤ limit) × (place ≤ length)) }
    ensures { result ≡ leading_from flag (stretch bytes.now start length) place }
{
    let k = (length - place).min(64);
    let same = leading_in_word(flag, word_from(bytes, start + place), k);
    if same < k {
        return same;
    }
    leading_by_words(flag, bytes, start, length, place)
}

// Counts the zeros in a row, starting at `place`, for cursors that look for a one. One load usually finds it; `leading_from` does the rest,
// so that this is small enough to be inlined.
pub(crate) fn zeros_from(bytes: &[u8], start: usize, length: usize, place: usize) -> usize
    requires { (start ≤ limit) × ((length ≤ limit) × (place ≤ length)) }
    ensures { result ≡ leading_from false (stretch bytes.now start length) place }
{
    let left = length - place;
    let k = left.min(57);
    let same = leading_in_word(false, near_word(bytes, start + place), k);
    if same < k {
        return same;
    }
    if left <= 57 {
        return left;
    }
    leading_from(false, bytes, start, length, place)
}

// Counts the flags in a row, starting at `place`, that equal `flag`: word by word, up to the first word with another flag. A range of
// places: there is no slice of words.
fn leading_by_words(flag: bool, bytes: &[u8], start: usize, length: usize, place: usize) -> usize
    requires { (start ≤ limit) × ((length ≤ limit) × (place ≤ length)) }
    ensures { result ≡ leading_from flag (stretch bytes.now start length) place }
{
    for at in (place..length).step_by(64) {
        let k = (length - at).min(64);
        let same = leading_in_word(flag, word_from(bytes, start + at), k);
        if same < k {
            return at - place + same;
        }
    }
    length - place
}
