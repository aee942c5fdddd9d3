//! The three parts of a span, and how many flags in a row are equal at either end of it.
ghost use Rattle.std.specs.Prelude.{◌≡◌, ℕ, Bool, List, ◌++◌, ◌+◌, ◌/◌, ◌≤◌, ◌<◌, length, take};
ghost use Rattle.std.proofs.Common.{sym, ap, ◌∙◌, append_assoc};
ghost use Rattle.words.specs.Ends.{leading, trailing};
ghost use Rattle.words.specs.Flags.{count, word_flags};
ghost use Rattle.words.proofs.ends.EndLaws.{leading_le, leading-some, leading-all, trailing_le, trailing-some, trailing-all};
ghost use Rattle.masks.specs.Aligned.{aligned_split};
ghost use Rattle.masks.specs.Checks.{limit};
ghost use Rattle.masks.specs.Workers.{bulk_flags, prefix_flags, split_flags, suffix_flags, parts-in-row};
ghost use Rattle.masks.specs.declared.aligned.AlignedBitmapSlice.{AlignedBitmapSlice};

use crate::aligned::{AddressedSpan, AlignedBitmapSlice};
use words::counts::count_ones;
use words::ends::{leading_in_word, trailing_in_word};
use words::word::{low_flags, ones_in_word, word_from};

// The three parts of a span's split, over its bytes.
#[derive(Clone, Copy)]
pub(crate) struct SplitSpan<'a> {
    bytes: &'a [u8],
    parts: AlignedBitmapSlice,
    ghost prefix_fits: { parts.prefix_len ≤ 64 },
    ghost suffix_fits: { parts.suffix_len ≤ 64 },
    ghost bulk_starts: { parts.bulk_start ≤ limit },
    ghost bulk_fits: { parts.bulk_len ≤ limit / 64 },
}

impl<'a> SplitSpan<'a> {
    // Splits a span.
    pub(crate) fn new(span: &AddressedSpan<'a>) -> Self
        ensures bytes { result.bytes.now ≡ span.now.bytes.now }
        ensures parts { result.parts ≡
            aligned_split span.now.bytes.now span.now.start span.now.length span.now.address }
    {
        SplitSpan {
            bytes: span.bytes,
            parts: span.split(),
        }
    }

    // Counts the ones in the three parts.
    pub(crate) fn ones(&self) -> usize
        ensures { result ≡ count (split_flags self.now.bytes.now self.now.parts) }
    {
        let s = self.parts;
        let first = ones_in_word(low_flags(s.prefix, s.prefix_len));
        let middle = count_ones(self.bytes, 8 * s.bulk_start, 64 * s.bulk_len);
        let last = ones_in_word(low_flags(s.suffix, s.suffix_len));
        first + middle + last
    }

    // Counts the flags in a row at an end that equal `flag`: part by part, up to the first with another flag.
    pub(crate) fn run<E: End>(&self, flag: bool) -> usize
        ensures { result ≡ E.run flag (split_flags self.now.bytes.now self.now.parts) }
    {
        let (word, k) = E::near(self);
        let first = E::in_word(flag, word, k);
        if first < k {
            return first;
        }
        let bulk = 64 * self.parts.bulk_len;
        let middle = E::in_bulk(flag, self);
        if middle < bulk {
            return k + middle;
        }
        let (other, j) = E::far(self);
        k + bulk + E::in_word(flag, other, j)
    }
}

// An end of a span, and how the flags in a row at it that equal a flag are counted.
pub(crate) trait End {
    // The number of flags x in a row at this end.
    ghost run: { Bool → List Bool → ℕ };

    // Three parts in a row, the one at this end first.
    ghost row: { List Bool → List Bool → List Bool → List Bool };

    // The flags of a split's word at this end, and of its word at the other.
    ghost near_flags: { AlignedBitmapSlice → List Bool };

    ghost far_flags: { AlignedBitmapSlice → List Bool };

    // Counts the flags in a row that equal `flag`, at this end of the first k flags of a word.
    fn in_word(flag: bool, word: u64, k: usize) -> usize
        ensures { result ≡ run flag (take k (word_flags word)) };

    // Counts the flags in a row that equal `flag`, at this end of the whole words of a split.
    fn in_bulk(flag: bool, split: &SplitSpan) -> usize
        ensures { result ≡ run flag (bulk_flags split.now.bytes.now split.now.parts) };

    // Returns a split's word at this end, and how many flags of it are the span's.
    fn near(split: &SplitSpan) -> (u64, usize)
        ensures { (result.1 ≤ 64)
            × (take result.1 (word_flags result.0) ≡ near_flags split.now.parts) };

    // Returns a split's word at the other end, and how many flags of it are the span's.
    fn far(split: &SplitSpan) -> (u64, usize)
        ensures { (result.1 ≤ 64)
            × (take result.1 (word_flags result.0) ≡ far_flags split.now.parts) };

    ghost in_row: { (bytes : List ℕ) (s : AlignedBitmapSlice)
        → split_flags bytes s ≡ row (near_flags s) (bulk_flags bytes s) (far_flags s) };

    // A part with another flag ends the run; one without is counted with what follows it.
    ghost at_first: { (x : Bool) (A B C : List Bool) → run x A < length A → run x (row A B C) ≡ run x A };

    ghost at_second: { (x : Bool) (A B C : List Bool) → length A ≤ run x A → run x B < length B
        → run x (row A B C) ≡ length A + run x B };

    ghost at_third: { (x : Bool) (A B C : List Bool) → length A ≤ run x A → length B ≤ run x B
        → run x (row A B C) ≡ length A + (length B + run x C) };

    ghost at_most: { (x : Bool) (A : List Bool) → run x A ≤ length A };
}

pub(crate) struct Front {}

pub(crate) struct Back {}

impl End for Front {
    ghost run = { leading };

    ghost row = { λ A B C. A ++ (B ++ C) };

    ghost near_flags = { prefix_flags };

    ghost far_flags = { suffix_flags };

    fn in_word(flag: bool, word: u64, k: usize) -> usize {
        leading_in_word(flag, word, k)
    }

    fn in_bulk(flag: bool, split: &SplitSpan) -> usize {
        let n = split.parts.bulk_len;
        // a range: a span may reach past the bytes, where its flags are zero, so there is no slice of its words. Not by `leading_by_words`
        // of `span`, which has the same loop and is slower here (PROVING, `in_bulk`).
        for i in 0..n {
            let bit = 8 * split.parts.bulk_start + 64 * i;
            let alike = leading_in_word(flag, word_from(split.bytes, bit), 64);
            if alike < 64 {
                return 64 * i + alike;
            }
        }
        64 * n
    }

    fn near(split: &SplitSpan) -> (u64, usize) {
        (split.parts.prefix, split.parts.prefix_len)
    }

    fn far(split: &SplitSpan) -> (u64, usize) {
        (split.parts.suffix, split.parts.suffix_len)
    }

    ghost in_row = { parts-in-row };

    ghost at_first = { λ x A B C h. leading-some x A (B ++ C) h };

    ghost at_second = { λ x A B C h k. leading-all x A (B ++ C) h ∙ ap (λ n. length A + n) (leading-some x B C k) };

    ghost at_third = { λ x A B C h k. leading-all x A (B ++ C) h ∙ ap (λ n. length A + n) (leading-all x B C k) };

    ghost at_most = { leading_le };
}

impl End for Back {
    ghost run = { trailing };

    ghost row = { λ A B C. C ++ (B ++ A) };

    ghost near_flags = { suffix_flags };

    ghost far_flags = { prefix_flags };

    fn in_word(flag: bool, word: u64, k: usize) -> usize {
        trailing_in_word(flag, word, k)
    }

    fn in_bulk(flag: bool, split: &SplitSpan) -> usize {
        let n = split.parts.bulk_len;
        // a range, since there is no slice of the words. One loop for both ends would need the place of word i from each end, and laws of
        // what lies before that word and after it: more than this loop.
        for i in (0..n).rev() {
            let bit = 8 * split.parts.bulk_start + 64 * i;
            let alike = trailing_in_word(flag, word_from(split.bytes, bit), 64);
            if alike < 64 {
                return 64 * (n - 1 - i) + alike;
            }
        }
        64 * n
    }

    fn near(split: &SplitSpan) -> (u64, usize) {
        (split.parts.suffix, split.parts.suffix_len)
    }

    fn far(split: &SplitSpan) -> (u64, usize) {
        (split.parts.prefix, split.parts.prefix_len)
    }

    ghost in_row = { parts-in-row };

    ghost at_first = { λ x A B C h. ap (trailing x) (sym (append_assoc C B A)) ∙ trailing-some x (C ++ B) A h };

    ghost at_second = { λ x A B C h k. ap (trailing x) (sym (append_assoc C B A)) ∙ trailing-all x (C ++ B) A h
        ∙ ap (λ n. length A + n) (trailing-some x C B k) };

    ghost at_third = { λ x A B C h k. ap (trailing x) (sym (append_assoc C B A)) ∙ trailing-all x (C ++ B) A h
        ∙ ap (λ n. length A + n) (trailing-all x C B k) };

    ghost at_most = { trailing_le };
}
