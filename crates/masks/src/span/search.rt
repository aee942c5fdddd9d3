//! Windows of 32 flags of a span, and searches for the n-th set flag by such windows.
ghost use Rattle.std.specs.Prelude.{◌≡◌, ◌+◌, ◌*◌, ◌≤◌, ◌<◌, length as list_length};
ghost use Rattle.words.specs.Flags.{bits, count, word_of};
ghost use Rattle.words.specs.Loops.{stretch};
ghost use Rattle.words.specs.Nth.{nth_one, nth_place};
ghost use Rattle.masks.specs.Bitmask.{window_word};
ghost use Rattle.masks.specs.Search.{nth_from, nth_back};
ghost use Rattle.masks.specs.Workers.{PassedFrom, PassedBack};

use crate::span::CheckedSpan;
use words::nth::nth_set_bit_u32;
use words::word::{load_padded_le_u64, low_flags, near_word, shr_or_zero};

// Loads the 32 flags starting at flag 8 * at + k. The eight bytes are in range, so there is one load and no test. The conversions of this
// module are `as`: `usize` has no `From` of a u32 and a u32 none of a u64, and each number is proved to fit.
fn word_window(bytes: &[u8], at: usize, k: usize) -> u32
    requires { (at + 8 ≤ list_length bytes.now) × (k ≤ 32) }
    ensures { result ≡ word_of (stretch bytes.now (8 * at + k) 32) }
{
    let end = at + 8;
    low_flags(shr_or_zero(load_padded_le_u64(&bytes[at..end]), k), 32) as u32
}

// The place that a search has reached, and how many set flags it has yet to pass over.
#[derive(Clone, Copy)]
struct Passed {
    at: usize,
    left: usize,
}

impl CheckedSpan<'_> {
    // Returns the 32 flags starting at `index`, with zeros past the end of the span. One load.
    pub(crate) fn window(self, index: usize) -> u32
        ensures { result ≡
            window_word self.entry.bytes.now self.entry.start self.entry.length index }
    {
        if index >= self.length {
            return 0;
        }
        let k = (self.length - index).min(32);
        low_flags(near_word(self.bytes, self.start + index), k) as u32
    }

    // Returns the span of the flags below `end`.
    pub(crate) fn front(self, end: usize) -> Self
        requires { end ≤ self.length }
        ensures { (result.bytes.now ≡ self.entry.bytes.now)
            × ((result.start ≡ self.entry.start) × (result.length ≡ end)) }
    {
        CheckedSpan {
            bytes: self.bytes,
            start: self.start,
            length: end,
        }
    }

    // Passes over the windows that have too few set flags, up to one with enough of them or to the last 63 flags. A window before these has
    // eight bytes starting at its first byte, so that an iteration is one load and one count. A `while`, since the result is `at` after the
    // loop, which the variable of a `for` does not reach.
    fn pass_windows(self, n: usize, from: usize) -> Passed
        requires { from < self.length }
        ensures { PassedFrom self.entry.bytes.now self.entry.start self.entry.length n from
            result.left result.at }
    {
        let inner = self.length.saturating_sub(63);
        let mut left = n;
        let mut at = from;
        while at < inner {
            let bit = self.start + at;
            let ones = ones_in_window(word_window(self.bytes, bit / 8, bit % 8));
            if left < ones {
                return Passed { at, left };
            }
            left -= ones;
            at += 32;
        }
        Passed { at, left }
    }

    // Returns the position of the n-th set flag at or after `from`, or none. Where `pass_windows` stops, the flag is in that window or in
    // the one after it, so two windows are read and no loop is needed.
    pub(crate) fn nth_from(self, n: usize, from: usize) -> Option<usize>
        ensures { result ≡
            nth_from (stretch self.entry.bytes.now self.entry.start self.entry.length) n from }
    {
        if from >= self.length {
            return None;
        }
        let passed = self.pass_windows(n, from);
        let at = passed.at;
        let left = passed.left;
        let seen = nth_in_window(self.window(at), left);
        match seen {
            Ok(i) => {
                let position = at + i;
                Some(position)
            }
            Err(ones) => {
                let rest = left - ones;
                let next = at + 32;
                self.search_last(rest, next)
            }
        }
    }

    // Returns the position of the n-th set flag in the last window of the span, or none. Here the window's answer is the place; backward
    // (`search_first`) the number counts from the other end.
    fn search_last(self, n: usize, from: usize) -> Option<usize>
        requires { (from ≤ self.length + 32) × (self.length ≤ from + 32) }
        ensures { result ≡
            nth_from (stretch self.entry.bytes.now self.entry.start self.entry.length) n from }
    {
        nth_in_window(self.window(from), n).ok().map(|i| from + i)
    }

    // Passes over the windows that have too few set flags, down from `end`, to one with enough of them or to the first 63 flags. A window
    // above these is taken from the eight bytes that end with its last byte: it begins 25 to 32 flags after their first. This and
    // `pass_windows` share no text but the test of `left`: the bounds, the byte that is read and the place of the flag (`place_in_window`
    // of a number from below, `nth_in_window`) differ in each line.
    fn pass_back(self, n: usize, end: usize) -> Passed
        requires { end ≤ self.length }
        ensures { PassedBack self.entry.bytes.now self.entry.start self.entry.length n end
            result.left result.at }
    {
        let mut left = n;
        let mut below = end;
        while below >= 64 {
            let bit = self.start + below + 7;
            let ones = ones_in_window(word_window(self.bytes, bit / 8 - 8, 25 + bit % 8));
            if left < ones {
                return Passed { at: below, left };
            }
            left -= ones;
            below -= 32;
        }
        Passed { at: below, left }
    }

    // Returns the position of the n-th set flag below `end`, counting down, or none. The window below `below` has zeros above its end.
    pub(crate) fn nth_back(self, n: usize, end: usize) -> Option<usize>
        requires { end ≤ self.length }
        ensures { result ≡
            nth_back (stretch self.entry.bytes.now self.entry.start self.entry.length) n end }
    {
        let passed = self.pass_back(n, end);
        let below = passed.at;
        let left = passed.left;
        let at = below.saturating_sub(32);
        let w = self.front(below).window(at);
        let ones = ones_in_window(w);
        if left < ones {
            let number = ones - 1 - left;
            let position = at + place_in_window(w, number);
            return Some(position);
        }
        let rest = left - ones;
        self.search_first(rest, at)
    }

    // Returns the position of the n-th set flag below `end`, counting down, in the first window of the span, or none.
    fn search_first(self, n: usize, end: usize) -> Option<usize>
        requires { (end ≤ self.length) × (end ≤ 32) }
        ensures { result ≡
            nth_back (stretch self.entry.bytes.now self.entry.start self.entry.length) n end }
    {
        let w = self.front(end).window(0);
        let ones = ones_in_window(w);
        if n < ones {
            let number = ones - 1 - n;
            let position = place_in_window(w, number);
            return Some(position);
        }
        None
    }
}

// Returns the position of set flag n of a window, or how many are set if at most n are. A rule of the project: that number is taken from
// the answer of `nth_set_bit_u32`, so that a wrong one shows in the searches (tests/copies/missing_carries_zero.edit). No window of 32
// flags has a set flag number 32.
fn nth_in_window(w: u32, n: usize) -> Result<usize, usize>
    ensures { result ≡ nth_one (bits 32 w) n }
{
    let number = n.min(32);
    nth_set_bit_u32(w, number as u32)
        .map(|i| i as usize)
        .map_err(|ones| ones as usize)
}

// Counts the set flags of a window: the answer to a search for set flag 32, which no window has. Its body is that of `place_in_window`,
// whose promise does not meet this one: one for both would promise by cases what each call needs.
fn ones_in_window(w: u32) -> usize
    ensures { result ≡ count (bits 32 w) }
{
    nth_in_window(w, 32).unwrap_or_else(|ones| ones)
}

fn place_in_window(w: u32, n: usize) -> usize
    requires { n < count (bits 32 w) }
    ensures { result ≡ nth_place (bits 32 w) n }
{
    nth_in_window(w, n).unwrap_or_else(|ones| ones)
}
