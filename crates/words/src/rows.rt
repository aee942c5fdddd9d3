//! The ones of whole words in range: few words one by one, many in seven rows side by side.
ghost use Rattle.std.specs.Prelude.{◌≡◌, ◌*◌, ◌+◌, ◌^◌, ◌≤◌, ◌<◌};
ghost use Rattle.words.specs.Flags.{word_flags, flags_of, count, window};

use crate::lanes::{ByteLane, Lane};
use crate::planes::full_add;
use crate::word::ones_in_word;

// Counts the ones of seven words, added flag by flag, so that three words are counted in place of seven.
fn seven_ones(a: u64, b: u64, c: u64, d: u64, e: u64, f: u64, g: u64) -> usize
    ensures { result ≡ count (word_flags a) + count (word_flags b) + count (word_flags c) + count (word_flags d)
        + count (word_flags e) + count (word_flags f) + count (word_flags g) }
{
    let x = full_add(a, b, c);
    let y = full_add(d, e, f);
    let z = full_add(x.low, y.low, g);
    let t = full_add(x.high, y.high, z.high);
    let ones = ones_in_word(z.low);
    let twos = ones_in_word(t.low);
    let fours = ones_in_word(t.high);
    ones + 2 * twos + 4 * fours
}

// Words in range, few enough that a `usize` holds the number of their flags.
#[derive(Clone, Copy)]
pub(crate) struct Countable<'a> {
    pub(crate) words: ByteLane<'a>,
    ghost few: { 64 * words.n < 2 ^ 64 },
}

impl Countable<'_> {
    // Counts the ones of the first 7 * m words, in seven rows side by side: each row is read in order, so the loop is vectorised.
    fn ones_rows(&self, m: usize) -> usize
        requires { 7 * m ≤ self.now.words.n }
        ensures { result ≡ count (window (flags_of self.now.words.bytes.now) (8 * self.now.words.at) (448 * m)) }
    {
        let words = &self.words;
        let mut ones: usize = 0;
        // a range: i is the place in seven rows, and there is no slice of words
        for i in 0..m {
            let a = words.word(i);
            let b = words.word(i + m);
            let c = words.word(i + 2 * m);
            let d = words.word(i + 3 * m);
            let e = words.word(i + 4 * m);
            let f = words.word(i + 5 * m);
            let g = words.word(i + 6 * m);
            ones += seven_ones(a, b, c, d, e, f, g);
        }
        ones
    }

    // Counts the ones of the words, one by one.
    pub(crate) fn ones_single(&self) -> usize
        ensures { result ≡ count (window (flags_of self.now.words.bytes.now) (8 * self.now.words.at) (64 * self.now.words.n)) }
    {
        let mut ones: usize = 0;
        // a range: see `ByteLane` for why its words are no slice
        for i in 0..self.words.n {
            ones += ones_in_word(self.words.word(i));
        }
        ones
    }

    // Counts the ones of many words: in seven rows, and what is left one by one.
    pub(crate) fn ones_many(&self) -> usize
        ensures { result ≡ count (window (flags_of self.now.words.bytes.now) (8 * self.now.words.at) (64 * self.now.words.n)) }
    {
        let n = self.words.n;
        let m = n / 7;
        let rows = self.ones_rows(m);
        let after = Countable {
            words: self.words.part(7 * m, n - 7 * m),
        };
        let rest = after.ones_single();
        rows + rest
    }

    // Counts the ones of the words. Many words get a record of their own, so that `self` stays in registers.
    pub(crate) fn ones(&self) -> usize
        ensures { result ≡ count (window (flags_of self.now.words.bytes.now) (8 * self.now.words.at) (64 * self.now.words.n)) }
    {
        if self.words.n < 128 {
            return self.ones_single();
        }
        let many = *self;
        many.ones_many()
    }
}
