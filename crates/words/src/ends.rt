//! How many flags at either end of a word are equal.
ghost use Rattle.std.specs.Prelude.{◌≡◌, take};
ghost use Rattle.words.specs.Flags.{word_flags};
ghost use Rattle.words.specs.Ends.{leading, trailing};

/// Counts how many of the first k flags of w equal `flag` before the first that differs; if none differs, k, at most 64. To usize, here and
/// below: there is no From; a number up to 64 fits. The choice is outermost, which is faster than a `min` after it (PROVING,
/// `leading_in_word`).
pub fn leading_in_word(flag: bool, w: u64, k: usize) -> usize
    ensures { result ≡ leading flag (take k (word_flags w)) }
{
    if flag {
        (w.trailing_ones() as usize).min(k)
    } else {
        (w.trailing_zeros() as usize).min(k)
    }
}

/// Counts how many of the first k flags of w equal `flag` after the last that differs; if none differs, k, at most 64.
pub fn trailing_in_word(flag: bool, w: u64, k: usize) -> usize
    ensures { result ≡ trailing flag (take k (word_flags w)) }
{
    let n = k.min(64);
    if n == 0 {
        return 0;
    }
    let top = w << (64 - n);
    if flag {
        (top.leading_ones() as usize).min(n)
    } else {
        (top.leading_zeros() as usize).min(n)
    }
}
