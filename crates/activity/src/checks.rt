//! Whether a run of minutes leaves a record: its numbers, its words and its counts.
ghost use Rattle.std.specs.Prelude.{◌≡◌, ℕ, ◌≤◌, Bool, true, ◌&&◌, ◌==◌, fold, eqb};
ghost use Rattle.std.specs.Int.Bits.{bit_or};
ghost use Rattle.std.specs.List.{zip};
ghost use Rattle.activity.specs.Checks.{width_fits, numbers_fit, words_fit, left_by_minutes};
ghost use Rattle.activity.specs.Lent.{window_at};

use crate::lent::Numbers;
use words::columns::column_counts;

// Returns whether a window can have this width, 1 to 256.
#[tactic(auto, unfolding(crate::specs::Checks::width_fits))]
pub(crate) fn width_fits(width: usize) -> bool
    ensures { result ≡ width_fits width }
{
    1 <= width && width <= 256
}

// Returns whether the width is allowed, the place is one of the window's, and at most `width` words are kept. While fewer words are kept
// than there are places, the place must be the one after them.
#[tactic(auto, unfolding(crate::specs::Checks::numbers_fit, crate::specs::Checks::inside_fits, crate::specs::Checks::place_fits))]
fn numbers_fit(place: usize, fill: usize, width: usize) -> bool
    ensures { result ≡ numbers_fit place fill width }
{
    width_fits(width) && place < width && fill <= width && (width <= fill || place == fill)
}

// Returns whether all words are zero. The fold joins the words, so that it is vectorised: the target has no comparison of 64-bit lanes
// (PROVING, `all_zero`).
fn all_zero(words: &[u64]) -> bool
    ensures { result ≡ eqb (fold (λ all w. bit_or all w) 0 words.now) 0 }
{
    words.iter().fold(0, |all, w| all | *w) == 0
}

// Returns whether two lists of 64 numbers are equal. This fold reads each pair, and is faster than `all` and than `==` of the arrays
// (PROVING, `same_numbers`).
fn same_numbers(a: &[u32; 64], b: &[u32; 64]) -> bool
    ensures { result ≡
        fold (λ (same : Bool) (p : ℕ × ℕ). same && (p.0 == p.1)) true (zip a.now b.now) }
{
    a.iter().zip(b).fold(true, |same, (x, y)| same & (*x == *y))
}

// Returns whether the words after the first `fill` are zero, and the counts are those of the first `fill`.
#[tactic(auto, unfolding(crate::specs::Checks::words_fit))]
fn words_fit(words: &[u64; 256], counts: &[u32; 64], fill: usize) -> bool
    requires { fill ≤ 256 }
    ensures { result ≡ words_fit words.now counts.now fill }
{
    all_zero(&words[fill..]) && same_numbers(counts, &column_counts(&words[..fill]))
}

// Returns whether a run of minutes leaves this record.
#[tactic(auto, unfolding(crate::specs::Checks::left_by_minutes))]
pub(crate) fn left_by_minutes(words: &[u64; 256], counts: &[u32; 64], at: Numbers) -> bool
    ensures { result ≡ left_by_minutes (window_at words.now counts.now at) }
{
    numbers_fit(at.place, at.fill, at.width) && words_fit(words, counts, at.fill)
}
