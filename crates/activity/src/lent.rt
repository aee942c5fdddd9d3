//! The calls over arrays that the caller keeps and lends: nothing of the window is copied.
ghost use Rattle.std.specs.Prelude.{◌≡◌, IfOk};
ghost use Rattle.activity.specs.Lent.{window_at, numbers_of};
ghost use Rattle.activity.specs.Window.{failure_of, answer, minute_on, push_of, counts_of};
ghost use Rattle.activity.specs.Workers.{Good};

use crate::checks::left_by_minutes;
use crate::exchange::exchange;
use crate::window::{Refused, WindowRefusal, check};

/// The numbers of a window: where the next word goes, how many are kept, and how many are kept at most.
#[derive(Clone, Copy)]
pub struct Numbers {
    pub place: usize,
    pub fill: usize,
    pub width: usize,
}

// Puts the word of the next minute into a window that a run of minutes leaves. If not all places are taken the word at the place is zero,
// so that in either case the flags of the word there are taken off.
fn minute_in(words: &mut [u64; 256], counts: &mut [u32; 64], at: Numbers, word: u64) -> Numbers
    requires { Good (window_at words.old counts.old at) }
    ensures { window_at words.new counts.new result ≡
        minute_on (window_at words.old counts.old at) word }
{
    let oldest = words[at.place];
    words[at.place] = word;
    exchange(counts, oldest, word);
    Numbers {
        place: (at.place + 1) % at.width,
        fill: (at.fill + 1).min(at.width),
        width: at.width,
    }
}

/// Puts the word of the next minute into the window of the lent arrays, and returns its numbers. Refuses by 16 if no run of minutes leaves
/// the window: the arrays are unchanged, and the numbers are returned as they came.
#[tactic(auto, unfolding(crate::specs::Window::push_of))]
pub fn push_minute(
    words: &mut [u64; 256],
    counts: &mut [u32; 64],
    at: Numbers,
    word: u64,
) -> Result<Numbers, Refused<Numbers>>
    ensures answer { answer result ≡ numbers_of (push_of (window_at words.old counts.old at) word) }
    ensures words { words.new ≡ (push_of (window_at words.old counts.old at) word).value.words }
    ensures counts { counts.new ≡ (push_of (window_at words.old counts.old at) word).value.counts }
{
    check(left_by_minutes(words, counts, at)).map_err(|r| r.with(at))?;
    Ok(minute_in(words, counts, at, word))
}

/// Returns for each flag how many of the kept words of the lent arrays have it set. Refuses by 16 if no run of minutes leaves the
/// window.
#[tactic(auto, unfolding(crate::specs::Window::counts_of))]
pub fn counts(
    words: &[u64; 256],
    counts: &[u32; 64],
    at: Numbers,
) -> Result<[u32; 64], WindowRefusal>
    ensures refusal { failure_of result ≡ (counts_of (window_at words.now counts.now at)).refusal }
    ensures counts { IfOk result (λ l. l ≡ (counts_of (window_at words.now counts.now at)).value) }
{
    check(left_by_minutes(words, counts, at))?;
    Ok(*counts)
}
