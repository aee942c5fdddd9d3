//! Which trucks were busy in the last minutes.
ghost use Rattle.std.specs.Prelude.{◌≡◌, ◌<◌, IsTrue, get_or};
ghost use Rattle.activity.specs.Lent.{window_at};
ghost use Rattle.activity.specs.Window.{counts_of};

use activity::lent::{Numbers, counts};

/// Returns whether a truck below 64 was busy in more than `most` of the minutes of a window; no if no run of minutes leaves the window.
pub fn busy(words: &[u64; 256], kept: &[u32; 64], at: Numbers, truck: usize, most: u32) -> bool
    ensures accepted { IsTrue result → (counts_of (window_at words.now kept.now at)).refusal ≡ 0 }
    ensures more { IsTrue result → most < get_or (counts_of (window_at words.now kept.now at)).value truck 0 }
{
    match counts(words, kept, at) {
        Ok(minutes) => truck < 64 && minutes[truck] > most,
        Err(_) => false,
    }
}
