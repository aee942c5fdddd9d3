//! The window of the last minutes: a record by value, 256 words of which the first `fill` are kept, and a count for each flag.
ghost use Rattle.std.specs.Prelude.{◌≡◌, cond, Ok, Err, Some};
ghost use Rattle.activity.specs.Window.{no_minute, number, reason, said, answer, new_of, push_of, counts_of};
ghost use Rattle.activity.specs.declared.window.WindowRefusal.TheVariants.{ImpossibleWindow};

use crate::checks::width_fits;
use crate::lent::{self, Numbers};
use std::error::Error;
use std::fmt;

/// A window of minutes. Minute k, counted from 0, is kept at k mod width. Unused words are zero. `place` is where the next word goes, and
/// `fill` the number of words kept. The words are an array and their number, since there is no heap and C lends arrays of this length.
#[derive(Clone, Copy)]
pub struct ActivityWindow {
    pub words: [u64; 256],
    pub counts: [u32; 64],
    pub place: usize,
    pub fill: usize,
    pub width: usize,
}

/// The reason for a refusal.
#[derive(Clone, Copy, Debug, PartialEq, Eq)]
pub enum WindowRefusal {
    /// 16: the width of the window of minutes is not 1 to 256, or no run of minutes at its width leaves the window.
    ImpossibleWindow,
}

impl WindowRefusal {
    // Returns the words for the check that failed: those of the Rust crate.
    fn reason(self) -> &'static str
        ensures { result.now ≡ reason self }
    {
        match self {
            WindowRefusal::ImpossibleWindow => {
                "the width is not 1 to 256, or no run of minutes leaves the window"
            }
        }
    }

    // Returns the refusal with the state that the call got, or with the zeros of `new` and `counts`.
    pub(crate) fn with<S>(self, state: S) -> Refused<S>
        ensures { (result.refusal ≡ self) × (result.state ≡ state) }
    {
        Refused {
            refusal: self,
            state,
        }
    }
}

impl fmt::Display for WindowRefusal {
    ghost output = { λ r. Some (said r) };

    fn fmt<W: fmt::Write>(&self, f: &mut fmt::Formatter<W>) -> fmt::Result {
        write!(f, "refused with {}: {}", u8::from(*self), self.reason())
    }
}

impl Error for WindowRefusal {}

// The number of the check that failed.
impl From<WindowRefusal> for u8 {
    ghost from_gives = { λ e n. n ≡ number e };

    fn from(e: WindowRefusal) -> u8 {
        match e {
            WindowRefusal::ImpossibleWindow => 16,
        }
    }
}

/// A refusal, and the state that the call got. `new` gets none, and `counts` does not return counts that are in doubt: theirs are zeros.
#[derive(Clone, Copy, Debug, PartialEq, Eq)]
pub struct Refused<S> {
    pub refusal: WindowRefusal,
    pub state: S,
}

impl<S> fmt::Display for Refused<S> {
    ghost output = { λ r. Some (said r.refusal) };

    fn fmt<W: fmt::Write>(&self, f: &mut fmt::Formatter<W>) -> fmt::Result {
        write!(f, "{}", self.refusal)
    }
}

// By this `?` passes the refusal on, in a caller that does not return the state.
impl<S: Drop> From<Refused<S>> for WindowRefusal {
    ghost from_gives = { λ e r. r ≡ e.refusal };

    fn from(refused: Refused<S>) -> WindowRefusal {
        refused.refusal
    }
}

impl<S: fmt::Debug + Drop> Error for Refused<S> {}

impl ActivityWindow {
    /// Returns a window that keeps up to `width` words, 1 to 256, and has none yet. Refuses any other width by 16, with a window of zeros:
    /// its width is 0 too, so that every call refuses it.
    #[tactic(auto, unfolding(crate::specs::Window::new_of))]
    pub fn new(width: usize) -> Result<ActivityWindow, Refused<ActivityWindow>>
        ensures { answer result ≡ new_of width }
    {
        check(width_fits(width)).map_err(|r| r.with(no_minute(0)))?;
        Ok(no_minute(width))
    }

    /// Returns the window after one more minute, with `word` as the word of that minute. Refuses by 16 if no run of minutes leaves this
    /// window, and returns it as it came.
    #[tactic(auto, unfolding(crate::specs::Window::push_of))]
    pub fn push_minute(self, word: u64) -> Result<ActivityWindow, Refused<ActivityWindow>>
        ensures { answer result ≡ push_of self word }
    {
        let ActivityWindow {
            mut words,
            mut counts,
            place,
            fill,
            width,
        } = self;
        let at = Numbers { place, fill, width };
        let pushed = lent::push_minute(&mut words, &mut counts, at, word);
        let after = pushed.map_err(|r| r.refusal.with(self))?;
        Ok(ActivityWindow {
            words,
            counts,
            place: after.place,
            fill: after.fill,
            width: after.width,
        })
    }

    /// Returns for each flag how many of the kept words have it set. Refuses by 16 if no run of minutes leaves this window, with 64 zeros.
    #[tactic(auto, unfolding(crate::specs::Window::counts_of, crate::specs::Window::zeros))]
    pub fn counts(self) -> Result<[u32; 64], Refused<[u32; 64]>>
        ensures { answer result ≡ counts_of self }
    {
        let at = Numbers {
            place: self.place,
            fill: self.fill,
            width: self.width,
        };
        lent::counts(&self.words, &self.counts, at).map_err(|r| r.with([0; 64]))
    }
}

// Refuses by 16 unless the check has passed.
pub(crate) fn check(passed: bool) -> Result<(), WindowRefusal>
    ensures { result ≡ cond passed (Ok tt) (Err ImpossibleWindow) }
{
    if passed {
        Ok(())
    } else {
        Err(WindowRefusal::ImpossibleWindow)
    }
}

// Returns the window of no minute that keeps up to `width` words.
#[tactic(auto, unfolding(crate::specs::Window::no_minute, crate::specs::Window::zeros))]
fn no_minute(width: usize) -> ActivityWindow
    ensures { result ≡ no_minute width }
{
    ActivityWindow {
        words: [0; 256],
        counts: [0; 64],
        place: 0,
        fill: 0,
        width,
    }
}
