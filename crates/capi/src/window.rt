//! Exported to C and Rust: the window of minutes: in how many of the last minutes each truck was busy.
//!
//! A window is lent as its two arrays, of 256 words and of 64 counts, and is passed with its place, its fill and its width, as the
//! call before returned them. These three numbers are parameters, as the C interface has them, and are passed in registers.
#![tactic(auto, unfolding(activity::specs::Window::no_minute, crate::specs::Window::as_window, crate::specs::Window::unless_refused, crate::specs::Window::window_in))]

ghost use Rattle.std.specs.Prelude.{◌≡◌};
ghost use Rattle.activity.specs.Window.{accepted, new_of, push_of, counts_of};
ghost use Rattle.capi.specs.Window.{as_window, unless_refused, window_in};

use crate::answers::WindowAnswer;
use activity::lent::{self, Numbers};
use activity::window::ActivityWindow;

// Writes a window's words and counts to the two arrays and returns its numbers.
fn window_out(a: ActivityWindow, words: &mut [u64; 256], counts: &mut [u32; 64]) -> WindowAnswer
    ensures answer { result ≡ as_window (accepted a) }
    ensures words { words.new ≡ a.words }
    ensures counts { counts.new ≡ a.counts }
{
    let ActivityWindow {
        words: kept,
        counts: counted,
        place,
        fill,
        width,
    } = a;
    *words = kept;
    *counts = counted;
    WindowAnswer {
        refusal: 0,
        place,
        fill,
        width,
    }
}

/// Writes an empty window, all words and counts 0, to both arrays and returns its numbers. It keeps the words of the last `width`
/// minutes; `width` must be 1 to 256.
///
/// ```
/// use poruwhina::calls::activity_new;
///
/// let (mut words, mut counts) = ([7; 256], [7; 64]);
/// assert_eq!(activity_new(&mut words, &mut counts, 257).refusal, 16);
/// assert_eq!((words, counts), ([7; 256], [7; 64]));
/// assert_eq!(activity_new(&mut words, &mut counts, 60).width, 60);
/// assert_eq!((words, counts), ([0; 256], [0; 64]));
/// ```
#[unsafe(no_mangle)]
pub extern "C" fn pw_activity_new(
    words: &mut [u64; 256],
    counts: &mut [u32; 64],
    width: usize,
) -> WindowAnswer
    ensures answer { result ≡ as_window (new_of width) }
    ensures words { words.new ≡
        unless_refused (new_of width).refusal words.old (new_of width).value.words }
    ensures counts { counts.new ≡
        unless_refused (new_of width).refusal counts.old (new_of width).value.counts }
{
    match ActivityWindow::new(width) {
        Ok(made) => window_out(made, words, counts),
        Err(e) => WindowAnswer {
            refusal: e.refusal.into(),
            place: e.state.place,
            fill: e.state.fill,
            width: e.state.width,
        },
    }
}

/// Writes `word`, whose bit j is the flag of truck j in the next minute, into the window, updates the counts and returns the new numbers.
/// The oldest word is replaced if the window already has `width` words. `place`, `fill` and `width` are those that the call before
/// returned.
///
/// ```
/// use poruwhina::calls::{WindowAnswer, activity_new, activity_push_minute};
///
/// let (mut words, mut counts) = ([0; 256], [0; 64]);
/// let empty = activity_new(&mut words, &mut counts, 2);
/// let one = activity_push_minute(&mut words, &mut counts, empty.place, empty.fill, empty.width, 0b101);
/// assert_eq!(one, WindowAnswer { refusal: 0, place: 1, fill: 1, width: 2 });
/// assert_eq!((words[0], counts[0], counts[1], counts[2]), (0b101, 1, 0, 1));
///
/// // A count that is one off is told apart, and the window stays as it is.
/// counts[1] = 1;
/// assert_eq!(activity_push_minute(&mut words, &mut counts, 1, 1, 2, 0b1), WindowAnswer { refusal: 16, ..one });
/// assert_eq!((words[1], counts[1]), (0, 1));
/// ```
#[unsafe(no_mangle)]
pub extern "C" fn pw_activity_push_minute(
    words: &mut [u64; 256],
    counts: &mut [u32; 64],
    place: usize,
    fill: usize,
    width: usize,
    word: u64,
) -> WindowAnswer
    ensures answer { result ≡ as_window (push_of (window_in words.old counts.old place fill width) word) }
    ensures words { words.new ≡
        (push_of (window_in words.old counts.old place fill width) word).value.words }
    ensures counts { counts.new ≡
        (push_of (window_in words.old counts.old place fill width) word).value.counts }
{
    let at = Numbers { place, fill, width };
    match lent::push_minute(words, counts, at, word) {
        Ok(after) => WindowAnswer {
            refusal: 0,
            place: after.place,
            fill: after.fill,
            width: after.width,
        },
        Err(e) => WindowAnswer {
            refusal: e.refusal.into(),
            place: e.state.place,
            fill: e.state.fill,
            width: e.state.width,
        },
    }
}

/// Writes to `out`, for each of the 64 flags, the number of kept words that have it set. Returns 0, or the number of the refusal.
/// `place`, `fill` and `width` are those that the call before returned.
///
/// ```
/// use poruwhina::calls::{activity_counts, activity_new};
///
/// let (mut words, mut counts, mut out) = ([0; 256], [0; 64], [7; 64]);
/// activity_new(&mut words, &mut counts, 2);
/// assert_eq!(activity_counts(&words, &counts, 1, 0, 2, &mut out), 16);
/// assert_eq!(out, [7; 64]);
/// assert_eq!(activity_counts(&words, &counts, 0, 0, 2, &mut out), 0);
/// assert_eq!(out, [0; 64]);
/// ```
#[unsafe(no_mangle)]
pub extern "C" fn pw_activity_counts(
    words: &[u64; 256],
    counts: &[u32; 64],
    place: usize,
    fill: usize,
    width: usize,
    out: &mut [u32; 64],
) -> u8
    ensures answer { result ≡ (counts_of (window_in words.now counts.now place fill width)).refusal }
    ensures counted { out.new ≡
        unless_refused (counts_of (window_in words.now counts.now place fill width)).refusal out.old
        (counts_of (window_in words.now counts.now place fill width)).value }
{
    let at = Numbers { place, fill, width };
    match lent::counts(words, counts, at) {
        Ok(counted) => {
            *out = counted;
            0
        }
        Err(e) => e.into(),
    }
}
