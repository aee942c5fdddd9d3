//! The calls of the crate activity.
//!
//! The arrays of a window lie in bytes, little-endian: its 256 words, then its 64 counts, 2,304 bytes. Its place, its fill and its width
//! are the first three arguments, and come last in an answer.
use crate::tokens;
use crate::tokens::Answered;
use activity::window::{ActivityWindow, WindowRefusal};
use notation::answer::Answer;
use notation::arguments::Arguments;
use notation::call::MinutesCall;
use words::word;

// Where the counts begin, and the bytes of both arrays.
const COUNTS: usize = 2048;

const ARRAYS: usize = 2304;

// Makes the calls that write a window.
pub(crate) fn minutes_answer(
    to: &mut Answer,
    call: MinutesCall,
    a: &Arguments,
    out: &mut [u8],
) -> Answered {
    match call {
        MinutesCall::New => new_answer(to, a.size(0), out),
        MinutesCall::PushMinute => pushes_answer(to, a, 1, out),
        MinutesCall::PushMinutes => pushes_answer(to, a, a.word(5) % 65536, out),
    }
}

// Writes the counts of the window whose arrays are x, as numbers, also those of a refusal.
pub(crate) fn counts_answer(
    to: &mut Answer,
    a: &Arguments,
    x: &[u8],
    numbers: &mut [u32],
) -> Answered {
    match window_of(a, x).counts() {
        Ok(counts) => counts_or_refusal(to, Ok(()), counts, numbers),
        Err(refused) => {
            let state = refused.state;
            counts_or_refusal(to, Err(refused.refusal), state, numbers)
        }
    }
}

fn counts_or_refusal(
    to: &mut Answer,
    r: Result<(), WindowRefusal>,
    counts: [u32; 64],
    numbers: &mut [u32],
) -> Answered {
    for (number, count) in numbers.iter_mut().zip(counts) {
        *number = count;
    }
    tokens::answer(to, r)
}

// Makes a new window and writes it, also the one of a refusal.
fn new_answer(to: &mut Answer, width: usize, out: &mut [u8]) -> Answered {
    match ActivityWindow::new(width) {
        Ok(window) => window_answer(to, Ok(()), window, out),
        Err(refused) => window_answer(to, Err(refused.refusal), refused.state, out),
    }
}

// Pushes a run of `many` minutes; each word is greater by a step than the one before it. After a refusal no minute is pushed. The minutes
// are a number and no list, so the loop is over a range; `try_fold` would carry the word and the window as a pair through both ends: no
// plainer. Not inlined, as `kept`: among all calls in one function the loops over its arrays take minutes to compile.
#[inline(never)]
fn pushes_answer(to: &mut Answer, a: &Arguments, many: u64, out: &mut [u8]) -> Answered {
    let mut word = a.word(3);
    let mut now = window_of(a, out);
    for _ in 0..many {
        match now.push_minute(word) {
            Ok(next) => now = kept(next, out),
            Err(refused) => return window_answer(to, Err(refused.refusal), refused.state, out),
        }
        word = word.wrapping_add(a.word(4));
    }
    window_answer(to, Ok(()), now, out)
}

// Writes the window and returns it as it is read again: each minute is pushed on what the output keeps of the one before it. An output that
// keeps all of it is written after the last minute alone.
#[inline(never)]
fn kept(now: ActivityWindow, out: &mut [u8]) -> ActivityWindow {
    if out.len() >= ARRAYS {
        return now;
    }
    put_window(&now, out);
    window(out, now.place, now.fill, now.width)
}

// Returns the window whose arrays are these bytes and whose numbers are the first three arguments.
fn window_of(a: &Arguments, bytes: &[u8]) -> ActivityWindow {
    window(bytes, a.size(0), a.size(1), a.size(2))
}

// Returns the window whose arrays are these bytes, zeros past their end.
fn window(bytes: &[u8], place: usize, fill: usize, width: usize) -> ActivityWindow {
    let mut words = [0; 256];
    for (word, part) in words.iter_mut().zip(bytes.chunks(8)) {
        *word = word::load_padded_le_u64(part);
    }
    let mut counts = [0; 64];
    let rest = bytes.get(COUNTS..).unwrap_or(&[]);
    for (count, part) in counts.iter_mut().zip(rest.chunks(4)) {
        *count = (word::load_padded_le_u64(part) & 0xffff_ffff) as u32; // 32 bits of a word, which has no `From`
    }
    ActivityWindow {
        words,
        counts,
        place,
        fill,
        width,
    }
}

// Writes the arrays of the window that a call left, and returns the answer.
fn window_answer(
    to: &mut Answer,
    r: Result<(), WindowRefusal>,
    window: ActivityWindow,
    out: &mut [u8],
) -> Answered {
    put_window(&window, out);
    tokens::left(to, r, (window.place, window.fill, window.width))
}

// Writes the arrays of a window, as far as the output goes.
fn put_window(window: &ActivityWindow, out: &mut [u8]) {
    for (part, word) in out.chunks_mut(8).zip(window.words) {
        word::store_le_u64(part, word);
    }
    let size = out.len().min(COUNTS);
    let (_, rest) = out.split_at_mut(size);
    for (part, count) in rest.chunks_mut(4).zip(window.counts) {
        word::store_le_u64(part, u64::from(count));
    }
}
