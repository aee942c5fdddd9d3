//! Exported to C and Rust: the calls of words. They refuse nothing.
ghost use Rattle.std.specs.Prelude.{◌≡◌};
ghost use Rattle.words.specs.Flags.{bits, flags_of, window, word_flags};
ghost use Rattle.words.specs.Merge.{merged};
ghost use Rattle.words.specs.Nth.{nth_one};
ghost use Rattle.capi.specs.Answers.{as_nth};

use crate::answers::NthAnswer;
use words::merge::merge_reversed;
use words::nth::{nth_set_bit_u32, nth_set_bit_u64};
use words::word::load_padded_le_u64;

#[tactic(auto, unfolding(crate::specs::Answers::as_nth))]
impl From<Result<u32, u32>> for NthAnswer {
    ghost from_gives = { λ r a. a ≡ as_nth r };

    fn from(r: Result<u32, u32>) -> NthAnswer {
        match r {
            Ok(value) => NthAnswer {
                found: true,
                value,
                ..NthAnswer::default()
            },
            Err(ones) => NthAnswer {
                ones,
                ..NthAnswer::default()
            },
        }
    }
}

/// Loads the first eight bytes of `part` as a little-endian word, padding a shorter slice with zeros.
///
/// ```
/// assert_eq!(poruwhina::calls::load_padded_le_u64(&[0x2D, 0x01]), 0x012D);
/// ```
#[unsafe(no_mangle)]
pub extern "C" fn pw_load_padded_le_u64(part: &[u8]) -> u64
    ensures { word_flags result ≡ window (flags_of part.now) 0 64 }
{
    load_padded_le_u64(part)
}

/// Returns 64 flags: those of `current` starting at `offset`, then the low flags of `next`. An offset of 0, or of 64 or more, returns
/// `current`.
///
/// ```
/// use poruwhina::calls::merge_reversed;
///
/// assert_eq!(merge_reversed(0xA0, 0x03, 4), 0x3000_0000_0000_000A);
/// assert_eq!(merge_reversed(0xA0, 0x03, 64), 0xA0);
/// ```
#[unsafe(no_mangle)]
pub extern "C" fn pw_merge_reversed(current: u64, next: u64, offset: usize) -> u64
    ensures { word_flags result ≡ merged (word_flags current) (word_flags next) offset }
{
    merge_reversed(current, next, offset)
}

/// Returns in `value` the position of set bit `n` of the word `w`, counting from 0. If at most `n` bits are set, `found` is false and
/// `ones` is the number of set bits.
///
/// ```
/// use poruwhina::calls::nth_set_bit_u64;
///
/// assert_eq!(nth_set_bit_u64(0x2D, 2).position(), Ok(3));
/// assert_eq!(nth_set_bit_u64(0x2D, 4).position().unwrap_err().ones, 4);
/// ```
#[unsafe(no_mangle)]
pub extern "C" fn pw_nth_set_bit_u64(w: u64, n: u64) -> NthAnswer
    ensures { result ≡ as_nth (nth_one (bits 64 w) n) }
{
    nth_set_bit_u64(w, n).into()
}

/// Returns in `value` the position of set bit `n` of the 32-bit word `w`, counting from 0. If at most `n` bits are set, `found` is false
/// and `ones` is the number of set bits.
///
/// ```
/// use poruwhina::calls::nth_set_bit_u32;
///
/// assert_eq!(nth_set_bit_u32(0x8000_0001, 1).position(), Ok(31));
/// assert_eq!(nth_set_bit_u32(0x8000_0001, 2).position().unwrap_err().ones, 2);
/// ```
#[unsafe(no_mangle)]
pub extern "C" fn pw_nth_set_bit_u32(w: u32, n: u32) -> NthAnswer
    ensures { result ≡ as_nth (nth_one (bits 32 w) n) }
{
    nth_set_bit_u32(w, n).into()
}
