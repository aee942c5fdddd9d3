//! A word of flags joined to lent bytes, from any flag on.
ghost use Rattle.std.specs.Prelude.{◌≡◌, ◌+◌, ◌*◌, ◌<◌, ◌≤◌, ◌^◌, length};
ghost use Rattle.words.specs.Flags.{flags_of, word_flags};
ghost use Rattle.words.specs.Place.{or_at};

use crate::ops::or_word;
use crate::word::{byte_word, full_word, put_word, shl_or_zero, shr_or_zero, store_at};

// Joins the flags of w by or to the eight bytes at byte `at`, as far as they fit.
fn join_at(out: &mut [u8], at: usize, w: u64)
    ensures { flags_of out.new ≡ or_at (flags_of out.old) (8 * at) (word_flags w) }
{
    let joined = or_word(byte_word(out, at), w);
    store_at(out, at, joined);
}

// Joins the flags of w by or to the eight bytes at byte `at`, which are in range.
fn join_whole(out: &mut [u8], at: usize, w: u64)
    requires { at + 8 ≤ length out.old }
    ensures { flags_of out.new ≡ or_at (flags_of out.old) (8 * at) (word_flags w) }
{
    let joined = or_word(full_word(out, at), w);
    put_word(out, at, joined);
}

// Joins two words by or to the bytes from byte `at` on, as far as they fit. Apart from `or_flags`, whose callers it would make long.
fn join_both(out: &mut [u8], at: usize, low: u64, high: u64)
    requires { at < 2 ^ 63 }
    ensures { flags_of out.new ≡
        or_at (or_at (flags_of out.old) (8 * at) (word_flags low)) (8 * (at + 8)) (word_flags high) }
{
    join_at(out, at, low);
    join_at(out, at + 8, high);
}

/// Joins the 64 flags of w by or to those of `out` from flag `bit` on; flags past the end are left out. Where the flags of `out` were zero
/// they are then those of w.
pub fn or_flags(out: &mut [u8], bit: usize, w: u64)
    ensures { flags_of out.new ≡ or_at (flags_of out.old) bit (word_flags w) }
{
    let at = bit / 8;
    let low = shl_or_zero(w, bit % 8);
    let high = shr_or_zero(w, 64 - bit % 8);
    if 16 <= out.len() && at <= out.len() - 16 {
        join_whole(out, at, low);
        join_whole(out, at + 8, high);
    } else {
        join_both(out, at, low, high);
    }
}
