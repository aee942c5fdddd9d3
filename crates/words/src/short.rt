//! Short stretches: those that lie in eight bytes, all of them lent. Each is one load, and a combination of them one store. A caller that
//! has made the test itself has only these in its body; other stretches go through the calls of `loops` and `uniform`.
ghost use Rattle.std.specs.Prelude.{◌≡◌, ◌-◌, ◌+◌, ◌%◌, ◌/◌, ◌≤◌, length};
ghost use Rattle.words.specs.Flags.{word_flags, flags_of, over, window};
ghost use Rattle.words.specs.Loops.{stretch, combined, whole_words};
ghost use Rattle.words.specs.Short.{lies_near};
ghost use Rattle.words.specs.Uniform.{all_equal};

use crate::flags::Operand;
use crate::loops::combine;
use crate::ops::{Op, combine_word};
use crate::uniform::{all_equal, low_all_equal};
use crate::word::{full_word, low_flags, put_word, shr_or_zero};

/// Returns whether `len` flags starting at flag `start` lie in the eight bytes from the first one's byte on, all of them among `size`.
#[inline(always)]
pub fn lies_near(size: usize, start: usize, len: usize) -> bool
    ensures { result ≡ lies_near size start len }
{
    (len <= 64 - start % 8) & (start / 8 + 8 <= size)
}

// Reads in one load the flags from flag `start` to the end of the eight bytes that begin with its byte, as `near_word` does where they are
// lent.
#[inline(always)]
fn near_load(bytes: &[u8], start: usize) -> u64
    requires { start / 8 + 8 ≤ length bytes.now }
    ensures { word_flags result ≡
        window (window (flags_of bytes.now) start (64 - start % 8)) 0 64 }
{
    shr_or_zero(full_word(bytes, start / 8), start % 8)
}

/// Combines three stretches as `combine` does. Of stretches that lie in eight bytes each, and an output of eight bytes or more, it makes
/// three loads and one store.
#[inline(always)]
pub fn combine_near<'a>(
    op: Op,
    a: &Operand<'a>,
    b: &Operand<'a>,
    c: &Operand<'a>,
    len: usize,
    out: &mut [u8],
)
    ensures { flags_of out.new ≡ over (flags_of out.old) (whole_words
        (combined op a.now.bytes.now a.now.start b.now.bytes.now b.now.start c.now.bytes.now c.now.start len)) }
{
    if len > 0
        && lies_near(a.bytes.len(), a.start, len)
        && lies_near(b.bytes.len(), b.start, len)
        && lies_near(c.bytes.len(), c.start, len)
        && out.len() >= 8
    {
        let x = near_load(a.bytes, a.start);
        let y = near_load(b.bytes, b.start);
        let z = near_load(c.bytes, c.start);
        put_word(out, 0, low_flags(combine_word(op, x, y, z), len));
        return;
    }
    combine(op, a, b, c, len, out);
}

/// Returns whether all flags of a stretch equal `flag`, as `all_equal` does; of a stretch that lies in eight bytes it makes one load.
#[inline(always)]
pub fn all_near(flag: bool, bytes: &[u8], start: usize, len: usize) -> bool
    ensures { result ≡ all_equal flag (stretch bytes.now start len) }
{
    if lies_near(bytes.len(), start, len) {
        return low_all_equal(flag, near_load(bytes, start), len);
    }
    all_equal(flag, bytes, start, len)
}
