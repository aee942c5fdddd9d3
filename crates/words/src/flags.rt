//! An operand of the combinations: lent bytes and the flag at which it begins. Calls with one operand (`copy`, `count_ones`, `copy_count`,
//! `all_equal`, `differs_early`, `near_word`, `word_from`, `flag_at`) take the two as parameters: their callers compute with a slice and a
//! number, and would make a `Operand` for one call only.
ghost use Rattle.std.specs.Prelude.{◌≡◌, ◌*◌, ◌+◌, ◌^◌, ◌<◌};
ghost use Rattle.words.specs.Flags.{word_flags, flags_of, window};

use crate::word::word_at;

/// The flags of `bytes` starting at flag `start`. It is passed by reference: by value each function that passes it on copies it (PROVING,
/// `Operand`). The operands of a call have one lifetime, so that one may be passed as two.
#[derive(Clone, Copy)]
pub struct Operand<'a> {
    pub bytes: &'a [u8],
    pub start: usize,
}

impl Operand<'_> {
    // Returns word i of these flags, with zeros past the end of the bytes.
    pub(crate) fn word(&self, i: usize) -> u64
        requires { 64 * i < 2 ^ 64 }
        ensures { word_flags result ≡ window (flags_of self.now.bytes.now) (self.now.start + 64 * i) 64 }
    {
        word_at(self.bytes, self.start / 8 + 8 * i, self.start % 8)
    }
}
