//! The builder: flags are appended to a lent buffer. A word is written when it is full. Each append refuses with 1 if the new length is
//! above the flag limit, with 4 if no calls leave such a builder, with 9 if the buffer is too short for the new length.
ghost use Rattle.std.specs.Prelude.{◌≡◌, List, ℕ, ◌≤◌, ◌-◌, ◌%◌, length, take, [], ◌∷◌, IfOk, IfErr, OnOk, OnErr};
ghost use Rattle.words.specs.Flags.{word_flags};
ghost use Rattle.masks.specs.Checks.{first_failed};
ghost use Rattle.masks.specs.Refusal.{failure_of, failure_back};
ghost use Rattle.masks.specs.Appends.{grow_checks, word_checks};
ghost use Rattle.masks.specs.Builder.{builder_under, new_builder, rebuilt, filling, appended};
ghost use Rattle.masks.specs.Freeze.{total_ones, frozen_mask, freeze_checks, frozen_over, validity_of};
ghost use Rattle.masks.specs.Workers.{Inside, Room};

mod extend;
mod gather;
mod repeat;

use crate::bitmap::{Bitmap, mask_under};
use crate::checks::{check_builder, check_word};
use crate::refusal::{Refusal, Refused, earlier};
use words::ops::or_word;
use words::word::{constant_word, low_flags, ones_in_word, shl_or_zero, shr_or_zero, store_whole};

/// A builder: its length, the word in progress, the ones in the finished words, and the serial that its mask will have. The Rust's
/// `BitmapBuilder` with a serial, its buffer lent to each call.
#[derive(Clone, Copy, PartialEq, Eq, Debug, Default)]
pub struct BitmapBuilder {
    pub length: usize,
    pub word: u64,
    pub ones: usize,
    pub serial: u32,
}

impl BitmapBuilder {
    /// Returns a builder with no flags, under serial 0.
    pub fn new() -> Self
        ensures { result ≡ new_builder }
    {
        BitmapBuilder::default()
    }

    /// Appends one flag.
    pub fn push(self, buf: &mut [u8], flag: bool) -> Result<BitmapBuilder, Refused<BitmapBuilder>>
        ensures refused { failure_back result ≡ first_failed (grow_checks self 1 (length buf.old)) }
        ensures appended { IfOk result (λ b. filling b buf.new ≡
            appended (filling self buf.old) (flag ∷ [])) }
        ensures unchanged { OnErr result (buf.new ≡ buf.old) }
        ensures state { IfErr result (λ e. e.state ≡ self) }
    {
        check_builder(self, 1, buf.len()).map_err(|r| r.with(self))?;
        Ok(push_flags(self, buf, constant_word(flag), 1))
    }

    /// Appends one flag and changes the caller's own record; if it refuses, the record is unchanged. Length, word and ones are taken apart,
    /// pushed by value and stored back; the serial stays.
    pub fn push_mut(&mut self, buf: &mut [u8], flag: bool) -> Result<(), Refusal>
        ensures refused { failure_of result ≡ first_failed
            (grow_checks self.old 1 (length buf.old)) }
        ensures appended { OnOk result (filling self.new buf.new ≡
            appended (filling self.old buf.old) (flag ∷ [])) }
        ensures unchanged { OnErr result (buf.new ≡ buf.old) }
        ensures state { OnErr result (self.new ≡ self.old) }
    {
        let own = builder_under(self.serial, self.length, self.word, self.ones);
        match own.push(buf, flag) {
            Ok(next) => {
                self.length = next.length;
                self.word = next.word;
                self.ones = next.ones;
                Ok(())
            }
            Err(refused) => Err(refused.refusal),
        }
    }

    /// Appends the first k flags of a word. Refuses with 6 if k is above 64 or a bit from k up is set.
    #[tactic(auto, using(crate::proofs::checks::CheckLaws::two_pieces), unfolding(crate::specs::Appends::word_checks))]
    pub fn push_word_with_len_unchecked(
        self,
        buf: &mut [u8],
        word: u64,
        k: usize,
    ) -> Result<BitmapBuilder, Refused<BitmapBuilder>>
        ensures refused { failure_back result ≡ first_failed
            (word_checks self (length buf.old) word k) }
        ensures appended { IfOk result (λ b. filling b buf.new ≡
            appended (filling self buf.old) (take k (word_flags word))) }
        ensures unchanged { OnErr result (buf.new ≡ buf.old) }
        ensures state { IfErr result (λ e. e.state ≡ self) }
    {
        earlier(check_builder(self, k, buf.len()), check_word(word, k)).map_err(|r| r.with(self))?;
        Ok(push_flags(self, buf, word, k))
    }

    /// Writes the word in progress, and returns the mask of all flags.
    pub fn freeze(self, buf: &mut [u8]) -> Result<Bitmap, Refused<BitmapBuilder>>
        ensures refused { failure_back result ≡ first_failed (freeze_checks self (length buf.old)) }
        ensures mask { IfOk result (λ m. m ≡ frozen_mask self) }
        ensures bytes { OnOk result (buf.new ≡ frozen_over self buf.old) }
        ensures unchanged { OnErr result (buf.new ≡ buf.old) }
        ensures state { IfErr result (λ e. e.state ≡ self) }
    {
        check_builder(self, 0, buf.len()).map_err(|r| r.with(self))?;
        finish(self, buf);
        Ok(frozen_mask(self))
    }

    /// Writes the word in progress, and returns the mask of all flags, or none if all are set: Arrow's none, which means all ones. In
    /// dispatch no permission mask means no truck, so there a builder is ended by `freeze`.
    pub fn into_opt_validity(self, buf: &mut [u8]) -> Result<Option<Bitmap>, Refused<BitmapBuilder>>
        ensures refused { failure_back result ≡ first_failed (freeze_checks self (length buf.old)) }
        ensures mask { IfOk result (λ m. m ≡ validity_of self) }
        ensures bytes { OnOk result (buf.new ≡ frozen_over self buf.old) }
        ensures unchanged { OnErr result (buf.new ≡ buf.old) }
        ensures state { IfErr result (λ e. e.state ≡ self) }
    {
        check_builder(self, 0, buf.len()).map_err(|r| r.with(self))?;
        finish(self, buf);
        if total_ones(self) == self.length {
            return Ok(None);
        }
        Ok(Some(frozen_mask(self)))
    }
}

// Makes a builder's record from its parts, under a serial.
fn builder_under(serial: u32, length: usize, word: u64, ones: usize) -> BitmapBuilder
    ensures { result ≡ builder_under serial length word ones }
{
    BitmapBuilder {
        length,
        word,
        ones,
        serial,
    }
}

// Returns a builder with its length, word and ones replaced. Keeps the serial.
pub(crate) fn rebuilt(b: BitmapBuilder, length: usize, word: u64, ones: usize) -> BitmapBuilder
    ensures { result ≡ rebuilt b length word ones }
{
    BitmapBuilder {
        length,
        word,
        ones,
        ..b
    }
}

// Appends the k flags of a word, for which the word in progress has room: writes no byte, and no flag has to be cut off.
pub(crate) fn push_inside(b: BitmapBuilder, flags: u64, k: usize) -> BitmapBuilder
    requires { Inside b flags k }
    ensures { (bytes : List ℕ) → filling result bytes ≡
        appended (filling b bytes) (take k (word_flags flags)) }
{
    let low = or_word(b.word, shl_or_zero(flags, b.length % 64));
    let longer = b.length + k;
    rebuilt(b, longer, low, b.ones)
}

// Appends the first k flags of a word after those in progress. Writes the word in progress if it is then full.
pub(crate) fn push_flags(b: BitmapBuilder, buf: &mut [u8], word: u64, k: usize) -> BitmapBuilder
    requires { (k ≤ 64) × Room b k (length buf.old) }
    ensures { filling result buf.new ≡ appended (filling b buf.old) (take k (word_flags word)) }
{
    let fill = b.length % 64;
    let flags = low_flags(word, k);
    if fill + k < 64 {
        return push_inside(b, flags, k);
    }
    let longer = b.length + k;
    let rest = shr_or_zero(flags, 64 - fill);
    let closed = close_word(b, buf, flags);
    rebuilt(closed, longer, rest, closed.ones)
}

// Completes the word in progress with the first flags of a word, and writes it.
pub(crate) fn close_word(b: BitmapBuilder, buf: &mut [u8], word: u64) -> BitmapBuilder
    requires { Room b (64 - b.length % 64) (length buf.old) }
    ensures { filling result buf.new ≡
        appended (filling b buf.old) (take (64 - b.length % 64) (word_flags word)) }
{
    let fill = b.length % 64;
    let low = or_word(b.word, shl_or_zero(word, fill));
    let longer = b.length + (64 - fill);
    store_whole(buf, 8 * (b.length / 64), low);
    let ones = b.ones + ones_in_word(low);
    rebuilt(b, longer, 0, ones)
}

// Writes the word in progress, if it has flags, after the finished ones.
fn finish(b: BitmapBuilder, buf: &mut [u8])
    requires { Room b 0 (length buf.old) }
    ensures { buf.new ≡ frozen_over b buf.old }
{
    if b.length % 64 != 0 {
        store_whole(buf, 8 * (b.length / 64), b.word);
    }
}

// Adds the ones of the finished words and of the word in progress.
fn total_ones(b: BitmapBuilder) -> usize
    requires { total_ones b ≤ b.length }
    ensures { result ≡ total_ones b }
{
    b.ones + ones_in_word(b.word)
}

// Returns the mask of a builder's flags, with its zero count known.
fn frozen_mask(b: BitmapBuilder) -> Bitmap
    requires { total_ones b ≤ b.length }
    ensures { result ≡ frozen_mask b }
{
    let zeros = b.length - total_ones(b);
    mask_under(b.serial, 0, b.length, Some(zeros))
}
