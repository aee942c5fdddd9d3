//! The records that are passed to and from C and Rust, and the record of masks that each one is.
//!
//! A builder and a cursor are returned as a record and passed again as its numbers, which stay in registers: a record that is passed
//! from call to call through memory costs several times the call.
//!
//! `known` is a flag next to a value, since C has no `Option`. It and `masked` are numbers, since a record may be damaged and a `bool`
//! other than 0 and 1 is undefined in C and in Rust.
ghost use Rattle.std.specs.Prelude.{◌≡◌};
ghost use Rattle.capi.specs.Records.{builder_in, builder_out, mask_in, mask_out, optional_in, serial_builder_in};

use masks::bitmap::Bitmap;
use masks::builder::BitmapBuilder;

/// A mask: a span of its bytes, its zero count, and the serial of the revocation list that it was drawn up under. `zeros` is read only if
/// `known` is not 0; an unknown count is returned as 0.
#[repr(C)]
#[derive(Clone, Copy, Default)]
pub struct Mask {
    pub start: usize,
    pub length: usize,
    pub zeros: usize,
    pub known: u8,
    pub serial: u32,
}

/// A builder: its length, the word in progress and the number of ones in the finished words, which are in its buffer. It has no serial,
/// since no append changes it: the caller keeps the serial with the builder and passes it to pw_freeze and pw_into_opt_validity.
#[repr(C)]
#[derive(Clone, Copy)]
pub struct Builder {
    pub length: usize,
    pub word: u64,
    pub ones: usize,
}

/// A cursor: a span and the next place in it, counted in flags, or in words for pw_chunks_. `masked` is 0 for a cursor that
/// pw_true_idx_new makes without a mask, else 1; only pw_true_idx_next and pw_true_idx_next_chunk read it.
#[repr(C)]
#[derive(Clone, Copy, Default)]
pub struct Cursor {
    pub start: usize,
    pub length: usize,
    pub place: usize,
    pub masked: u8,
}

#[tactic(auto, unfolding(crate::specs::Records::mask_in, crate::specs::Records::count_in))]
impl From<Mask> for Bitmap {
    ghost from_gives = { λ m b. b ≡ mask_in m };

    fn from(m: Mask) -> Bitmap {
        Bitmap {
            start: m.start,
            length: m.length,
            unset: (m.known != 0).then_some(m.zeros),
            serial: m.serial,
        }
    }
}

#[tactic(auto, unfolding(crate::specs::Records::mask_out))]
impl From<Bitmap> for Mask {
    ghost from_gives = { λ b m. m ≡ mask_out b };

    fn from(b: Bitmap) -> Mask {
        Mask {
            start: b.start,
            length: b.length,
            zeros: b.unset.unwrap_or(0),
            known: b.unset.is_some().into(),
            serial: b.serial,
        }
    }
}

// Returns the mask if `present`, else none. The record of an absent mask is not read.
#[tactic(auto, unfolding(crate::specs::Records::optional_in))]
pub(crate) fn optional_in(present: bool, m: Mask) -> Option<Bitmap>
    ensures { result ≡ optional_in present m }
{
    present.then(|| m.into())
}

// Makes a builder to append to. Its serial is 0, since an export that appends is not passed one.
#[tactic(auto, unfolding(crate::specs::Records::builder_in, crate::specs::Records::serial_builder_in))]
pub(crate) fn builder_in(length: usize, word: u64, ones: usize) -> BitmapBuilder
    ensures { result ≡ builder_in length word ones }
{
    serial_builder_in(length, word, ones, 0)
}

// Makes a builder to freeze, with the serial that the caller kept.
#[tactic(auto, unfolding(crate::specs::Records::serial_builder_in))]
pub(crate) fn serial_builder_in(length: usize, word: u64, ones: usize, serial: u32) -> BitmapBuilder
    ensures { result ≡ serial_builder_in length word ones serial }
{
    BitmapBuilder {
        length,
        word,
        ones,
        serial,
    }
}

#[tactic(auto, unfolding(crate::specs::Records::builder_out))]
impl From<BitmapBuilder> for Builder {
    ghost from_gives = { λ b r. r ≡ builder_out b };

    fn from(b: BitmapBuilder) -> Builder {
        Builder {
            length: b.length,
            word: b.word,
            ones: b.ones,
        }
    }
}
