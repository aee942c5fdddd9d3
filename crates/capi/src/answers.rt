//! The records in which answers are passed to C and Rust. `refusal` is 0, or the number of the check that failed. On refusal the fields for
//! what the call would have changed (a mask, a builder, a cursor's place, the cursor of an offer, a window's numbers) hold it unchanged;
//! every other field is 0. The answers, and the parameters of the exports, have a number for a refusal and a flag next to a value, since C
//! has neither `Result` nor `Option`.
//!
//! The `From` of most answers, here and next to exports, has one shape: a value goes into its fields, a refusal into a record of zeros. One
//! generic impl cannot name the fields, since C has no generics and each answer is a record of its own. Over a trait each record would
//! still write both arms, as two functions.
ghost use Rattle.std.specs.Prelude.{◌≡◌};
ghost use Rattle.masks.specs.equations.Answer.{answer, answer_back};
ghost use Rattle.capi.specs.Answers.{as_flag, as_mask, as_number};

use crate::records::{Builder, Cursor, Mask};
use masks::bitmap::Bitmap;
use masks::refusal::{Refusal, Refused};

/// A number.
#[repr(C)]
#[derive(Clone, Copy, Default)]
pub struct NumberAnswer {
    pub refusal: u8,
    pub value: usize,
}

/// A flag, or the answer yes or no.
#[repr(C)]
#[derive(Clone, Copy, Default)]
pub struct FlagAnswer {
    pub refusal: u8,
    pub value: bool,
}

/// A position, if `found`; else `value` is 0.
#[repr(C)]
#[derive(Clone, Copy, Default)]
pub struct PositionAnswer {
    pub refusal: u8,
    pub found: bool,
    pub value: usize,
}

/// The position of a set bit of a word in `value`, if `found`; else the number of set bits of the word in `ones`.
#[repr(C)]
#[derive(Clone, Copy, Default)]
pub struct NthAnswer {
    pub refusal: u8,
    pub found: bool,
    pub value: u32,
    pub ones: u32,
}

/// A position, if `found`, and the number of windows of 32 flags read.
#[repr(C)]
#[derive(Clone, Copy, Default)]
pub struct NextAnswer {
    pub refusal: u8,
    pub found: bool,
    pub position: usize,
    pub windows: usize,
}

/// A truck, if `found`; the cursor for the next call; and the number of windows of 32 flags read.
#[repr(C)]
#[derive(Clone, Copy, Default)]
pub struct OfferAnswer {
    pub refusal: u8,
    pub found: bool,
    pub truck: usize,
    pub cursor: usize,
    pub windows: usize,
}

/// A mask.
#[repr(C)]
#[derive(Clone, Copy, Default)]
pub struct MaskAnswer {
    pub refusal: u8,
    pub mask: Mask,
}

/// A mask, if `present`. If `present` is false and `refusal` is 0, all flags are set, or there are none.
#[repr(C)]
#[derive(Clone, Copy, Default)]
pub struct ValidityAnswer {
    pub refusal: u8,
    pub present: bool,
    pub mask: Mask,
}

/// The number of zeros of a mask, and the mask with that count stored.
#[repr(C)]
#[derive(Clone, Copy)]
pub struct ZerosAnswer {
    pub refusal: u8,
    pub zeros: usize,
    pub mask: Mask,
}

/// The winner of two masks. It is the second one if `second` is true, else the first. Its bytes are those of the slice passed with it that
/// are numbered `from` up to, not including, `to`; `mask` is its record over them. On refusal they are an empty part of the first slice.
#[repr(C)]
#[derive(Clone, Copy, Default)]
pub struct PartAnswer {
    pub refusal: u8,
    pub second: bool,
    pub from: usize,
    pub to: usize,
    pub mask: Mask,
}

/// The builder after the append, unchanged on refusal.
#[repr(C)]
#[derive(Clone, Copy)]
pub struct BuilderAnswer {
    pub refusal: u8,
    pub builder: Builder,
}

/// A new cursor.
#[repr(C)]
#[derive(Clone, Copy, Default)]
pub struct CursorAnswer {
    pub refusal: u8,
    pub cursor: Cursor,
}

/// The item that a cursor returns, if `found`, and the cursor's new place; its start and length do not change. `value` is a word, a run's
/// start, a flag as 0 or 1, or a position; `count` is a run's length, the number of flags of a remainder, of flags counted or of
/// positions written.
#[repr(C)]
#[derive(Clone, Copy, Default)]
pub struct StepAnswer {
    pub refusal: u8,
    pub found: bool,
    pub value: u64,
    pub count: usize,
    pub place: usize,
}

/// A span split in three: the lengths are in flags, `bulk_start` is a byte of the buffer, `bulk_len` is a number of words.
#[repr(C)]
#[derive(Clone, Copy, Default)]
pub struct SplitAnswer {
    pub refusal: u8,
    pub prefix: u64,
    pub prefix_len: usize,
    pub bulk_start: usize,
    pub bulk_len: usize,
    pub suffix: u64,
    pub suffix_len: usize,
}

/// Two spans.
#[repr(C)]
#[derive(Clone, Copy, Default)]
pub struct SpansAnswer {
    pub refusal: u8,
    pub first_start: usize,
    pub first_length: usize,
    pub second_start: usize,
    pub second_length: usize,
}

/// A window of minutes without its arrays: the place of its next word, the number of words that it has, and its width.
#[repr(C)]
#[derive(Clone, Copy, Default)]
pub struct WindowAnswer {
    pub refusal: u8,
    pub place: usize,
    pub fill: usize,
    pub width: usize,
}

#[tactic(auto, unfolding(crate::specs::Answers::as_number))]
impl From<Result<usize, Refusal>> for NumberAnswer {
    ghost from_gives = { λ r a. a ≡ as_number (answer r) };

    fn from(r: Result<usize, Refusal>) -> NumberAnswer {
        match r {
            Ok(value) => NumberAnswer { refusal: 0, value },
            Err(e) => NumberAnswer {
                refusal: e.into(),
                ..NumberAnswer::default()
            },
        }
    }
}

#[tactic(auto, unfolding(crate::specs::Answers::as_flag))]
impl From<Result<bool, Refusal>> for FlagAnswer {
    ghost from_gives = { λ r a. a ≡ as_flag (answer r) };

    fn from(r: Result<bool, Refusal>) -> FlagAnswer {
        match r {
            Ok(value) => FlagAnswer { refusal: 0, value },
            Err(e) => FlagAnswer {
                refusal: e.into(),
                ..FlagAnswer::default()
            },
        }
    }
}

#[tactic(auto, unfolding(crate::specs::Answers::as_mask))]
impl From<Result<Bitmap, Refusal>> for MaskAnswer {
    ghost from_gives = { λ r a. a ≡ as_mask (answer r) };

    fn from(r: Result<Bitmap, Refusal>) -> MaskAnswer {
        match r {
            Ok(m) => MaskAnswer {
                refusal: 0,
                mask: m.into(),
            },
            Err(e) => MaskAnswer {
                refusal: e.into(),
                ..MaskAnswer::default()
            },
        }
    }
}

// For a call whose refusal has the caller's record: the answer leaves it out, since the caller has it.
#[tactic(auto, unfolding(crate::specs::Answers::as_mask))]
impl<S: Copy> From<Result<Bitmap, Refused<S>>> for MaskAnswer {
    ghost from_gives = { λ r a. a ≡ as_mask (answer_back r) };

    fn from(r: Result<Bitmap, Refused<S>>) -> MaskAnswer {
        r.map_err(|e| e.refusal).into()
    }
}
