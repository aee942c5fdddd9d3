//! Exported to C and Rust: the builder. Each append writes finished words to `buf`, leaves its other bytes unchanged, and returns the
//! builder after it; pw_freeze and pw_into_opt_validity write the frozen bytes at the start of `buf`.
#![tactic(auto, using(masks::proofs::refusal::ClauseLaws::answered_back, masks::proofs::refusal::ClauseLaws::written_back), unfolding(masks::specs::equations::Freeze::freeze_bytes))]

ghost use Rattle.std.specs.Prelude.{◌≡◌};
ghost use Rattle.masks.specs.equations.Answer.{answer_back};
ghost use Rattle.masks.specs.equations.Appends.{append_answer, append_bytes, extend_bitmap, extend_constant, extend_gather};
ghost use Rattle.masks.specs.equations.Appends.{extend_opt_gather};
ghost use Rattle.masks.specs.equations.Appends.{extend_repeated, extend_slice, push_flag, push_word};
ghost use Rattle.masks.specs.Builder.{new_builder};
ghost use Rattle.masks.specs.equations.Freeze.{freeze_bytes, freeze_of, into_opt_validity_of};
ghost use Rattle.capi.specs.Answers.{as_builder, as_mask, as_validity};
ghost use Rattle.capi.specs.Records.{builder_in, builder_out, mask_in, serial_builder_in};

use crate::answers::{BuilderAnswer, MaskAnswer, ValidityAnswer};
use crate::records::{Builder, Mask, builder_in, serial_builder_in};
use masks::bitmap::Bitmap;
use masks::builder::BitmapBuilder;
use masks::refusal::Refused;

#[tactic(auto, unfolding(crate::specs::Answers::as_builder))]
impl From<Result<BitmapBuilder, Refused<BitmapBuilder>>> for BuilderAnswer {
    ghost from_gives = { λ r a. a ≡ as_builder (answer_back r) };

    fn from(r: Result<BitmapBuilder, Refused<BitmapBuilder>>) -> BuilderAnswer {
        match r {
            Ok(b) => BuilderAnswer {
                refusal: 0,
                builder: b.into(),
            },
            Err(e) => BuilderAnswer {
                refusal: e.refusal.into(),
                builder: e.state.into(),
            },
        }
    }
}

#[tactic(auto, unfolding(crate::specs::Answers::as_validity))]
impl From<Result<Option<Bitmap>, Refused<BitmapBuilder>>> for ValidityAnswer {
    ghost from_gives = { λ r a. a ≡ as_validity (answer_back r) };

    fn from(r: Result<Option<Bitmap>, Refused<BitmapBuilder>>) -> ValidityAnswer {
        match r {
            Ok(Some(m)) => ValidityAnswer {
                refusal: 0,
                present: true,
                mask: m.into(),
            },
            Ok(None) => ValidityAnswer::default(),
            Err(e) => ValidityAnswer {
                refusal: e.refusal.into(),
                ..ValidityAnswer::default()
            },
        }
    }
}

/// Returns a builder with no flags.
///
/// ```
/// assert_eq!(poruwhina::calls::builder_new().length, 0);
/// ```
#[unsafe(no_mangle)]
pub extern "C" fn pw_builder_new() -> Builder
    ensures { result ≡ builder_out new_builder }
{
    BitmapBuilder::new().into()
}

/// Appends `flag`.
///
/// ```
/// use poruwhina::calls::{builder_new, push};
///
/// assert_eq!(push(builder_new(), &mut [0; 8], true).builder.word, 1);
/// ```
#[unsafe(no_mangle)]
pub extern "C" fn pw_push(
    length: usize,
    word: u64,
    ones: usize,
    buf: &mut [u8],
    flag: bool,
) -> BuilderAnswer
    ensures answer { result ≡ as_builder (append_answer (push_flag flag) (builder_in length word ones) buf.old) }
    ensures bytes { buf.new ≡ append_bytes (push_flag flag) (builder_in length word ones) buf.old }
{
    builder_in(length, word, ones).push(buf, flag).into()
}

/// Appends `n` copies of `flag`.
///
/// ```
/// use poruwhina::calls::{builder_new, extend_constant};
///
/// let mut buf = [0; 16];
/// let sixty = extend_constant(builder_new(), &mut buf, 60, true).builder;
/// assert_eq!(extend_constant(sixty, &mut buf, 5, true).builder.word, 1);
/// assert_eq!(buf[..8], [0xFF; 8]);
/// ```
#[unsafe(no_mangle)]
pub extern "C" fn pw_extend_constant(
    length: usize,
    word: u64,
    ones: usize,
    buf: &mut [u8],
    n: usize,
    flag: bool,
) -> BuilderAnswer
    ensures answer { result ≡ as_builder (append_answer (extend_constant n flag) (builder_in length word ones) buf.old) }
    ensures bytes { buf.new ≡ append_bytes (extend_constant n flag) (builder_in length word ones) buf.old }
{
    builder_in(length, word, ones)
        .extend_constant(buf, n, flag)
        .into()
}

/// Appends the lowest `n` bits of `flags`, bit 0 first. `n` must be at most 64, and all higher bits 0.
///
/// ```
/// use poruwhina::calls::{builder_new, push_word_with_len_unchecked};
///
/// let mut buf = [0; 8];
/// assert_eq!(push_word_with_len_unchecked(builder_new(), &mut buf, 0x2D, 6).builder.length, 6);
/// assert_eq!(push_word_with_len_unchecked(builder_new(), &mut buf, 0x2D, 5).refusal, 6);
/// ```
#[unsafe(no_mangle)]
pub extern "C" fn pw_push_word_with_len_unchecked(
    length: usize,
    word: u64,
    ones: usize,
    buf: &mut [u8],
    flags: u64,
    n: usize,
) -> BuilderAnswer
    ensures answer { result ≡ as_builder (append_answer (push_word flags n) (builder_in length word ones) buf.old) }
    ensures bytes { buf.new ≡ append_bytes (push_word flags n) (builder_in length word ones) buf.old }
{
    builder_in(length, word, ones)
        .push_word_with_len_unchecked(buf, flags, n)
        .into()
}

/// Appends the `n` flags of `bytes` that start at bit `start`.
///
/// ```
/// use poruwhina::calls::{builder_new, extend_from_slice};
///
/// assert_eq!(extend_from_slice(builder_new(), &mut [0; 8], &[0x2D], 2, 4).builder.word, 0x0B);
/// ```
#[unsafe(no_mangle)]
pub extern "C" fn pw_extend_from_slice(
    length: usize,
    word: u64,
    ones: usize,
    buf: &mut [u8],
    bytes: &[u8],
    start: usize,
    n: usize,
) -> BuilderAnswer
    ensures answer { result ≡
        as_builder (append_answer (extend_slice bytes.now start n) (builder_in length word ones) buf.old) }
    ensures bytes { buf.new ≡
        append_bytes (extend_slice bytes.now start n) (builder_in length word ones) buf.old }
{
    builder_in(length, word, ones)
        .extend_from_slice(buf, bytes, start, n)
        .into()
}

/// Appends `repeats` copies of each of the `n` flags of `bytes` that start at bit `start`, one flag after the other.
///
/// ```
/// use poruwhina::calls::{builder_new, extend_each_repeated_from_slice_unchecked};
///
/// let twice = extend_each_repeated_from_slice_unchecked(builder_new(), &mut [0; 8], &[0x2D], 2, 4, 2);
/// assert_eq!(twice.builder.word, 0xCF);
/// ```
#[unsafe(no_mangle)]
pub extern "C" fn pw_extend_each_repeated_from_slice_unchecked(
    length: usize,
    word: u64,
    ones: usize,
    buf: &mut [u8],
    bytes: &[u8],
    start: usize,
    n: usize,
    repeats: usize,
) -> BuilderAnswer
    ensures answer { result ≡
        as_builder (append_answer (extend_repeated bytes.now start n repeats) (builder_in length word ones) buf.old) }
    ensures bytes { buf.new ≡
        append_bytes (extend_repeated bytes.now start n repeats) (builder_in length word ones) buf.old }
{
    builder_in(length, word, ones)
        .extend_each_repeated_from_slice_unchecked(buf, bytes, start, n, repeats)
        .into()
}

/// Appends the `n` flags of `mask` that start at its flag `start`.
///
/// ```
/// use poruwhina::calls::{builder_new, subslice_extend_from_bitmap, try_new};
///
/// let mask = try_new(&[0x2D], 1, 6).mask;
/// assert_eq!(subslice_extend_from_bitmap(builder_new(), &mut [0; 8], mask, &[0x2D], 1, 4).builder.word, 0x0B);
/// ```
#[unsafe(no_mangle)]
pub extern "C" fn pw_subslice_extend_from_bitmap(
    length: usize,
    word: u64,
    ones: usize,
    buf: &mut [u8],
    mask: Mask,
    bytes: &[u8],
    start: usize,
    n: usize,
) -> BuilderAnswer
    ensures answer { result ≡
        as_builder (append_answer (extend_bitmap (mask_in mask) bytes.now start n)
        (builder_in length word ones) buf.old) }
    ensures bytes { buf.new ≡
        append_bytes (extend_bitmap (mask_in mask) bytes.now start n) (builder_in length word ones) buf.old }
{
    builder_in(length, word, ones)
        .subslice_extend_from_bitmap(buf, mask.into(), bytes, start, n)
        .into()
}

/// Appends, for each index in `idxs`, that flag of the `n` flags of `bytes` that start at bit `start`. Each index must be below `n`.
///
/// ```
/// use poruwhina::calls::{builder_new, gather_extend_from_slice};
///
/// assert_eq!(gather_extend_from_slice(builder_new(), &mut [0; 8], &[0x2D], 0, 6, &[5, 4, 0]).builder.word, 0x05);
/// assert_eq!(gather_extend_from_slice(builder_new(), &mut [0; 8], &[0x2D], 0, 6, &[5, 6, 0]).refusal, 6);
/// ```
#[unsafe(no_mangle)]
pub extern "C" fn pw_gather_extend_from_slice(
    length: usize,
    word: u64,
    ones: usize,
    buf: &mut [u8],
    bytes: &[u8],
    start: usize,
    n: usize,
    idxs: &[u32],
) -> BuilderAnswer
    ensures answer { result ≡
        as_builder (append_answer (extend_gather bytes.now start n idxs.now)
        (builder_in length word ones) buf.old) }
    ensures bytes { buf.new ≡
        append_bytes (extend_gather bytes.now start n idxs.now) (builder_in length word ones) buf.old }
{
    builder_in(length, word, ones)
        .gather_extend_from_slice(buf, bytes, start, n, idxs)
        .into()
}

/// Appends, for each index in `idxs`, that flag of the `n` flags of `bytes` that start at bit `start`, or 0 if the index is `n` or more.
///
/// ```
/// use poruwhina::calls::{builder_new, opt_gather_extend_from_slice};
///
/// assert_eq!(opt_gather_extend_from_slice(builder_new(), &mut [0; 8], &[0x2D], 0, 6, &[5, 6, 0]).builder.word, 0x05);
/// ```
#[unsafe(no_mangle)]
pub extern "C" fn pw_opt_gather_extend_from_slice(
    length: usize,
    word: u64,
    ones: usize,
    buf: &mut [u8],
    bytes: &[u8],
    start: usize,
    n: usize,
    idxs: &[u32],
) -> BuilderAnswer
    ensures answer { result ≡
        as_builder (append_answer (extend_opt_gather bytes.now start n idxs.now) (builder_in length word ones)
        buf.old) }
    ensures bytes { buf.new ≡
        append_bytes (extend_opt_gather bytes.now start n idxs.now) (builder_in length word ones) buf.old }
{
    builder_in(length, word, ones)
        .opt_gather_extend_from_slice(buf, bytes, start, n, idxs)
        .into()
}

/// Writes the frozen bytes of the builder's flags at the start of `buf` and returns the mask over them, with its zero count known from
/// `ones` and `word`, and with the builder's `serial`, which the caller kept. The builder is not returned: it does not change.
///
/// ```
/// use poruwhina::calls::{builder_new, freeze, push_word_with_len_unchecked};
///
/// let mut buf = [0xFF; 8];
/// let mask = freeze(push_word_with_len_unchecked(builder_new(), &mut buf, 0x2D, 6).builder, &mut buf, 0).mask;
/// assert_eq!((mask.length, mask.zeros, mask.known), (6, 2, 1));
/// assert_eq!(buf, [0x2D, 0, 0, 0, 0, 0, 0, 0]);
/// ```
#[unsafe(no_mangle)]
pub extern "C" fn pw_freeze(
    length: usize,
    word: u64,
    ones: usize,
    buf: &mut [u8],
    serial: u32,
) -> MaskAnswer
    ensures answer { result ≡ as_mask (freeze_of (serial_builder_in length word ones serial) buf.old) }
    ensures bytes { buf.new ≡ freeze_bytes (serial_builder_in length word ones serial) buf.old }
{
    serial_builder_in(length, word, ones, serial)
        .freeze(buf)
        .into()
}

/// Writes the frozen bytes of the builder's flags at the start of `buf` and returns the mask that pw_freeze returns, or no mask if all
/// flags are set, also if there are no flags. As in Arrow, no mask means all ones here; in pw_may_reassign no permission mask means no
/// truck: end the builder of a permission mask with pw_freeze.
///
/// ```
/// use poruwhina::calls::{builder_new, extend_constant, into_opt_validity};
///
/// let mut buf = [0; 8];
/// let ones = extend_constant(builder_new(), &mut buf, 6, true).builder;
/// assert!(!into_opt_validity(ones, &mut buf, 0).present);
/// let mixed = extend_constant(ones, &mut buf, 1, false).builder;
/// assert!(into_opt_validity(mixed, &mut buf, 0).present);
/// ```
#[unsafe(no_mangle)]
pub extern "C" fn pw_into_opt_validity(
    length: usize,
    word: u64,
    ones: usize,
    buf: &mut [u8],
    serial: u32,
) -> ValidityAnswer
    ensures answer { result ≡ as_validity (into_opt_validity_of (serial_builder_in length word ones serial) buf.old) }
    ensures bytes { buf.new ≡ freeze_bytes (serial_builder_in length word ones serial) buf.old }
{
    serial_builder_in(length, word, ones, serial)
        .into_opt_validity(buf)
        .into()
}
