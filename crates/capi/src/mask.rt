//! Exported to C and Rust: the calls that make, slice, count and compare masks.
#![tactic(auto, using(masks::proofs::refusal::ClauseLaws::answered, masks::proofs::refusal::ClauseLaws::answered_back, masks::proofs::refusal::ClauseLaws::answered_recounted, masks::proofs::refusal::ClauseLaws::written), unfolding(masks::specs::equations::Mask::try_new_of, masks::specs::equations::Mask::slice_of, masks::specs::equations::Mask::new_zeroed_of, masks::specs::equations::Mask::new_zeroed_bytes, masks::specs::equations::Compare::common_of, masks::specs::equations::Compare::edges_of, masks::specs::equations::Compare::eq_of))]

ghost use Rattle.std.specs.Prelude.{◌≡◌};
ghost use Rattle.masks.specs.equations.Answer.{answer_back};
ghost use Rattle.masks.specs.equations.Compare.{common_of, edges_of, eq_of};
ghost use Rattle.masks.specs.Mask.{empty_mask};
ghost use Rattle.masks.specs.equations.Mask.{new_zeroed_bytes, new_zeroed_of, slice_of, try_new_of};
ghost use Rattle.masks.specs.equations.Mask.{unset_bits_of};
ghost use Rattle.capi.specs.Answers.{as_flag, as_mask, as_number, as_same_mask, as_zeros};
ghost use Rattle.capi.specs.Records.{mask_in, mask_out};

use crate::answers::{FlagAnswer, MaskAnswer, NumberAnswer, ZerosAnswer};
use crate::records::Mask;
use masks::bitmap::{Bitmap, Recounted};
use masks::compare::{eq, num_edges, num_intersections_with};
use masks::refusal::Refused;

// Returns the answer of a slice or of a row of a grid; a refused one has `came`, the export's own record, with every number unchanged.
// The `Bitmap` in `Refused` will not do: it has lost `zeros` if `known` is 0. Since `came` is a second argument, this function and the
// next are no `From`.
#[tactic(auto, unfolding(crate::specs::Answers::as_same_mask))]
pub(crate) fn sliced_out(came: Mask, r: Result<Bitmap, Refused<Bitmap>>) -> MaskAnswer
    ensures { result ≡ as_same_mask came (answer_back r) }
{
    match r {
        Ok(m) => MaskAnswer {
            refusal: 0,
            mask: m.into(),
        },
        Err(e) => MaskAnswer {
            refusal: e.refusal.into(),
            mask: came,
        },
    }
}

// Returns the answer of a count of zeros; a refused one has `came`, the export's own record, with every number unchanged.
#[tactic(auto, unfolding(crate::specs::Answers::as_zeros))]
fn counting_out(came: Mask, r: Result<Recounted, Refused<Bitmap>>) -> ZerosAnswer
    ensures { result ≡ as_zeros came (answer_back r) }
{
    match r {
        Ok(r) => ZerosAnswer {
            refusal: 0,
            zeros: r.zeros,
            mask: r.mask.into(),
        },
        Err(e) => ZerosAnswer {
            refusal: e.refusal.into(),
            zeros: 0,
            mask: came,
        },
    }
}

/// Returns the mask of no flags, its zero count known as 0.
///
/// ```
/// assert_eq!(poruwhina::calls::bitmap_new().known, 1);
/// ```
#[unsafe(no_mangle)]
pub extern "C" fn pw_bitmap_new() -> Mask
    ensures { result ≡ mask_out empty_mask }
{
    Bitmap::new().into()
}

/// Writes the frozen bytes of `length` zeros at the start of `out` and returns the mask over them, its zero count known.
///
/// ```
/// let mut out = [0xFF; 16];
/// let mask = poruwhina::calls::new_zeroed(6, &mut out).mask;
/// assert_eq!((mask.length, mask.zeros), (6, 6));
/// assert_eq!((out[..8].to_vec(), out[8]), (vec![0; 8], 0xFF));
/// ```
#[unsafe(no_mangle)]
pub extern "C" fn pw_new_zeroed(length: usize, out: &mut [u8]) -> MaskAnswer
    ensures answer { result ≡ as_mask (new_zeroed_of length out.old) }
    ensures bytes { out.new ≡ new_zeroed_bytes length out.old }
{
    Bitmap::new_zeroed(length, out).into()
}

/// Returns the mask of the `length` flags of `bytes` that start at bit `start`. Its zero count is unknown, or known as 0 if `length` is
/// 0.
///
/// ```
/// use poruwhina::calls::try_new;
///
/// assert_eq!(try_new(&[0x2D], 2, 6).mask.known, 0);
/// assert_eq!(try_new(&[0x2D], 2, 7).refusal, 2);
/// ```
#[unsafe(no_mangle)]
pub extern "C" fn pw_try_new(bytes: &[u8], start: usize, length: usize) -> MaskAnswer
    ensures { result ≡ as_mask (try_new_of bytes.now start length) }
{
    Bitmap::try_new(bytes, start, length).into()
}

/// Returns the mask of the `length` flags of `mask` that start at its flag `offset`, over the same bytes. Its zero count may be unknown
/// although that of `mask` is known.
///
/// ```
/// use poruwhina::calls::{slice, try_new};
///
/// let mask = try_new(&[0x2D], 0, 6).mask;
/// assert_eq!(slice(mask, &[0x2D], 2, 4).mask.start, 2);
/// assert_eq!(slice(mask, &[0x2D], 2, 5).refusal, 6);
/// ```
#[unsafe(no_mangle)]
pub extern "C" fn pw_slice(mask: Mask, bytes: &[u8], offset: usize, length: usize) -> MaskAnswer
    ensures { result ≡ as_same_mask mask (slice_of (mask_in mask) bytes.now offset length) }
{
    sliced_out(mask, Bitmap::from(mask).slice(bytes, offset, length))
}

/// Returns the number of zeros of `mask`, and the mask with that count stored.
///
/// ```
/// use poruwhina::calls::{try_new, unset_bits};
///
/// assert_eq!(unset_bits(try_new(&[0x2D], 2, 4).mask, &[0x2D]).zeros, 1);
/// ```
#[unsafe(no_mangle)]
pub extern "C" fn pw_unset_bits(mask: Mask, bytes: &[u8]) -> ZerosAnswer
    ensures { result ≡ as_zeros mask (unset_bits_of (mask_in mask) bytes.now) }
{
    counting_out(mask, Bitmap::from(mask).unset_bits(bytes))
}

/// Returns whether two masks have equal lengths and equal flags. Unequal lengths are not refused, and serials are ignored.
///
/// ```
/// use poruwhina::calls::{eq, try_new};
///
/// let (a, b) = (try_new(&[0x2D], 2, 4).mask, try_new(&[0x0B], 0, 4).mask);
/// assert!(eq(a, &[0x2D], b, &[0x0B]).value);
/// ```
#[unsafe(no_mangle)]
pub extern "C" fn pw_eq(lhs: Mask, lhs_bytes: &[u8], rhs: Mask, rhs_bytes: &[u8]) -> FlagAnswer
    ensures { result ≡ as_flag (eq_of (mask_in lhs) lhs_bytes.now (mask_in rhs) rhs_bytes.now) }
{
    eq(lhs.into(), lhs_bytes, rhs.into(), rhs_bytes).into()
}

/// Counts the flags of a mask that differ from the next flag.
///
/// ```
/// use poruwhina::calls::{num_edges, try_new};
///
/// assert_eq!(num_edges(try_new(&[0x2D], 0, 6).mask, &[0x2D]).value, 4);
/// ```
#[unsafe(no_mangle)]
pub extern "C" fn pw_num_edges(mask: Mask, bytes: &[u8]) -> NumberAnswer
    ensures { result ≡ as_number (edges_of (mask_in mask) bytes.now) }
{
    num_edges(mask.into(), bytes).into()
}

/// Counts the flags that are set in both of two masks of equal lengths.
///
/// ```
/// use poruwhina::calls::{num_intersections_with, try_new};
///
/// let mask = try_new(&[0], 0, 6).mask;
/// assert_eq!(num_intersections_with(mask, &[0x2D], mask, &[0x0F]).value, 3);
/// ```
#[unsafe(no_mangle)]
pub extern "C" fn pw_num_intersections_with(
    lhs: Mask,
    lhs_bytes: &[u8],
    rhs: Mask,
    rhs_bytes: &[u8],
) -> NumberAnswer
    ensures { result ≡ as_number (common_of (mask_in lhs) lhs_bytes.now (mask_in rhs) rhs_bytes.now) }
{
    num_intersections_with(lhs.into(), lhs_bytes, rhs.into(), rhs_bytes).into()
}
