//! Exported to C and Rust: the cursors over runs, flags and positions. A step that finds nothing moves the cursor to the length.
#![tactic(auto, using(masks::proofs::refusal::ClauseLaws::answered, masks::proofs::refusal::ClauseLaws::answered_step, masks::proofs::refusal::ClauseLaws::answered_parts, masks::proofs::refusal::ClauseLaws::written_back, masks::proofs::refusal::SpanClauses::iter_made), unfolding(crate::specs::Answers::as_bit, crate::specs::Answers::as_run, crate::specs::Answers::as_word, crate::specs::Records::true_in, masks::specs::equations::Iterator::nth_flag, masks::specs::equations::Iterator::take_leading, masks::specs::equations::Positions::next_positions, masks::specs::equations::Positions::positions_over, masks::specs::equations::SliceIterator::new_slices, masks::specs::equations::SliceIterator::next_slice, masks::specs::equations::TrueIdx::new_true, masks::specs::equations::TrueIdx::next_true))]

ghost use Rattle.std.specs.Prelude.{◌≡◌, true, false, length as list_length};
ghost use Rattle.masks.specs.Iterator.{iter_at};
ghost use Rattle.masks.specs.equations.Iterator.{new_iter, nth_flag, take_leading};
ghost use Rattle.masks.specs.equations.Positions.{positions_over, next_positions};
ghost use Rattle.masks.specs.SliceIterator.{slices_at};
ghost use Rattle.masks.specs.equations.SliceIterator.{new_slices, next_slice};
ghost use Rattle.masks.specs.equations.TrueIdx.{new_true, next_true};
ghost use Rattle.capi.specs.Answers.{as_bit, as_cursor, as_run, as_taken, as_word};
ghost use Rattle.capi.specs.Records.{iter_out, iter_place, mask_in, optional_in, slices_out, slices_place, true_in, true_out, true_place};

use crate::answers::{CursorAnswer, StepAnswer};
use crate::records::{Mask, optional_in};
use masks::iterator::BitmapIter;
use masks::slice_iterator::SlicesIterator;
use masks::true_idx::TrueIdxIter;

// ---- runs

/// Returns a cursor before the first run of ones of a mask.
///
/// ```
/// use poruwhina::calls::{slices_new, try_new};
///
/// let mask = try_new(&[0x2D], 0, 6).mask;
/// assert_eq!(slices_new(mask, &[0x2D]).cursor.length, 6);
/// assert_eq!(slices_new(mask, &[]).refusal, 2);
/// ```
#[unsafe(no_mangle)]
pub extern "C" fn pw_slices_new(mask: Mask, bytes: &[u8]) -> CursorAnswer
    ensures { result ≡ as_cursor slices_out (new_slices (mask_in mask) bytes.now) }
{
    SlicesIterator::new(mask.into(), bytes).into()
}

/// Returns the next run of ones, its start in `value` and its length in `count`, and moves the cursor past it. If there is no further
/// run, `found` is false and the place is the length.
///
/// ```
/// use poruwhina::calls::{slices_new, slices_next, try_new};
///
/// let bytes = [0x2D];
/// let first = slices_next(slices_new(try_new(&bytes, 0, 6).mask, &bytes).cursor, &bytes);
/// let second = slices_next(first.cursor, &bytes);
/// assert_eq!((first.value, first.count), (0, 1));
/// assert_eq!((second.value, second.count), (2, 2));
/// ```
#[unsafe(no_mangle)]
pub extern "C" fn pw_slices_next(
    start: usize,
    length: usize,
    place: usize,
    bytes: &[u8],
) -> StepAnswer
    ensures { result ≡ as_run slices_place (next_slice (slices_at start length place) bytes.now) }
{
    SlicesIterator {
        start,
        length,
        place,
    }
    .next(bytes)
    .into()
}

// ---- flags

fn iter_in(start: usize, length: usize, place: usize) -> BitmapIter
    ensures { result ≡ iter_at start length place }
{
    BitmapIter {
        start,
        length,
        place,
    }
}

/// Returns a cursor before the first flag of a span. With length 0 its start, length and place are 0, without any check.
///
/// ```
/// use poruwhina::calls::iter_new;
///
/// assert_eq!(iter_new(&[0x2D], 2, 4).cursor.start, 2);
/// // No flags: the answer comes before any check.
/// assert_eq!(iter_new(&[], usize::MAX, 0).cursor.start, 0);
/// ```
#[unsafe(no_mangle)]
pub extern "C" fn pw_iter_new(bytes: &[u8], start: usize, length: usize) -> CursorAnswer
    ensures { result ≡ as_cursor iter_out (new_iter bytes.now start length) }
{
    BitmapIter::new(bytes, start, length).into()
}

/// Returns the next flag, 0 or 1, in `value` and moves the cursor past it. At the end `found` is false and the cursor does not move.
///
/// ```
/// use poruwhina::calls::{iter_new, iter_next};
///
/// let step = iter_next(iter_new(&[0x2D], 0, 6).cursor, &[0x2D]);
/// assert_eq!((step.found, step.value, step.cursor.place), (true, 1, 1));
/// ```
#[unsafe(no_mangle)]
pub extern "C" fn pw_iter_next(
    start: usize,
    length: usize,
    place: usize,
    bytes: &[u8],
) -> StepAnswer
    ensures { result ≡ as_bit iter_place (nth_flag (iter_at start length place) bytes.now 0) }
{
    iter_in(start, length, place).next(bytes).into()
}

/// Skips `n` flags, returns the following one, 0 or 1, in `value` and moves the cursor past it. If there is no such flag, `found` is
/// false and the place is the length.
///
/// ```
/// use poruwhina::calls::{iter_new, iter_nth};
///
/// let cursor = iter_new(&[0x2D], 0, 6).cursor;
/// assert_eq!(iter_nth(cursor, &[0x2D], 4).value, 0);
/// assert!(!iter_nth(cursor, &[0x2D], usize::MAX).found);
/// ```
#[unsafe(no_mangle)]
pub extern "C" fn pw_iter_nth(
    start: usize,
    length: usize,
    place: usize,
    bytes: &[u8],
    n: usize,
) -> StepAnswer
    ensures { result ≡ as_bit iter_place (nth_flag (iter_at start length place) bytes.now n) }
{
    iter_in(start, length, place).nth(bytes, n).into()
}

/// Counts the ones from the cursor up to the next zero, or to the end, returns their number in `count` and moves the cursor past them.
/// `found` is true, also if `count` is 0.
///
/// ```
/// use poruwhina::calls::{iter_new, take_leading_ones};
///
/// let taken = take_leading_ones(iter_new(&[0x07], 0, 6).cursor, &[0x07]);
/// assert_eq!((taken.count, taken.cursor.place), (3, 3));
/// ```
#[unsafe(no_mangle)]
pub extern "C" fn pw_take_leading_ones(
    start: usize,
    length: usize,
    place: usize,
    bytes: &[u8],
) -> StepAnswer
    ensures { result ≡ as_taken iter_place (take_leading true (iter_at start length place) bytes.now) }
{
    iter_in(start, length, place)
        .take_leading_ones(bytes)
        .into()
}

/// Counts the zeros from the cursor up to the next one, or to the end, returns their number in `count` and moves the cursor past them.
/// `found` is true, also if `count` is 0.
///
/// ```
/// use poruwhina::calls::{iter_new, take_leading_zeros};
///
/// let taken = take_leading_zeros(iter_new(&[0x38], 0, 6).cursor, &[0x38]);
/// assert_eq!((taken.count, taken.cursor.place), (3, 3));
/// ```
#[unsafe(no_mangle)]
pub extern "C" fn pw_take_leading_zeros(
    start: usize,
    length: usize,
    place: usize,
    bytes: &[u8],
) -> StepAnswer
    ensures { result ≡ as_taken iter_place (take_leading false (iter_at start length place) bytes.now) }
{
    iter_in(start, length, place)
        .take_leading_zeros(bytes)
        .into()
}

// ---- positions of ones

fn true_in(start: usize, length: usize, place: usize, masked: u8) -> TrueIdxIter
    ensures { result ≡ true_in start length place masked }
{
    TrueIdxIter {
        start,
        length,
        place,
        masked: masked != 0,
    }
}

/// Returns a cursor before the first position of a one in a mask of `length` flags. If `present` is false there is no mask: its record
/// and bytes are not read, the cursor has every position below `length`, as in Arrow, and 1 is the only refusal. In pw_may_reassign no
/// permission mask means no truck.
///
/// ```
/// use poruwhina::calls::{bitmap_new, true_idx_new};
///
/// assert_eq!(true_idx_new(3, false, bitmap_new(), &[]).cursor.masked, 0);
/// assert_eq!(true_idx_new(3, true, bitmap_new(), &[]).refusal, 5);
/// ```
#[unsafe(no_mangle)]
pub extern "C" fn pw_true_idx_new(
    length: usize,
    present: bool,
    mask: Mask,
    bytes: &[u8],
) -> CursorAnswer
    ensures { result ≡ as_cursor true_out (new_true length (optional_in present mask) bytes.now) }
{
    TrueIdxIter::new(length, optional_in(present, mask), bytes).into()
}

/// Returns the next position of a one in `value` and moves the cursor past it. If there is no further one, `found` is false and the place
/// is the length. If `masked` is 0 there is no mask: every position is returned, and refusal 2 does not occur.
///
/// ```
/// use poruwhina::calls::{true_idx_new, true_idx_next, try_new};
///
/// let mask = try_new(&[0x2C], 0, 6).mask;
/// let step = true_idx_next(true_idx_new(6, true, mask, &[0x2C]).cursor, &[0x2C]);
/// assert_eq!((step.found, step.value), (true, 2));
/// ```
#[unsafe(no_mangle)]
pub extern "C" fn pw_true_idx_next(
    start: usize,
    length: usize,
    place: usize,
    masked: u8,
    bytes: &[u8],
) -> StepAnswer
    ensures { result ≡ as_word true_place (next_true (true_in start length place masked) bytes.now) }
{
    true_in(start, length, place, masked).next(bytes).into()
}

/// Writes the next positions of ones at the start of `out`, as many as there are and it has room for, and returns their number in
/// `count`. They are what as many calls of pw_true_idx_next return; the rest of `out` is unchanged. The cursor moves past the last of
/// them, or to the length if `out` is not filled; if `out` is empty it does not move. `found` is true. If `masked` is 0 there is no mask:
/// every position is written, and refusal 2 does not occur.
///
/// ```
/// use poruwhina::calls::{true_idx_new, true_idx_next_chunk, try_new};
///
/// let cursor = true_idx_new(6, true, try_new(&[0x2D], 0, 6).mask, &[0x2D]).cursor;
/// let mut out = [9; 3];
/// let three = true_idx_next_chunk(cursor, &[0x2D], &mut out);
/// assert_eq!((three.count, three.cursor.place, out), (3, 4, [0, 2, 3]));
/// let rest = true_idx_next_chunk(three.cursor, &[0x2D], &mut out);
/// assert_eq!((rest.count, rest.cursor.place, out), (1, 6, [5, 2, 3]));
/// ```
#[unsafe(no_mangle)]
pub extern "C" fn pw_true_idx_next_chunk(
    start: usize,
    length: usize,
    place: usize,
    masked: u8,
    bytes: &[u8],
    out: &mut [u32],
) -> StepAnswer
    ensures answer { result ≡
        as_taken true_place (next_positions (true_in start length place masked) bytes.now (list_length out.old)) }
    ensures positions { out.new ≡
        positions_over (true_in start length place masked) bytes.now out.old }
{
    true_in(start, length, place, masked)
        .next_chunk(bytes, out)
        .into()
}
