//! Exported to C and Rust: the words of a span, and the flags after the last whole one.
#![tactic(auto, using(masks::proofs::refusal::ClauseLaws::answered, masks::proofs::refusal::ClauseLaws::answered_step, masks::proofs::refusal::ClauseLaws::answered_parts), unfolding(crate::specs::Answers::as_word, masks::specs::equations::Chunks::new_chunks, masks::specs::equations::Chunks::next_chunk, masks::specs::equations::Chunks::chunks_remainder))]

ghost use Rattle.std.specs.Prelude.{◌≡◌};
ghost use Rattle.masks.specs.Chunks.{chunks_at};
ghost use Rattle.masks.specs.equations.Chunks.{chunks_remainder, new_chunks, next_chunk};
ghost use Rattle.capi.specs.Answers.{as_cursor, as_remainder, as_word};
ghost use Rattle.capi.specs.Records.{chunks_out, chunks_place};

use crate::answers::{CursorAnswer, StepAnswer};
use crate::walks::remainder_out;
use masks::chunks::{BitChunks, BitChunksExact};

fn chunks_in(start: usize, length: usize, place: usize) -> BitChunks
    ensures { result ≡ chunks_at start length place }
{
    BitChunks {
        start,
        length,
        place,
    }
}

/// Returns a cursor at the first word of a span.
///
/// ```
/// let cursor = poruwhina::calls::chunks_new(&[0xFF; 9], 3, 69).cursor;
/// assert_eq!((cursor.start, cursor.length, cursor.place), (3, 69, 0));
/// ```
#[unsafe(no_mangle)]
pub extern "C" fn pw_chunks_new(bytes: &[u8], start: usize, length: usize) -> CursorAnswer
    ensures { result ≡ as_cursor chunks_out (new_chunks bytes.now start length) }
{
    BitChunks::new(bytes, start, length).into()
}

/// Returns a cursor at the first word of the first `length` flags of `bytes`.
///
/// ```
/// use poruwhina::calls::{chunks_new, chunks_new_exact};
///
/// assert_eq!(chunks_new_exact(&[0xFF; 9], 69), chunks_new(&[0xFF; 9], 0, 69));
/// ```
#[unsafe(no_mangle)]
pub extern "C" fn pw_chunks_new_exact(bytes: &[u8], length: usize) -> CursorAnswer
    ensures { result ≡ as_cursor chunks_out (new_chunks bytes.now 0 length) }
{
    BitChunksExact::new(bytes, length).into()
}

/// Returns the next word in `value` and moves the cursor one word on. After the last whole word `found` is false and the cursor does not
/// move.
///
/// ```
/// use poruwhina::calls::{chunks_new, chunks_next};
///
/// let bytes = [0xFF; 9];
/// let first = chunks_next(chunks_new(&bytes, 3, 69).cursor, &bytes);
/// assert_eq!((first.found, first.value), (true, u64::MAX));
/// assert!(!chunks_next(first.cursor, &bytes).found);
/// ```
#[unsafe(no_mangle)]
pub extern "C" fn pw_chunks_next(
    start: usize,
    length: usize,
    place: usize,
    bytes: &[u8],
) -> StepAnswer
    ensures { result ≡ as_word chunks_place (next_chunk (chunks_at start length place) bytes.now) }
{
    chunks_in(start, length, place).next(bytes).into()
}

/// Returns the last length mod 64 flags of the span as a word in `value`, zero above them, and their number in `count`. `found` is true.
/// The result does not depend on the place, and the cursor does not move.
///
/// ```
/// use poruwhina::calls::{chunks_new, chunks_remainder};
///
/// let bytes = [0xFF; 9];
/// let rest = chunks_remainder(chunks_new(&bytes, 3, 69).cursor, &bytes);
/// assert_eq!((rest.value, rest.count), (0b11111, 5));
/// ```
#[unsafe(no_mangle)]
pub extern "C" fn pw_chunks_remainder(
    start: usize,
    length: usize,
    place: usize,
    bytes: &[u8],
) -> StepAnswer
    ensures { result ≡ as_remainder place (chunks_remainder (chunks_at start length place) bytes.now) }
{
    remainder_out(place, chunks_in(start, length, place).remainder(bytes))
}
