//! Exported to C and Rust: the searches for the n-th set flag of a span.
#![tactic(auto, using(masks::proofs::refusal::ClauseLaws::answered), unfolding(masks::specs::equations::Search::search_back, masks::specs::equations::Search::search_from))]

ghost use Rattle.std.specs.Prelude.{◌≡◌};
ghost use Rattle.masks.specs.equations.Answer.{answer};
ghost use Rattle.masks.specs.equations.Search.{search_back, search_from};
ghost use Rattle.capi.specs.Answers.{as_position};

use crate::answers::PositionAnswer;
use masks::bitmask::{nth_set_bit_idx, nth_set_bit_idx_rev};
use masks::refusal::Refusal;

#[tactic(auto, unfolding(crate::specs::Answers::as_position))]
impl From<Result<Option<usize>, Refusal>> for PositionAnswer {
    ghost from_gives = { λ r a. a ≡ as_position (answer r) };

    fn from(r: Result<Option<usize>, Refusal>) -> PositionAnswer {
        match r {
            Ok(p) => PositionAnswer {
                refusal: 0,
                found: p.is_some(),
                value: p.unwrap_or(0),
            },
            Err(e) => PositionAnswer {
                refusal: e.into(),
                ..PositionAnswer::default()
            },
        }
    }
}

/// Returns the position of the n-th set flag at or after `from`, counting from 0. `found` is false if at most `n` flags are set there.
/// `from` may exceed the length.
///
/// ```
/// use poruwhina::calls::nth_set_bit_idx;
///
/// assert_eq!(nth_set_bit_idx(&[0x2D], 0, 6, 2, 0).value, 3);
/// assert!(!nth_set_bit_idx(&[0x2D], 0, 6, 4, 0).found);
/// ```
#[unsafe(no_mangle)]
pub extern "C" fn pw_nth_set_bit_idx(
    bytes: &[u8],
    start: usize,
    length: usize,
    n: usize,
    from: usize,
) -> PositionAnswer
    ensures { result ≡ as_position (search_from bytes.now start length n from) }
{
    nth_set_bit_idx(bytes, start, length, n, from).into()
}

/// Returns the position of the n-th set flag before `end`, counting down from 0: number 0 is the set flag nearest to `end`. `found` is
/// false if at most `n` flags are set there. `end` may exceed the length.
///
/// ```
/// use poruwhina::calls::nth_set_bit_idx_rev;
///
/// assert_eq!(nth_set_bit_idx_rev(&[0x2D], 0, 6, 1, 5).value, 2);
/// assert_eq!(nth_set_bit_idx_rev(&[0x2D], 0, 6, 3, 900).value, 0);
/// ```
#[unsafe(no_mangle)]
pub extern "C" fn pw_nth_set_bit_idx_rev(
    bytes: &[u8],
    start: usize,
    length: usize,
    n: usize,
    end: usize,
) -> PositionAnswer
    ensures { result ≡ as_position (search_back bytes.now start length n end) }
{
    nth_set_bit_idx_rev(bytes, start, length, n, end).into()
}
