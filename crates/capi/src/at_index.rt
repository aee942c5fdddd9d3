//! Exported to C and Rust: the combination `and_not` at one index.
#![tactic(auto, using(masks::proofs::refusal::ClauseLaws::answered), unfolding(masks::specs::equations::AtIndex::and_not_at_of))]

ghost use Rattle.std.specs.Prelude.{◌≡◌};
ghost use Rattle.masks.specs.equations.AtIndex.{and_not_at_of};
ghost use Rattle.capi.specs.Answers.{as_flag};
ghost use Rattle.capi.specs.Records.{optional_in};

use crate::answers::FlagAnswer;
use crate::records::{Mask, optional_in};
use masks::at_index::and_not_at;

/// Returns whether the flag at `index` is set in the first mask and not in the second. If `first_present` is false there is no first
/// mask, which means all ones; if `second_present` is false there is no second mask, which means all zeros. The record and bytes of an
/// absent mask are not read. Refusal 5 occurs only with both masks; without any mask nothing is refused.
///
/// ```
/// use poruwhina::calls::{and_not_at, try_new};
///
/// let mask = try_new(&[0], 0, 6).mask;
/// assert!(and_not_at(true, mask, &[0x2D], true, mask, &[0x01], 2).value);
/// assert!(!and_not_at(true, mask, &[0x2D], true, mask, &[0x01], 0).value);
/// assert!(and_not_at(false, mask, &[], false, mask, &[], 9).value);
/// assert_eq!(and_not_at(true, mask, &[0x2D], false, mask, &[], 6).refusal, 6);
/// ```
#[unsafe(no_mangle)]
pub extern "C" fn pw_and_not_at(
    first_present: bool,
    first: Mask,
    first_bytes: &[u8],
    second_present: bool,
    second: Mask,
    second_bytes: &[u8],
    index: usize,
) -> FlagAnswer
    ensures { result ≡
        as_flag (and_not_at_of (optional_in first_present first) first_bytes.now (optional_in second_present second)
        second_bytes.now index) }
{
    and_not_at(
        optional_in(first_present, first),
        first_bytes,
        optional_in(second_present, second),
        second_bytes,
        index,
    )
    .into()
}
