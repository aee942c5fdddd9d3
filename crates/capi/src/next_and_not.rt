//! Exported to C and Rust: the search for a flag that is set in one mask and not in another.
#![tactic(auto, using(masks::proofs::refusal::ClauseLaws::answered), unfolding(masks::specs::equations::NextAndNot::next_and_not_of))]

ghost use Rattle.std.specs.Prelude.{◌≡◌};
ghost use Rattle.masks.specs.equations.Answer.{answer};
ghost use Rattle.masks.specs.equations.NextAndNot.{next_and_not_of};
ghost use Rattle.capi.specs.Answers.{as_next};
ghost use Rattle.capi.specs.Records.{mask_in, optional_in};

use crate::answers::NextAnswer;
use crate::records::{Mask, optional_in};
use masks::next_and_not::{NextFlag, next_and_not};
use masks::refusal::Refusal;

#[tactic(auto, unfolding(crate::specs::Answers::as_next))]
impl From<Result<NextFlag, Refusal>> for NextAnswer {
    ghost from_gives = { λ r a. a ≡ as_next (answer r) };

    fn from(r: Result<NextFlag, Refusal>) -> NextAnswer {
        match r {
            Ok(f) => NextAnswer {
                refusal: 0,
                found: f.position.is_some(),
                position: f.position.unwrap_or(0),
                windows: f.windows,
            },
            Err(e) => NextAnswer {
                refusal: e.into(),
                ..NextAnswer::default()
            },
        }
    }
}

/// Returns the first position at or after `from` that is set in the first mask and not in the second, else the first such position from 0;
/// `found` is false if there is no such position. If `second_present` is false there is no second mask, which means all zeros: its record
/// and bytes are not read, and refusal 5 does not occur. `windows` counts the windows of 32 flags read: they begin at `from` and every 32
/// flags after it, below the length, then at 0 and every 32 flags after it, below `from`; the last one read holds the position, or all
/// are read. A `from` equal to the length is allowed; above it the call is refused with 6.
///
/// ```
/// use poruwhina::calls::{next_and_not, try_new};
///
/// let mask = try_new(&[0; 5], 0, 40).mask;
/// let (permitted, revoked) = ([0x08, 0, 0, 0, 0x48], [0x08, 0, 0, 0, 0x40]); // 3, 35, 38 and 3, 38
/// let found = next_and_not(mask, &permitted, true, mask, &revoked, 36);
/// assert_eq!((found.position, found.windows), (35, 3)); // windows at 36, 0 and 32
/// assert_eq!(next_and_not(mask, &permitted, false, mask, &[], 36).position, 38);
/// assert_eq!(next_and_not(mask, &permitted, false, mask, &[], 41).refusal, 6);
/// ```
#[unsafe(no_mangle)]
pub extern "C" fn pw_next_and_not(
    first: Mask,
    first_bytes: &[u8],
    second_present: bool,
    second: Mask,
    second_bytes: &[u8],
    from: usize,
) -> NextAnswer
    ensures { result ≡
        as_next (next_and_not_of (mask_in first) first_bytes.now (optional_in second_present second) second_bytes.now from) }
{
    next_and_not(
        first.into(),
        first_bytes,
        optional_in(second_present, second),
        second_bytes,
        from,
    )
    .into()
}
