//! Exported to C and Rust: which of two masks supersedes the other. The C interface has no references: the part of the bytes is returned
//! as the slice that it is of, its first byte and the byte past its last.
#![tactic(auto, using(masks::proofs::refusal::ClauseLaws::answered), unfolding(crate::specs::Answers::as_part, masks::specs::equations::Superseding::superseding_of))]

ghost use Rattle.std.specs.Prelude.{◌≡◌, cond};
ghost use Rattle.masks.specs.equations.Answer.{answer};
ghost use Rattle.masks.specs.Superseding.{within};
ghost use Rattle.masks.specs.equations.Superseding.{bytes_of, superseding_of};
ghost use Rattle.capi.specs.Answers.{as_part};
ghost use Rattle.capi.specs.Records.{mask_in};

use crate::answers::PartAnswer;
use crate::records::Mask;
use masks::refusal::Refusal;
use masks::superseding::{Winner, superseding_part};

impl From<Result<Winner, Refusal>> for PartAnswer {
    ghost from_gives = { λ r a. a ≡ as_part (answer r) };

    fn from(r: Result<Winner, Refusal>) -> PartAnswer {
        match r {
            Ok(part) => PartAnswer {
                refusal: 0,
                second: part.second,
                from: part.from,
                to: part.to,
                mask: part.mask.into(),
            },
            Err(e) => PartAnswer {
                refusal: e.into(),
                ..PartAnswer::default()
            },
        }
    }
}

/// Returns the winner of two masks of one operator, the one with the larger serial, over the part of its bytes that holds it. With equal
/// serials and equal flags the first wins; with equal serials and different flags the call is refused with 14. Both masks are checked,
/// the loser too.
///
/// ```
/// use poruwhina::calls::{Mask, superseding, try_new};
///
/// let bytes = [0x2D];
/// let six = try_new(&bytes, 0, 6).mask;
/// let four = Mask { serial: 1, ..try_new(&bytes, 2, 4).mask };
/// assert!(superseding(six, &bytes, four, &bytes).second);
/// assert_eq!(superseding(six, &bytes, Mask { serial: 0, ..four }, &bytes).refusal, 14);
/// ```
#[unsafe(no_mangle)]
pub extern "C" fn pw_superseding(
    first: Mask,
    first_bytes: &[u8],
    second: Mask,
    second_bytes: &[u8],
) -> PartAnswer
    ensures answer { result ≡ as_part (superseding_of (mask_in first) first_bytes.now (mask_in second) second_bytes.now) }
    ensures part { within result.from result.to (cond result.second second_bytes.now first_bytes.now)
        ≡ bytes_of (superseding_of (mask_in first) first_bytes.now (mask_in second) second_bytes.now)
        first_bytes.now second_bytes.now }
{
    superseding_part(first.into(), first_bytes, second.into(), second_bytes).into()
}
