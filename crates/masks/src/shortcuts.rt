//! What the zero counts of two masks imply about their combination: nothing, or that all its flags equal one flag. An unknown count is not
//! computed for this: the first word usually shows that a mask is not constant.
ghost use Rattle.std.specs.Prelude.{◌≡◌, not};
ghost use Rattle.words.specs.declared.ops.Op.TheVariants.{Xor};
ghost use Rattle.masks.specs.Combine.{result_count, shortcut};
ghost use Rattle.masks.specs.Workers.{either_all, is_all, known_or_counted, xor_all, zeros_of_all};

use crate::bitmap::{Bitmap, not_counted};
use crate::utils::{all_flags, other_early};
use words::ops::Op;

// Returns the number of zeros of n flags that all equal `flag`.
fn zeros_of_all(flag: bool, n: usize) -> usize
    ensures { result ≡ zeros_of_all flag n }
{
    if flag { 0 } else { n }
}

// Returns whether all flags of a mask are `flag`. A known count is compared. With an unknown one the flags are read, up to the first word
// that has another flag, and not counted.
fn is_all(flag: bool, mask: Bitmap, bytes: &[u8]) -> bool
    ensures { result ≡ is_all flag mask bytes.now }
{
    match mask.unset {
        Some(zeros) => zeros == zeros_of_all(flag, mask.length),
        None => all_flags(flag, bytes, mask.start, mask.length),
    }
}

// Returns whether all flags of a mask are `flag`, as `is_all` does, for the masks that each call tests. It is compiled into the call, with
// the test of the first word; the rest is not, and `bytes` stays in registers. With `is_all` in its place the combinations of masks of
// unknown counts are slower (PROVING, `is_all_early`).
fn is_all_early(flag: bool, mask: Bitmap, bytes: &[u8]) -> bool
    ensures { result ≡ is_all flag mask bytes.now }
{
    match mask.unset {
        Some(zeros) => zeros == zeros_of_all(flag, mask.length),
        None => {
            !other_early(flag, bytes, mask.start, mask.length)
                && all_flags(flag, &bytes[0..], mask.start, mask.length)
        }
    }
}

// Returns the shortcut of `and` (`flag` is 0) or `or` (`flag` is 1): `flag` if either mask is all `flag`, else none.
fn either_all(
    flag: bool,
    lhs: Bitmap,
    lhs_bytes: &[u8],
    rhs: Bitmap,
    rhs_bytes: &[u8],
) -> Option<bool>
    ensures { result ≡
        either_all flag (is_all flag lhs lhs_bytes.now) (is_all flag rhs rhs_bytes.now) }
{
    (is_all_early(flag, lhs, lhs_bytes) || is_all_early(flag, rhs, rhs_bytes)).then_some(flag)
}

// Returns the shortcut of `xor` of `mask` with a mask that is all `flag`: 0 if `mask` is all `flag`, 1 if it is all the other flag, else
// none.
fn xor_all(flag: bool, mask: Bitmap, bytes: &[u8]) -> Option<bool>
    ensures { result ≡ xor_all (is_all flag mask bytes.now) (is_all (not flag) mask bytes.now) }
{
    if is_all_early(flag, mask, bytes) {
        return Some(false);
    }
    if is_all(!flag, mask, bytes) {
        return Some(true);
    }
    None
}

// Returns the shortcut of `xor`: a flag if both masks are constant, else none.
fn xor_shortcut(lhs: Bitmap, lhs_bytes: &[u8], rhs: Bitmap, rhs_bytes: &[u8]) -> Option<bool>
    requires { lhs.length ≡ rhs.length }
    ensures { result ≡
        shortcut Xor lhs.length (known_or_counted lhs lhs_bytes.now)
        (known_or_counted rhs rhs_bytes.now) }
{
    if is_all_early(false, lhs, lhs_bytes) {
        return xor_all(false, rhs, rhs_bytes);
    }
    if is_all_early(true, lhs, lhs_bytes) {
        return xor_all(true, rhs, rhs_bytes);
    }
    None
}

// Returns the shortcut of a combination by the counts of its two masks: the flag that all its flags equal, or none. One call of
// `either_all` serves both `and` and `or`, so that its tests are compiled in here.
pub(crate) fn pair_shortcut(
    op: Op,
    lhs: Bitmap,
    lhs_bytes: &[u8],
    rhs: Bitmap,
    rhs_bytes: &[u8],
) -> Option<bool>
    requires { lhs.length ≡ rhs.length }
    ensures { result ≡
        shortcut op lhs.length (known_or_counted lhs lhs_bytes.now)
        (known_or_counted rhs rhs_bytes.now) }
{
    // a `match`: the arms name a flag to look for, another shortcut, or none
    let flag = match op {
        Op::And => false,
        Op::Or => true,
        Op::Xor => return xor_shortcut(lhs, lhs_bytes, rhs, rhs_bytes),
        Op::AndNot | Op::OrNot | Op::Not | Op::Select => return None,
    };
    either_all(flag, lhs, lhs_bytes, rhs, rhs_bytes)
}

// Returns the zero count of a result of n flags: n if a shortcut makes it all zeros, 0 for no flags, else unknown.
pub(crate) fn result_count(by: Option<bool>, n: usize) -> Option<usize>
    ensures { result ≡ result_count by n }
{
    match by {
        Some(false) => Some(n),
        _ => not_counted(n),
    }
}
