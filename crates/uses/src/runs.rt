//! Trucks whose permission comes as runs: where each run ends, and the flag of each.
ghost use Rattle.std.specs.Prelude.{◌≡◌, ℕ, pos, ◌<◌, ◌≤◌, false, IfOk, get_or, length};
ghost use Rattle.masks.specs.Mask.{mask_flags};
ghost use Rattle.run_ends.specs.Rules.{end_of};

use dispatch::reassign::may_reassign;
use masks::bitmap::Bitmap;
use masks::refusal::Refusal;
use run_ends::read::from_run_ends;

/// Reads the permission of `trucks` trucks from run ends, writes it to `out`, and returns whether truck `truck` is permitted: whether its
/// run, the first whose end is above the truck's number, has a set flag.
pub fn free_in_runs(
    ends: &[i32],
    values: Bitmap,
    bytes: &[u8],
    trucks: usize,
    truck: usize,
    out: &mut [u8],
) -> Result<bool, Refusal>
    ensures inside { IfOk result (λ free. truck < trucks) }
    ensures paired { IfOk result (λ free. length ends.now ≡ values.length) }
    ensures flag { IfOk result (λ free. (k : ℕ) → k < length ends.now
        → truck < end_of (get_or ends.now k (pos 0))
        → ((j : ℕ) → j < k → end_of (get_or ends.now j (pos 0)) ≤ truck)
        → free ≡ get_or (mask_flags values bytes.now) k false) }
{
    let mask = from_run_ends(ends, values, bytes, trucks, out)?;
    let free = may_reassign(Some(mask), out, None, &[], truck)?;
    Ok(free)
}
