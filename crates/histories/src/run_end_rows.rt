//! Ties each row of `RunEndRows` to its call, as `rows` does for those of masks: each function here makes one call of run_ends and nothing
//! else. The ends that `to_run_ends` writes are no part of its row; its function says them too.
#![tactic(auto, using(masks::proofs::refusal::ClauseLaws::answered, masks::proofs::refusal::ClauseLaws::written, masks::proofs::refusal::ClauseLaws::written_first, masks::proofs::refusal::ClauseLaws::written_second), unfolding(run_ends::specs::equations::Read::from_run_ends_of, run_ends::specs::equations::Read::from_run_ends_bytes, run_ends::specs::equations::Write::to_run_ends_of, run_ends::specs::equations::Write::to_run_ends_ends, run_ends::specs::equations::Write::to_run_ends_bytes))]

ghost use Rattle.std.specs.Prelude.{◌≡◌, length as list_length};
ghost use Rattle.masks.specs.equations.Answer.{answer};
ghost use Rattle.run_ends.specs.equations.Write.{to_run_ends_ends};
ghost use Rattle.histories.specs.Rows.{one, with_bytes};
ghost use Rattle.histories.specs.RunEndRows.{from_run_ends_row, to_run_ends_row};

use masks::bitmap::Bitmap;
use masks::refusal::Refusal;
use run_ends::read::from_run_ends;
use run_ends::write::to_run_ends;

/// Calls `from_run_ends`; answers and writes as its row of the table does.
pub fn from_run_ends_row(
    ends: &[i32],
    values: Bitmap,
    bytes: &[u8],
    length: usize,
    out: &mut [u8],
) -> Result<Bitmap, Refusal>
    ensures answer { answer result ≡
        (from_run_ends_row ends.now length out.old).answer (one (with_bytes values bytes.now)) }
    ensures bytes { out.new ≡
        (from_run_ends_row ends.now length out.old).bytes (one (with_bytes values bytes.now)) }
{
    from_run_ends(ends, values, bytes, length, out)
}

/// Calls `to_run_ends`; answers and writes as its row of the table does, and writes the ends as its equation says.
pub fn to_run_ends_row(
    mask: Bitmap,
    bytes: &[u8],
    ends: &mut [i32],
    out: &mut [u8],
) -> Result<Bitmap, Refusal>
    ensures answer { answer result ≡
        (to_run_ends_row (list_length ends.old) out.old).answer (one (with_bytes mask bytes.now)) }
    ensures ends { ends.new ≡ to_run_ends_ends mask bytes.now (list_length out.old) ends.old }
    ensures bytes { out.new ≡
        (to_run_ends_row (list_length ends.old) out.old).bytes (one (with_bytes mask bytes.now)) }
{
    to_run_ends(mask, bytes, ends, out)
}
