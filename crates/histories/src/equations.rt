//! The equation of each call of masks that has no export: each function here makes one call and nothing else, and its contract is the
//! call's answer, and its bytes or its place, as one equation each, as the contracts of exports are for the other calls. Nobody calls these
//! functions; a call whose clauses say less than its equation would leave its function unproved. The checks (`check_span`, `check_mask`,
//! `check_output`, `earlier`) need none: they return only a number, and their clause `refused` is the equation of it. The last function is
//! no equation: it shows that `?` makes a `Refusal` of a refusal that holds a record.
#![tactic(auto, using(masks::proofs::refusal::ClauseLaws::answered_change, masks::proofs::refusal::ClauseLaws::written_change, masks::proofs::refusal::ClauseLaws::answered_record), unfolding(masks::specs::equations::Superseding::superseding_of))]

ghost use Rattle.std.specs.Prelude.{◌≡◌};
ghost use Rattle.masks.specs.Checks.{first_failed};
ghost use Rattle.masks.specs.Mask.{slice_checks};
ghost use Rattle.masks.specs.Refusal.{failure_of};
ghost use Rattle.masks.specs.equations.Answer.{answer};
ghost use Rattle.masks.specs.equations.Appends.{append_answer, append_bytes, change_answer, push_flag};
ghost use Rattle.masks.specs.equations.Superseding.{bytes_of, place_of, record_of, superseding_of};

use masks::bitmap::Bitmap;
use masks::builder::BitmapBuilder;
use masks::refusal::Refusal;
use masks::superseding::{superseding, superseding_bytes};

/// Calls `push_mut`: the number of the refusal with the caller's builder, and the buffer.
pub fn push_mut_equation(
    builder: &mut BitmapBuilder,
    buf: &mut [u8],
    flag: bool,
) -> Result<(), Refusal>
    ensures answer { change_answer (failure_of result) builder.new
        ≡ append_answer (push_flag flag) builder.old buf.old }
    ensures bytes { buf.new ≡ append_bytes (push_flag flag) builder.old buf.old }
{
    builder.push_mut(buf, flag)
}

/// Calls `superseding`: the record of the winner.
pub fn superseding_equation(
    first: Bitmap,
    first_bytes: &[u8],
    second: Bitmap,
    second_bytes: &[u8],
) -> Result<Bitmap, Refusal>
    ensures { answer result
        ≡ record_of (superseding_of first first_bytes.now second second_bytes.now) }
{
    superseding(first, first_bytes, second, second_bytes)
}

/// Calls `superseding_bytes`: the bytes of the winner, and where they lie.
pub fn superseding_bytes_equation<'a>(
    first: Bitmap,
    first_bytes: &'a [u8],
    second: Bitmap,
    second_bytes: &'a [u8],
) -> &'a [u8]
    ensures bytes { result.now ≡ bytes_of
        (superseding_of first first_bytes.now second second_bytes.now)
        first_bytes.now second_bytes.now }
    ensures place { result.ref_ptr ≡ place_of
        (superseding_of first first_bytes.now second second_bytes.now)
        first_bytes.entry.ref_ptr second_bytes.entry.ref_ptr }
{
    superseding_bytes(first, first_bytes, second, second_bytes)
}

/// Cuts a piece, and passes a refusal on by `?`, without the mask that it holds.
pub fn piece_or_refusal(
    mask: Bitmap,
    bytes: &[u8],
    offset: usize,
    length: usize,
) -> Result<Bitmap, Refusal>
    ensures { failure_of result ≡ first_failed (slice_checks mask bytes.now offset length) }
{
    let piece = mask.slice(bytes, offset, length)?;
    Ok(piece)
}
