//! The calls on run ends, which are e: as they are lent for the call that reads them, and as an output for the call that writes them.
use crate::tokens::Answered;
use crate::{tokens, values};
use notation::answer::Answer;
use notation::arguments::{Arguments, Serial};
use notation::call::RunEndsCall;
use run_ends::read::from_run_ends;
use run_ends::write::to_run_ends;

pub(crate) fn run_ends_answer(
    to: &mut Answer,
    call: RunEndsCall,
    a: &Arguments,
    x: &[u8],
    e: &[i32],
    ends: &mut [i32],
    out: &mut [u8],
) -> Answered {
    let mask = values::mask(a, 0, Serial::First);
    tokens::answer(
        to,
        match call {
            RunEndsCall::FromRunEnds => from_run_ends(e, mask, x, a.size(3), out),
            RunEndsCall::ToRunEnds => to_run_ends(mask, x, ends, out),
        },
    )
}
