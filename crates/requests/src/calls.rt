//! How a call is made: each group of calls is lent what it reads and writes. Each module `.._calls` has a `match` on the call: each arm
//! names another function, mostly with other parameters and another answer, and a table of those with equal ones would hold function
//! pointers.
//!
//! The answer and the arguments are two parameters of all these functions: `tokens` takes only the first and `values` only the second,
//! so that a struct of both would be taken apart in each body.
use crate::tokens::Answered;
use crate::{
    builder_calls, cursor_calls, grid_calls, mask_calls, minute_calls, run_end_calls, span_calls,
    words_calls,
};
use notation::answer::Answer;
use notation::arguments::Arguments;
use notation::call::{Call, ListCall};
use notation::last;
use notation::last::Last;
use notation::lent::Parts;

// Makes a call. Its answer is that of `last`, in the memory of the one before it, and its outputs are the first bytes, numbers or ends.
pub(crate) fn answer(call: Call, a: &Arguments, lent: Parts<'_>, last: &mut Last) -> Answered {
    let Parts { x, y, z, i, e, .. } = lent;
    let to = &mut last.answer;
    let out = last::list_first_mut(&mut last.bytes, a.sizes.o);
    let numbers = last::list_first_mut(&mut last.numbers, a.sizes.i);
    let ends = last::list_first_mut(&mut last.ends, a.sizes.e);
    match call {
        Call::Word(call) => words_calls::word_answer(to, call, a),
        Call::Flags(call) => words_calls::flags_answer(to, call, a),
        Call::Operation(call) => words_calls::operation_answer(to, call, a),
        Call::Load(call) => words_calls::load_answer(to, call, a, x),
        Call::Zip(call) => words_calls::zip_answer(to, call, a, x, y, z),
        Call::Span(call) => span_calls::span_answer(to, call, a, x),
        Call::Count(call) => span_calls::count_answer(to, call, a, x),
        Call::Chunks(call) => span_calls::chunks_answer(to, call, a, x),
        Call::Mask(call) => mask_calls::mask_answer(to, call, a, x),
        Call::Pair(call) => mask_calls::pair_answer(to, call, a, x, y),
        Call::Superseding(call) => mask_calls::superseding_answer(to, call, a, x, y),
        Call::Cursor(call) => cursor_calls::cursor_answer(to, call, a, x),
        Call::Bits(call) => cursor_calls::bits_answer(to, call, a, x),
        Call::Search(call) => mask_calls::search_answer(to, call, a, x, y),
        Call::Store(call) => words_calls::store_answer(to, call, a, x, out),
        Call::Combine => words_calls::combine_answer(to, a, x, y, z, out),
        Call::Builder(call) => builder_calls::builder_answer(to, call, a, out),
        Call::NewZeroed => mask_calls::zeroed_answer(to, a, out),
        Call::Extend(call) => builder_calls::extend_answer(to, call, a, x, out),
        Call::Merge(call) => mask_calls::merge_answer(to, call, a, x, y, out),
        Call::Select(call) => mask_calls::select_answer(to, call, a, x, y, z, out),
        Call::Gather(call) => builder_calls::gather_answer(to, call, a, x, i, out),
        Call::Minutes(call) => minute_calls::minutes_answer(to, call, a, out),
        Call::List(call) => list_answer(to, call, a, x, numbers),
        Call::Grid(call) => grid_calls::grid_answer(to, call, a, x, out),
        Call::RunEnds(call) => run_end_calls::run_ends_answer(to, call, a, x, e, ends, out),
    }
}

// Makes the calls that write numbers.
fn list_answer(
    to: &mut Answer,
    call: ListCall,
    a: &Arguments,
    x: &[u8],
    numbers: &mut [u32],
) -> Answered {
    match call {
        ListCall::NextChunk => cursor_calls::chunk_answer(to, a, x, numbers),
        ListCall::Counts => minute_calls::counts_answer(to, a, x, numbers),
        ListCall::GridRowZeros => grid_calls::row_zeros_answer(to, a, x, numbers),
        ListCall::GridColumnZeros => grid_calls::column_zeros_answer(to, a, x, numbers),
    }
}
