//! The calls over bare spans of x.
use crate::tokens;
use crate::tokens::Answered;
use masks::aligned::AlignedBitmapSlice;
use masks::chunks::{BitChunks, BitChunksExact};
use masks::{bitmask, utils};
use notation::answer::Answer;
use notation::arguments::Arguments;
use notation::call::{ChunksCall, CountCall, SpanCall};

pub(crate) fn span_answer(to: &mut Answer, call: SpanCall, a: &Arguments, x: &[u8]) -> Answered {
    let start = a.size(0);
    let length = a.size(1);
    let third = a.size(2);
    let fourth = a.size(3);
    match call {
        SpanCall::Aligned => tokens::answer(to, AlignedBitmapSlice::new(x, start, length, third)),
        SpanCall::SplitAtUnchecked => {
            tokens::answer(to, bitmask::split_at_unchecked(x, start, length, third))
        }
        SpanCall::GetU32 => tokens::answer(to, bitmask::get_u32(x, start, length, third)),
        SpanCall::NthSetBitIdx => {
            tokens::answer(
                to,
                bitmask::nth_set_bit_idx(x, start, length, third, fourth),
            )
        }
        SpanCall::NthSetBitIdxRev => {
            tokens::answer(
                to,
                bitmask::nth_set_bit_idx_rev(x, start, length, third, fourth),
            )
        }
    }
}

pub(crate) fn count_answer(to: &mut Answer, call: CountCall, a: &Arguments, x: &[u8]) -> Answered {
    let start = a.size(0);
    let length = a.size(1);
    let address = a.size(2);
    tokens::answer(
        to,
        match call {
            CountCall::CountZeros => utils::count_zeros(x, start, length, address),
            CountCall::LeadingZeros => utils::leading_zeros(x, start, length, address),
            CountCall::LeadingOnes => utils::leading_ones(x, start, length, address),
            CountCall::TrailingZeros => utils::trailing_zeros(x, start, length, address),
            CountCall::TrailingOnes => utils::trailing_ones(x, start, length, address),
        },
    )
}

pub(crate) fn chunks_answer(
    to: &mut Answer,
    call: ChunksCall,
    a: &Arguments,
    x: &[u8],
) -> Answered {
    let first = a.size(0);
    let second = a.size(1);
    let c = BitChunks {
        start: first,
        length: second,
        place: a.size(2),
    };
    match call {
        ChunksCall::New => tokens::answer(to, BitChunks::new(x, first, second)),
        ChunksCall::NewExact => tokens::answer(to, BitChunksExact::new(x, first)),
        ChunksCall::Next => tokens::answer_back(to, c.next(x)),
        ChunksCall::Remainder => tokens::answer_back(to, c.remainder(x)),
    }
}
