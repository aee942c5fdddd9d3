//! The calls over masks: makers, slices, combinations, comparisons, searches, a row of a grid, and those of dispatch.
use crate::tokens::Answered;
use crate::{grid_calls, tokens, values};
use dispatch::offer::offer;
use dispatch::reassign::may_reassign;
use masks::at_index::and_not_at;
use masks::bitmap::Bitmap;
use masks::builder::BitmapBuilder;
use masks::next_and_not::next_and_not;
use masks::{bitmap_ops, compare, superseding};
use notation::answer::Answer;
use notation::arguments::{Arguments, Serial};
use notation::call::{MaskCall, MergeCall, PairCall, SearchCall, SelectCall, SupersedingCall};
use notation::sums::Checksum;

pub(crate) fn mask_answer(to: &mut Answer, call: MaskCall, a: &Arguments, x: &[u8]) -> Answered {
    let m = first(a);
    match call {
        MaskCall::NewBuilder => tokens::given(to, BitmapBuilder::new()),
        MaskCall::New => tokens::given(to, Bitmap::new()),
        MaskCall::TryNew => tokens::answer(to, Bitmap::try_new(x, a.size(0), a.size(1))),
        MaskCall::Slice => tokens::answer_back(to, m.slice(x, a.size(3), a.size(4))),
        MaskCall::UnsetBits => tokens::answer_back(to, m.unset_bits(x)),
        MaskCall::NumEdges => tokens::answer(to, compare::num_edges(m, x)),
        MaskCall::GridRow => tokens::answer_back(to, grid_calls::row_answer(m, a, x)),
    }
}

fn first(a: &Arguments) -> Bitmap {
    values::mask(a, 0, Serial::First)
}

fn second(a: &Arguments) -> Bitmap {
    values::mask(a, 3, Serial::Second)
}

pub(crate) fn zeroed_answer(to: &mut Answer, a: &Arguments, out: &mut [u8]) -> Answered {
    tokens::answer(to, Bitmap::new_zeroed(a.size(0), out))
}

pub(crate) fn pair_answer(
    to: &mut Answer,
    call: PairCall,
    a: &Arguments,
    x: &[u8],
    y: &[u8],
) -> Answered {
    let one = values::optional(a, 0, Serial::First);
    let other = values::optional(a, 4, Serial::Second);
    let index = a.size(8);
    match call {
        PairCall::Eq => tokens::answer(to, compare::eq(first(a), x, second(a), y)),
        PairCall::NumIntersectionsWith => {
            tokens::answer(
                to,
                compare::num_intersections_with(first(a), x, second(a), y),
            )
        }
        PairCall::AndNotAt => tokens::answer(to, and_not_at(one, x, other, y, index)),
        PairCall::MayReassign => tokens::answer(to, may_reassign(one, x, other, y, index)),
    }
}

// Makes the calls that choose one of two masks. Bytes are answered by their number and their checksum.
pub(crate) fn superseding_answer<'a>(
    to: &mut Answer,
    call: SupersedingCall,
    a: &Arguments,
    x: &'a [u8],
    y: &'a [u8],
) -> Answered {
    let one = first(a);
    let other = second(a);
    match call {
        SupersedingCall::Part => tokens::answer(
            to,
            superseding::superseding_part(one, x, other, y),
        ),
        SupersedingCall::Mask => tokens::answer(to, superseding::superseding(one, x, other, y)),
        SupersedingCall::Bytes => part_answer(to, superseding::superseding_bytes(one, x, other, y)),
    }
}

fn part_answer(to: &mut Answer, part: &[u8]) -> Answered {
    let sum = Checksum::new().bytes(part);
    tokens::given(to, (part.len(), sum.value()))
}

pub(crate) fn search_answer(
    to: &mut Answer,
    call: SearchCall,
    a: &Arguments,
    x: &[u8],
    y: &[u8],
) -> Answered {
    match call {
        SearchCall::NextAndNot => {
            let other = values::optional(a, 3, Serial::Second);
            tokens::answer(to, next_and_not(first(a), x, other, y, a.size(7)))
        }
        SearchCall::Offer => {
            let one = values::optional(a, 0, Serial::First);
            let other = values::optional(a, 4, Serial::Second);
            tokens::offered(to, offer(one, x, other, y, a.size(8)))
        }
    }
}

pub(crate) fn merge_answer(
    to: &mut Answer,
    call: MergeCall,
    a: &Arguments,
    x: &[u8],
    y: &[u8],
    out: &mut [u8],
) -> Answered {
    let lhs = first(a);
    let rhs = second(a);
    tokens::answer(
        to,
        match call {
            MergeCall::And => bitmap_ops::and(lhs, x, rhs, y, out),
            MergeCall::AndNot => bitmap_ops::and_not(lhs, x, rhs, y, out),
            MergeCall::Or => bitmap_ops::or(lhs, x, rhs, y, out),
            MergeCall::OrNot => bitmap_ops::or_not(lhs, x, rhs, y, out),
            MergeCall::Xor => bitmap_ops::xor(lhs, x, rhs, y, out),
        },
    )
}

pub(crate) fn select_answer(
    to: &mut Answer,
    call: SelectCall,
    a: &Arguments,
    x: &[u8],
    y: &[u8],
    z: &[u8],
    out: &mut [u8],
) -> Answered {
    let one = first(a);
    let other = second(a);
    tokens::answer(
        to,
        match call {
            SelectCall::Not => bitmap_ops::not(one, x, out),
            SelectCall::Select => {
                let third = values::mask(a, 6, Serial::Third);
                bitmap_ops::select(one, x, other, y, third, z, out)
            }
            SelectCall::SelectConstant => {
                bitmap_ops::select_constant(one, x, other, y, a.flag(6), out)
            }
        },
    )
}
