//! The calls of the builder, whose buffer is the output.
ghost use Rattle.std.specs.Prelude.{◌≡◌, [], ◌∷◌, length, OnOk, OnErr};
ghost use Rattle.masks.specs.Appends.{grow_checks};
ghost use Rattle.masks.specs.Builder.{appended, filling};
ghost use Rattle.masks.specs.Checks.{first_failed};
ghost use Rattle.masks.specs.Refusal.{failure_of};

use crate::tokens::Answered;
use crate::{tokens, values};
use masks::builder::BitmapBuilder;
use masks::refusal::Refusal;
use notation::answer::Answer;
use notation::arguments::{Arguments, Serial};
use notation::call::{BuilderCall, ExtendCall, GatherCall};

pub(crate) fn builder_answer(
    to: &mut Answer,
    call: BuilderCall,
    a: &Arguments,
    buf: &mut [u8],
) -> Answered {
    let b = values::builder(a);
    match call {
        BuilderCall::Push => tokens::answer_back(to, b.push(buf, a.flag(3))),
        BuilderCall::PushMut => {
            let Lent { builder, answer } = push_lent(b, buf, a.flag(3));
            tokens::left(to, answer, builder)
        }
        BuilderCall::PushWord => {
            tokens::answer_back(
                to,
                b.push_word_with_len_unchecked(buf, a.word(3), a.size(4)),
            )
        }
        BuilderCall::ExtendConstant => tokens::answer_back(
            to,
            b.extend_constant(buf, a.size(3), a.flag(4)),
        ),
        BuilderCall::Freeze => tokens::answer_back(to, b.freeze(buf)),
        BuilderCall::IntoOptValidity => tokens::answer_back(to, b.into_opt_validity(buf)),
    }
}

// Makes the appends that read x.
pub(crate) fn extend_answer(
    to: &mut Answer,
    call: ExtendCall,
    a: &Arguments,
    x: &[u8],
    buf: &mut [u8],
) -> Answered {
    let b = values::builder(a);
    let start = a.size(3);
    let n = a.size(4);
    tokens::answer_back(
        to,
        match call {
            ExtendCall::FromSlice => b.extend_from_slice(buf, x, start, n),
            ExtendCall::EachRepeated => {
                b.extend_each_repeated_from_slice_unchecked(buf, x, start, n, a.size(5))
            }
            ExtendCall::FromBitmap => {
                let mask = values::mask(a, 3, Serial::Second);
                b.subslice_extend_from_bitmap(buf, mask, x, a.size(6), a.size(7))
            }
        },
    )
}

// Makes the appends that read x at indices.
pub(crate) fn gather_answer(
    to: &mut Answer,
    call: GatherCall,
    a: &Arguments,
    x: &[u8],
    idxs: &[u32],
    buf: &mut [u8],
) -> Answered {
    let b = values::builder(a);
    let start = a.size(3);
    let n = a.size(4);
    tokens::answer_back(
        to,
        match call {
            GatherCall::FromSlice => b.gather_extend_from_slice(buf, x, start, n, idxs),
            GatherCall::OptFromSlice => b.opt_gather_extend_from_slice(buf, x, start, n, idxs),
        },
    )
}

// The record that `push_mut` left, and its answer.
#[derive(Clone, Copy)]
struct Lent {
    builder: BitmapBuilder,
    answer: Result<(), Refusal>,
}

// Calls `push_mut` on a copy of the record, and returns both.
fn push_lent(b: BitmapBuilder, buf: &mut [u8], flag: bool) -> Lent
    ensures refused { failure_of result.answer ≡ first_failed (grow_checks b 1 (length buf.old)) }
    ensures appended { OnOk result.answer (filling result.builder buf.new ≡ appended (filling b buf.old) (flag ∷ [])) }
    ensures unchanged { OnErr result.answer (buf.new ≡ buf.old) }
    ensures state { OnErr result.answer (result.builder ≡ b) }
{
    let mut own = b;
    let answer = own.push_mut(buf, flag);
    Lent {
        builder: own,
        answer,
    }
}
