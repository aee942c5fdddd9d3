//! The calls of the crate words.
use crate::tokens;
use crate::tokens::Answered;
use notation::answer::{Answer, Token};
use notation::arguments::Arguments;
use notation::call::{FlagsCall, LoadCall, OperationCall, StoreCall, WordCall, ZipCall};
use words::flags::Operand;
use words::ops::Op;
use words::{counts, ends, loops, merge, nth, ops, word};

pub(crate) fn word_answer(to: &mut Answer, call: WordCall, a: &Arguments) -> Answered {
    let w = a.word(0);
    let k = a.size(1);
    match call {
        WordCall::MergeReversed => tokens::given(
            to,
            merge::merge_reversed(w, a.word(1), a.size(2)),
        ),
        WordCall::NthSetBitU32 => set_bit(to, nth::nth_set_bit_u32(a.low(0), a.low(1))),
        WordCall::NthSetBitU64 => set_bit(to, nth::nth_set_bit_u64(w, a.word(1))),
        WordCall::LowFlags => tokens::given(to, word::low_flags(w, k)),
        WordCall::ShrOrZero => tokens::given(to, word::shr_or_zero(w, k)),
        WordCall::ShlOrZero => tokens::given(to, word::shl_or_zero(w, k)),
        WordCall::ConcatLow => tokens::given(to, word::concat_low(w, k, a.word(2))),
        WordCall::ConstantWord => tokens::given(to, word::constant_word(a.flag(0))),
    }
}

pub(crate) fn flags_answer(to: &mut Answer, call: FlagsCall, a: &Arguments) -> Answered {
    let w = a.word(0);
    let k = a.size(1);
    let flag = a.flag(0);
    let second = a.word(1);
    match call {
        FlagsCall::ConstantFlags => tokens::given(to, word::constant_flags(flag, k)),
        FlagsCall::OnesInWord => tokens::given(to, word::ones_in_word(w)),
        FlagsCall::OnesBelow => tokens::given(to, word::ones_below(w, k)),
        FlagsCall::NoneFrom => tokens::given(to, counts::none_from(w, k)),
        FlagsCall::LeadingInWord => tokens::given(
            to,
            ends::leading_in_word(flag, second, a.size(2)),
        ),
        FlagsCall::TrailingInWord => tokens::given(
            to,
            ends::trailing_in_word(flag, second, a.size(2)),
        ),
        FlagsCall::CombineWord => {
            tokens::given(to, ops::combine_word(op(w), second, a.word(2), a.word(3)))
        }
    }
}

fn set_bit(to: &mut Answer, r: Result<u32, u32>) -> Answered {
    match r {
        Ok(place) => tokens::given(to, place),
        Err(ones) => tokens::given(to, (Token::Missing, ones)),
    }
}

// Returns the operation of a number, as docs/REQUESTS.md lists them; any other number is `select` too. A function, not a `TryFrom`: the
// trait and `Op` are both of other crates, so no impl can be here, and none of these numbers is an error.
fn op(n: u64) -> Op {
    match n {
        0 => Op::And,
        1 => Op::AndNot,
        2 => Op::Or,
        3 => Op::OrNot,
        4 => Op::Xor,
        5 => Op::Not,
        _ => Op::Select,
    }
}

// Returns the flags of an input, starting at flag `start`.
fn flags(bytes: &[u8], start: usize) -> Operand<'_> {
    Operand { bytes, start }
}

pub(crate) fn operation_answer(to: &mut Answer, call: OperationCall, a: &Arguments) -> Answered {
    let p = a.word(0);
    let q = a.word(1);
    tokens::given(
        to,
        match call {
            OperationCall::And => ops::and_word(p, q),
            OperationCall::AndNot => ops::and_not_word(p, q),
            OperationCall::Or => ops::or_word(p, q),
            OperationCall::OrNot => ops::or_not_word(p, q),
            OperationCall::Xor => ops::xor_word(p, q),
            OperationCall::Not => ops::not_word(p),
            OperationCall::Select => ops::select_word(p, q, a.word(2)),
        },
    )
}

pub(crate) fn load_answer(to: &mut Answer, call: LoadCall, a: &Arguments, x: &[u8]) -> Answered {
    let at = a.size(0);
    match call {
        LoadCall::LoadPaddedLeU64 => tokens::given(to, word::load_padded_le_u64(x)),
        LoadCall::ByteWord => tokens::given(to, word::byte_word(x, at)),
        LoadCall::WordFrom => tokens::given(to, word::word_from(x, at)),
        LoadCall::FlagAt => tokens::given(to, word::flag_at(x, at)),
        LoadCall::CountOnes => tokens::given(to, counts::count_ones(x, at, a.size(1))),
    }
}

pub(crate) fn zip_answer(
    to: &mut Answer,
    call: ZipCall,
    a: &Arguments,
    x: &[u8],
    y: &[u8],
    z: &[u8],
) -> Answered {
    let o = op(a.word(0));
    let first = flags(x, a.size(1));
    let second = flags(y, a.size(2));
    let third = flags(z, a.size(3));
    let len = a.size(4);
    match call {
        ZipCall::Equal => {
            let left = flags(x, a.size(0));
            let right = flags(y, a.size(1));
            tokens::given(to, counts::equal(&left, &right, a.size(2)))
        }
        ZipCall::CountOnesOf => {
            tokens::given(to, counts::count_ones_of(o, &first, &second, &third, len))
        }
        ZipCall::AnySet => tokens::given(to, counts::any_set(o, &first, &second, &third, len)),
    }
}

pub(crate) fn store_answer(
    to: &mut Answer,
    call: StoreCall,
    a: &Arguments,
    x: &[u8],
    out: &mut [u8],
) -> Answered {
    let first = a.size(0);
    let second = a.size(1);
    match call {
        StoreCall::StoreLeU64 => word::store_le_u64(out, a.word(0)),
        StoreCall::StoreAt => word::store_at(out, first, a.word(1)),
        StoreCall::StoreWhole => word::store_whole(out, first, a.word(1)),
        StoreCall::CopySpan => loops::copy(x, first, second, out),
        StoreCall::CopyCount => return tokens::given(to, counts::copy_count(x, first, second, out)),
        StoreCall::Fill => loops::fill(a.flag(0), second, out),
        StoreCall::FillWhole => loops::fill_whole(a.flag(0), second, out),
    }
    to.begin(0)
}

pub(crate) fn combine_answer(
    to: &mut Answer,
    a: &Arguments,
    x: &[u8],
    y: &[u8],
    z: &[u8],
    out: &mut [u8],
) -> Answered {
    let o = op(a.word(0));
    let first = flags(x, a.size(1));
    let second = flags(y, a.size(2));
    let third = flags(z, a.size(3));
    loops::combine(o, &first, &second, &third, a.size(4), out);
    to.begin(0)
}
