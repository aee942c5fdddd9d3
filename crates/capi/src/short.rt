//! Combinations of masks of unknown counts that lie in eight bytes each, as the masks of a few dozen flags do, with an output of eight
//! bytes or more. None of their checks can fail, and each takes one load for each mask and one store. A function here returns the answer of
//! such a combination, or none, with nothing written; the export then makes its call. They are compiled into the exports, so that no record
//! goes through memory (PROVING, `pair_near`).
ghost use Rattle.std.specs.Prelude.{◌≡◌, cond, is_some, IfSome, Some, None, eqb};
ghost use mathlib.Core.List.{zip_with};
ghost use Rattle.words.specs.Flags.{flags_of, over};
ghost use Rattle.words.specs.Loops.{stretch, whole_words};
ghost use Rattle.masks.specs.Mask.{mask_under};
ghost use Rattle.masks.specs.Utils.{zeros};
ghost use Rattle.masks.specs.equations.Combine.{not_bytes, not_of, pair_bytes, pair_of};
ghost use Rattle.masks.specs.equations.Combine.{select_bytes, select_constant_bytes, select_constant_of, select_of};
ghost use Rattle.capi.specs.Answers.{as_mask, mask_answer};
ghost use Rattle.capi.specs.Records.{mask_in, mask_out};
ghost use Rattle.capi.specs.Workers.{all_clear, near_mask, near_output};

use crate::answers::MaskAnswer;
use crate::records::Mask;
use masks::bitmap::Bitmap;
use words::flags::Operand;
use words::ops::Op;
use words::short::{all_near, combine_near, lies_near};

// Returns whether a mask of unknown count has n flags, within the limit, which lie in eight of its `size` bytes.
#[inline(always)]
#[tactic(auto, unfolding(crate::specs::Workers::near_mask))]
fn near_mask(m: Mask, n: usize, size: usize) -> bool
    ensures { result ≡ near_mask m n size }
{
    (m.known == 0) & ((m.length == n) & ((m.start <= Bitmap::LIMIT) & lies_near(size, m.start, n)))
}

// Returns whether there is a flag, and room for eight bytes in an output of `room`.
#[inline(always)]
#[tactic(auto, unfolding(crate::specs::Workers::near_output))]
fn near_output(n: usize, room: usize) -> bool
    ensures { result ≡ near_output n room }
{
    (1 <= n) & (8 <= room)
}

// Returns the answer of a combination of n flags under the largest serial of its masks, its count known if it is all zero by theirs.
#[inline(always)]
fn near_answer(n: usize, clear: bool, serial: u32) -> MaskAnswer
    ensures { result ≡ mask_answer 0 (mask_out (mask_under serial 0 n (cond clear (Some n) None))) }
{
    let mask = Bitmap {
        start: 0,
        length: n,
        unset: clear.then_some(n),
        serial,
    };
    MaskAnswer {
        refusal: 0,
        mask: mask.into(),
    }
}

// Returns whether a mask is all zeros.
#[inline(always)]
fn is_clear(bytes: &[u8], start: usize, n: usize) -> bool
    ensures { result ≡ eqb (zeros (stretch bytes.now start n)) n }
{
    all_near(false, bytes, start, n)
}

// Returns whether a mask is all ones.
#[inline(always)]
fn is_full(bytes: &[u8], start: usize, n: usize) -> bool
    ensures { result ≡ eqb (zeros (stretch bytes.now start n)) 0 }
{
    all_near(true, bytes, start, n)
}

// Returns whether a combination of n flags is all zero by the counts of its masks. No branch: both masks are looked at.
#[inline(always)]
#[tactic(auto, unfolding(crate::specs::Workers::all_clear))]
fn all_clear(op: Op, a: &Operand<'_>, b: &Operand<'_>, n: usize) -> bool
    ensures { result ≡ all_clear op n (zeros (stretch a.now.bytes.now a.now.start n)) (zeros (stretch b.now.bytes.now b.now.start n)) }
{
    match op {
        Op::And => is_clear(a.bytes, a.start, n) | is_clear(b.bytes, b.start, n),
        Op::Xor => {
            let clear = is_clear(a.bytes, a.start, n) & is_clear(b.bytes, b.start, n);
            let full = is_full(a.bytes, a.start, n) & is_full(b.bytes, b.start, n);
            clear | full
        }
        Op::AndNot | Op::Or | Op::OrNot | Op::Not | Op::Select => false,
    }
}

// Combines two masks of unknown counts that lie in eight bytes each by an operation on two flags.
#[inline(always)]
pub(crate) fn pair_near(
    op: Op,
    lhs: Mask,
    lhs_bytes: &[u8],
    rhs: Mask,
    rhs_bytes: &[u8],
    out: &mut [u8],
) -> Option<MaskAnswer>
    ensures answer { IfSome result (λ a. a ≡
        as_mask (pair_of op (mask_in lhs) lhs_bytes.now (mask_in rhs) rhs_bytes.now out.old)) }
    ensures bytes { out.new ≡ cond (is_some result)
        (pair_bytes op (mask_in lhs) lhs_bytes.now (mask_in rhs) rhs_bytes.now out.old) out.old }
{
    let n = lhs.length;
    let first = near_mask(lhs, n, lhs_bytes.len());
    let second = near_mask(rhs, n, rhs_bytes.len());
    let room = near_output(n, out.len());
    let near = first & (second & room);
    if near {
        let a = Operand {
            bytes: lhs_bytes,
            start: lhs.start,
        };
        let b = Operand {
            bytes: rhs_bytes,
            start: rhs.start,
        };
        let clear = all_clear(op, &a, &b, n);
        combine_near(op, &a, &b, &b, n, out);
        Some(near_answer(n, clear, lhs.serial.max(rhs.serial)))
    } else {
        None
    }
}

// Inverts a mask of unknown count that lies in eight bytes.
#[inline(always)]
pub(crate) fn not_near(mask: Mask, bytes: &[u8], out: &mut [u8]) -> Option<MaskAnswer>
    ensures answer { IfSome result (λ a. a ≡ as_mask (not_of (mask_in mask) bytes.now out.old)) }
    ensures bytes { out.new ≡
        cond (is_some result) (not_bytes (mask_in mask) bytes.now out.old) out.old }
{
    let n = mask.length;
    let own = near_mask(mask, n, bytes.len());
    let room = near_output(n, out.len());
    let near = own & room;
    if near {
        let a = Operand {
            bytes,
            start: mask.start,
        };
        combine_near(Op::Not, &a, &a, &a, n, out);
        Some(near_answer(n, false, mask.serial))
    } else {
        None
    }
}

// Chooses between two masks by a third, all of unknown counts and in eight bytes each.
#[inline(always)]
pub(crate) fn select_near(
    selector: Mask,
    selector_bytes: &[u8],
    truthy: Mask,
    truthy_bytes: &[u8],
    falsy: Mask,
    falsy_bytes: &[u8],
    out: &mut [u8],
) -> Option<MaskAnswer>
    ensures answer { IfSome result (λ a. a ≡
        as_mask (select_of (mask_in selector) selector_bytes.now
        (mask_in truthy) truthy_bytes.now (mask_in falsy) falsy_bytes.now out.old)) }
    ensures bytes { out.new ≡ cond (is_some result)
        (select_bytes (mask_in selector) selector_bytes.now
        (mask_in truthy) truthy_bytes.now (mask_in falsy) falsy_bytes.now out.old) out.old }
{
    let n = selector.length;
    let first = near_mask(selector, n, selector_bytes.len());
    let second = near_mask(truthy, n, truthy_bytes.len());
    let third = near_mask(falsy, n, falsy_bytes.len());
    let room = near_output(n, out.len());
    let near = first & (second & (third & room));
    if near {
        let a = Operand {
            bytes: selector_bytes,
            start: selector.start,
        };
        let b = Operand {
            bytes: truthy_bytes,
            start: truthy.start,
        };
        let c = Operand {
            bytes: falsy_bytes,
            start: falsy.start,
        };
        combine_near(Op::Select, &a, &b, &c, n, out);
        let rest = truthy.serial.max(falsy.serial);
        Some(near_answer(n, false, selector.serial.max(rest)))
    } else {
        None
    }
}

// Writes the n flags of the second stretch where those of the first are set, and `flag` elsewhere.
#[inline(always)]
fn constant_near<'a>(flag: bool, a: &Operand<'a>, b: &Operand<'a>, n: usize, out: &mut [u8])
    ensures { flags_of out.new ≡ over (flags_of out.old) (whole_words (zip_with (λ p q. cond p q flag)
        (stretch a.now.bytes.now a.now.start n) (stretch b.now.bytes.now b.now.start n))) }
{
    if flag {
        combine_near(Op::OrNot, b, a, a, n, out);
    } else {
        combine_near(Op::And, a, b, b, n, out);
    }
}

// Chooses between a mask and a flag by another mask, both of unknown counts and in eight bytes each.
#[inline(always)]
pub(crate) fn select_constant_near(
    selector: Mask,
    selector_bytes: &[u8],
    truthy: Mask,
    truthy_bytes: &[u8],
    flag: bool,
    out: &mut [u8],
) -> Option<MaskAnswer>
    ensures answer { IfSome result (λ a. a ≡
        as_mask (select_constant_of (mask_in selector) selector_bytes.now (mask_in truthy) truthy_bytes.now flag out.old)) }
    ensures bytes { out.new ≡ cond (is_some result)
        (select_constant_bytes (mask_in selector) selector_bytes.now (mask_in truthy) truthy_bytes.now flag out.old) out.old }
{
    let n = selector.length;
    let first = near_mask(selector, n, selector_bytes.len());
    let second = near_mask(truthy, n, truthy_bytes.len());
    let room = near_output(n, out.len());
    let near = first & (second & room);
    if near {
        let a = Operand {
            bytes: selector_bytes,
            start: selector.start,
        };
        let b = Operand {
            bytes: truthy_bytes,
            start: truthy.start,
        };
        constant_near(flag, &a, &b, n, out);
        Some(near_answer(n, false, selector.serial.max(truthy.serial)))
    } else {
        None
    }
}
