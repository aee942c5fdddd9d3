//! The operations as types, so that a loop has its operation as a type parameter and the compiler makes one loop of each: a loop whose
//! operation varies is not vectorised. Not closures: the clauses of the loops name the operation (`O.op`), and the trait has its law; a
//! closure's type has neither, and each loop would need both by `requires`.
ghost use Rattle.std.specs.Prelude.{◌≡◌};
ghost use Rattle.words.specs.Flags.{word_flags};
ghost use Rattle.words.specs.Ops.{op_of, zip3};
ghost use Rattle.words.specs.declared.ops.Op.{Op};
ghost use Rattle.words.specs.declared.ops.Op.TheVariants.{And, AndNot, Or, OrNot, Xor, Not, Select};

use crate::ops::{Op, combine_word};

pub(crate) trait Operation {
    // The operation of the type.
    ghost op: { Op };

    // Applies the operation to the flags of x, y and z.
    fn word(x: u64, y: u64, z: u64) -> u64
        ensures { word_flags result ≡ zip3 (op_of op) (word_flags x) (word_flags y) (word_flags z) };
}

pub(crate) struct And;

pub(crate) struct AndNot;

pub(crate) struct Or;

pub(crate) struct OrNot;

pub(crate) struct Xor;

pub(crate) struct Not;

pub(crate) struct Select;

// The seven impls differ in one name. A macro of this repository cannot write an `impl`, and an enum cannot be a const parameter.
impl Operation for And {
    ghost op = { And };

    fn word(x: u64, y: u64, z: u64) -> u64 {
        combine_word(Op::And, x, y, z)
    }
}

impl Operation for AndNot {
    ghost op = { AndNot };

    fn word(x: u64, y: u64, z: u64) -> u64 {
        combine_word(Op::AndNot, x, y, z)
    }
}

impl Operation for Or {
    ghost op = { Or };

    fn word(x: u64, y: u64, z: u64) -> u64 {
        combine_word(Op::Or, x, y, z)
    }
}

impl Operation for OrNot {
    ghost op = { OrNot };

    fn word(x: u64, y: u64, z: u64) -> u64 {
        combine_word(Op::OrNot, x, y, z)
    }
}

impl Operation for Xor {
    ghost op = { Xor };

    fn word(x: u64, y: u64, z: u64) -> u64 {
        combine_word(Op::Xor, x, y, z)
    }
}

impl Operation for Not {
    ghost op = { Not };

    fn word(x: u64, y: u64, z: u64) -> u64 {
        combine_word(Op::Not, x, y, z)
    }
}

impl Operation for Select {
    ghost op = { Select };

    fn word(x: u64, y: u64, z: u64) -> u64 {
        combine_word(Op::Select, x, y, z)
    }
}
