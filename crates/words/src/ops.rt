//! The operations of the combinations, each on whole words, flag by flag.
ghost use Rattle.std.specs.Prelude.{◌≡◌, not, cond, ◌&&◌, ◌||◌};
ghost use Rattle.std.specs.Bool.{xor};
ghost use mathlib.Core.List.{map, zip_with};
ghost use Rattle.words.specs.Flags.{word_flags};
ghost use Rattle.words.specs.Ops.{and_not, or_not, op_of, zip3};

/// An operation on the flags of one to three masks: `Not` reads the first, `Select` all three, the others the first two.
#[derive(Clone, Copy, PartialEq, Eq, Debug)]
pub enum Op {
    And,
    AndNot,
    Or,
    OrNot,
    Xor,
    Not,
    Select,
}

/// Returns a word of the flags that are set in x and in y.
pub fn and_word(x: u64, y: u64) -> u64
    ensures { word_flags result ≡ zip_with ◌&&◌ (word_flags x) (word_flags y) }
{
    x & y
}

/// Returns a word of the flags that are set in x and not in y.
pub fn and_not_word(x: u64, y: u64) -> u64
    ensures { word_flags result ≡ zip_with and_not (word_flags x) (word_flags y) }
{
    x & !y
}

/// Returns a word of the flags that are set in x, in y or in both.
pub fn or_word(x: u64, y: u64) -> u64
    ensures { word_flags result ≡ zip_with ◌||◌ (word_flags x) (word_flags y) }
{
    x | y
}

/// Returns a word of the flags that are set in x or not set in y.
pub fn or_not_word(x: u64, y: u64) -> u64
    ensures { word_flags result ≡ zip_with or_not (word_flags x) (word_flags y) }
{
    x | !y
}

/// Returns a word of the flags that are set in exactly one of x and y.
pub fn xor_word(x: u64, y: u64) -> u64
    ensures { word_flags result ≡ zip_with xor (word_flags x) (word_flags y) }
{
    x ^ y
}

/// Returns a word of the flags that are not set in x.
pub fn not_word(x: u64) -> u64
    ensures { word_flags result ≡ map not (word_flags x) }
{
    !x
}

/// Returns the flags of y where those of x are set, and the flags of z elsewhere.
pub fn select_word(x: u64, y: u64, z: u64) -> u64
    ensures { word_flags result ≡ zip3 cond (word_flags x) (word_flags y) (word_flags z) }
{
    (x & y) | (!x & z)
}

/// Applies `op` to the flags of x, y and z. `Not` reads x, `Select` all three, the others x and y.
pub fn combine_word(op: Op, x: u64, y: u64, z: u64) -> u64
    ensures { word_flags result ≡ zip3 (op_of op) (word_flags x) (word_flags y) (word_flags z) }
{
    // a `match`: each arm names another function, and this is the one dispatch of an operation on words
    match op {
        Op::And => and_word(x, y),
        Op::AndNot => and_not_word(x, y),
        Op::Or => or_word(x, y),
        Op::OrNot => or_not_word(x, y),
        Op::Xor => xor_word(x, y),
        Op::Not => not_word(x),
        Op::Select => select_word(x, y, z),
    }
}
