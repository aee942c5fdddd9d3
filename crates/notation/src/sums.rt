//! Checksums of 64 bits: each step is a bijection of the sum so far, so that a change of one bit in one answer changes the sum.
ghost use Rattle.std.specs.Prelude.{◌≡◌};
ghost use Rattle.notation.specs.Answer.{tokens_of};
ghost use Rattle.notation.specs.Sums.{mixed, first_sum, token_mixed, answer_mixed, word_of, bytes_mixed, numbers_mixed, ends_mixed};

use crate::answer::{Answer, Token};

/// The checksum of nothing, as a number.
pub const FIRST: u64 = 0xcbf29ce484222325;

/// A checksum of the answers and outputs so far.
#[derive(Clone, Copy, Debug, PartialEq, Eq)]
pub struct Checksum(u64);

impl Checksum {
    /// Returns the checksum of nothing.
    pub fn new() -> Checksum
        ensures { result ≡ first_sum }
    {
        Checksum(FIRST)
    }

    /// Returns the checksum as a number.
    pub fn value(self) -> u64
        ensures { result ≡ self.0 }
    {
        let Checksum(value) = self;
        value
    }

    // Takes in one more number.
    #[tactic(auto, unfolding(crate::specs::Sums::mixed))]
    fn mix(self, value: u64) -> Checksum
        ensures { result ≡ mixed self value }
    {
        let a = self.0.wrapping_add(value);
        let b = a ^ a << 13;
        let c = b ^ b >> 7;
        Checksum(c ^ c << 17)
    }

    // Takes in an answer: how many tokens it has (`as`: a u64 has no `From` of a `usize`), and of each its kind and its value.
    pub(crate) fn answer(self, answer: &Answer) -> Checksum
        ensures { result ≡ answer_mixed self (tokens_of answer.now) }
    {
        let tokens = answer.as_slice();
        let sum = self.mix(tokens.len() as u64);
        tokens.iter().fold(sum, |sum, token| sum.token(*token))
    }

    fn token(self, token: Token) -> Checksum
        ensures { result ≡ token_mixed self token }
    {
        match token {
            Token::Number(n) => self.mix(0).mix(n),
            Token::Unknown => self.mix(1).mix(0),
            Token::Missing => self.mix(2).mix(0),
        }
    }

    /// Takes in bytes, eight at a time, with zeros after the last.
    pub fn bytes(self, bytes: &[u8]) -> Checksum
        ensures { result ≡ bytes_mixed self bytes.now }
    {
        bytes.chunks(8).fold(self, |sum, part| sum.mix(word(part)))
    }

    pub(crate) fn numbers(self, numbers: &[u32]) -> Checksum
        ensures { result ≡ numbers_mixed self numbers.now }
    {
        numbers.iter().fold(self, |sum, n| sum.mix(u64::from(*n)))
    }

    // Takes in each end as the number that its 32 bits have without a sign.
    pub(crate) fn ends(self, ends: &[i32]) -> Checksum
        ensures { result ≡ ends_mixed self ends.now }
    {
        ends.iter()
            .fold(self, |sum, end| sum.mix(u64::from(end.cast_unsigned())))
    }
}

// Returns at most eight bytes as a word.
fn word(bytes: &[u8]) -> u64
    ensures { result ≡ word_of bytes.now }
{
    bytes.iter().rev().fold(0, |w, b| w << 8 | u64::from(*b))
}
