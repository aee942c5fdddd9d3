//! The answer of a call.
ghost use Rattle.std.specs.Prelude.{◌≡◌, [], Some, IfOk, OnOk};
ghost use Rattle.std.specs.Int.{from_bool};
ghost use Rattle.notation.specs.declared.answer.Token.TheVariants.{Number};
ghost use Rattle.notation.specs.Answer.{tokens_of, number_alone, with_token, token_text, answer_text};

use crate::list::List;
use std::alloc::AllocError;
use std::fmt;

/// A token of an answer.
#[derive(Clone, Copy, Debug, PartialEq, Eq)]
pub enum Token {
    Number(u64),
    /// A zero count that is not known: `?`.
    Unknown,
    /// None or missing: `-`.
    Missing,
}

// One impl for each type: one over `T: Into<u64>` except `usize` is refused together with that of `usize`, which it might cover.
impl From<u64> for Token {
    ghost from_gives = { λ n t. t ≡ Number n };

    fn from(n: u64) -> Token {
        Token::Number(n)
    }
}

impl From<u32> for Token {
    ghost from_gives = { λ n t. t ≡ Number n };

    fn from(n: u32) -> Token {
        Token::Number(u64::from(n))
    }
}

impl From<u8> for Token {
    ghost from_gives = { λ n t. t ≡ Number n };

    fn from(n: u8) -> Token {
        Token::Number(u64::from(n))
    }
}

impl From<usize> for Token {
    ghost from_gives = { λ n t. t ≡ Number n };

    fn from(n: usize) -> Token {
        Token::Number(n as u64) // a u64 has no `From` of a `usize`
    }
}

impl From<bool> for Token {
    ghost from_gives = { λ flag t. t ≡ Number (from_bool flag) };

    fn from(flag: bool) -> Token {
        Token::Number(u64::from(flag))
    }
}

impl fmt::Display for Token {
    ghost output = { λ t. Some (token_text t) };

    fn fmt<W: fmt::Write>(&self, f: &mut fmt::Formatter<W>) -> fmt::Result {
        match self {
            Token::Number(n) => write!(f, "{n}"),
            Token::Unknown => write!(f, "?"),
            Token::Missing => write!(f, "-"),
        }
    }
}

/// The tokens of an answer: 0 or the refusing number, and after it what the call returned.
#[derive(Drop)]
pub struct Answer<'a> {
    pub(crate) tokens: List<'a, Token>,
}

impl<'a> Answer<'a> {
    // Returns an answer with no token, for no call.
    pub(crate) fn none(room: &'a mut [Token]) -> Answer<'a>
        ensures { tokens_of result ≡ [] }
    {
        Answer {
            tokens: List::new(room),
        }
    }

    /// Returns an answer with the number 0 or the refusing number; what the call returned comes after it.
    pub fn new(room: &'a mut [Token], number: u8) -> Result<Answer<'a>, AllocError>
        ensures { IfOk result (λ a. tokens_of a ≡ number_alone number) }
    {
        Answer::none(room).and(Token::from(number))
    }

    /// Returns the answer with one more token.
    pub fn and(self, token: Token) -> Result<Answer<'a>, AllocError>
        ensures { IfOk result (λ a. tokens_of a ≡ with_token (tokens_of self.entry) token) }
    {
        let Answer { mut tokens } = self;
        tokens.push(token)?;
        Ok(Answer { tokens })
    }

    /// Sets the answer to the number 0 or the refusing number, in the memory that it has; what the call returned comes after it.
    pub fn begin(&mut self, number: u8) -> Result<(), AllocError>
        ensures { OnOk result (tokens_of self.new ≡ number_alone number) }
    {
        self.tokens.clear();
        self.push(Token::from(number))
    }

    /// Appends a token.
    pub fn push(&mut self, token: Token) -> Result<(), AllocError>
        ensures { OnOk result (tokens_of self.new ≡ with_token (tokens_of self.old) token) }
    {
        self.tokens.push(token)?;
        Ok(())
    }

    pub(crate) fn as_slice(&self) -> &[Token]
        ensures { result.now ≡ tokens_of self.now }
    {
        self.tokens.as_slice()
    }
}

// Each token after a space.
impl fmt::Display for Answer<'_> {
    ghost output = { λ a. Some (answer_text (tokens_of a)) };

    fn fmt<W: fmt::Write>(&self, f: &mut fmt::Formatter<W>) -> fmt::Result {
        for token in self.as_slice() {
            write!(f, " {token}")?;
        }
        Ok(())
    }
}
