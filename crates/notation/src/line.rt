//! A line: what it lends, a request, or nothing. docs/REQUESTS.md has its meaning.
ghost use Rattle.std.specs.Prelude.{◌≡◌, IfErr};
ghost use Rattle.notation.specs.declared.fault.Fault.TheVariants.{Malformed};
ghost use Rattle.notation.specs.Line.{meaning_of, meaning, lettered};

use crate::fault::Fault;
use crate::lent::Letter;

/// A line, by what it is for.
#[derive(Clone, Copy)]
pub enum Line<'a> {
    /// A comment, or empty.
    Nothing,
    /// The pieces that are lent.
    Lends(Letter, &'a [u8]),
    Request(&'a [u8]),
    /// A request on the output as the last call left it.
    GoesOn(&'a [u8]),
}

impl<'a> Line<'a> {
    /// Reads a line. It is malformed if its first token is one byte that is neither `+` nor a letter of what is lent.
    pub fn read(text: &'a [u8]) -> Result<Line<'a>, Fault>
        ensures meaning { meaning result ≡ meaning_of text.now }
        ensures malformed { IfErr result (λ e. e ≡ Malformed) }
    {
        match text {
            [] | [b'#', ..] => Ok(Line::Nothing),
            [letter] => Line::lettered(*letter, &[]),
            [letter, b' ', rest @ ..] => Line::lettered(*letter, rest),
            _ => Ok(Line::Request(text)),
        }
    }

    fn lettered(letter: u8, rest: &'a [u8]) -> Result<Line<'a>, Fault>
        ensures meaning { meaning result ≡ lettered letter rest.now }
        ensures malformed { IfErr result (λ e. e ≡ Malformed) }
    {
        if letter == b'+' {
            return Ok(Line::GoesOn(rest));
        }
        let letter = Letter::of(letter).ok_or(Fault::Malformed)?;
        Ok(Line::Lends(letter, rest))
    }
}
