//! A request's line, taken apart.
ghost use Rattle.std.specs.Prelude.{◌≡◌, IfOk, IsSome, is_some, false};
ghost use Rattle.notation.specs.Items.{plain_of};
ghost use Rattle.notation.specs.declared.names.Output.TheVariants.{Nothing};

use crate::answer::Answer;
use crate::arguments::Arguments;
use crate::fault::Fault;
use crate::items::Items;
use crate::lent::Sizes;
use crate::names::{NAMES, Named, Output};
use crate::{names, text};

/// A request: the place of its call's name and the entry there, the items of its arguments and its answer, and what its output must hold.
/// `named` is the entry of the table at `place`; an entry does not hold its place, by which the tally counts.
#[derive(Clone, Copy)]
pub struct Reading<'a> {
    pub(crate) place: usize,
    pub named: Named,
    pub(crate) items: &'a Items,
    pub(crate) after: &'a [u8],
}

impl<'a> Reading<'a> {
    /// Reads a request's line; `last` is the last call's answer. Its items come into `items`, and over those that texts left. The contract
    /// states that the call has as many arguments as its entry in the table. It leaves open what they are and which entry is taken: a
    /// definition of the text's meaning would be the parser again.
    pub fn read(
        line: &'a [u8],
        items: &'a mut Items,
        left: &mut Items,
        last: &Answer,
    ) -> Result<Reading<'a>, Fault>
        ensures { IfOk result (λ r. plain_of r.items.now ≡ r.named.arguments) }
    {
        let (head, after) = cut(line);
        let (name, rest) = text::split_once(head, b' ').unwrap_or((head, &[]));
        items.read_request(rest, left, last)?;
        let place = names::place(name).ok_or(Fault::Malformed)?;
        items.fill_empty(left);
        let reading = Reading {
            place,
            named: NAMES.get(place).copied().ok_or(Fault::Malformed)?,
            items,
            after: after.unwrap_or(&[]),
        };
        if reading.items.plain() != reading.named.arguments {
            return Err(Fault::Malformed);
        }
        if after.is_some() != (reading.compared() != Output::Nothing) {
            return Err(Fault::Malformed);
        }
        Ok(reading)
    }

    // Returns the output that is compared: that of a single call with an answer. A range has its output in its checksum.
    pub(crate) fn compared(&self) -> Output
        ensures { is_some self.now.items.now.answer ≡ false → result ≡ Nothing }
    {
        if self.items.answer().is_some() && !self.items.is_ranged() {
            self.named.output
        } else {
            Output::Nothing
        }
    }

    // Returns what the two outputs of a call must hold, the ends and the bytes: a bar is between them.
    pub(crate) fn both(&self) -> Result<(&[u8], &[u8]), Fault> {
        match cut(self.after) {
            (ends, Some(bytes)) => Ok((ends, bytes)),
            _ => Err(Fault::Malformed),
        }
    }

    /// Returns the arguments of call t of the request, None after its last one. The contract states that there is a first one. It leaves
    /// open how many there are and what they are: both come from the text, and a definition of its meaning would be the parser again.
    pub fn choice(&self, t: u64, sizes: Sizes) -> Option<Arguments>
        ensures { t ≡ 0 → IsSome result }
    {
        self.items.choice(t, sizes)
    }
}

// Returns the text before ` |`, and that after `| ` if there is a bar. With no bar all is before it; also with one at the start, since such
// a line names no call.
fn cut(line: &[u8]) -> (&[u8], Option<&[u8]>) {
    match text::split_once(line, b'|') {
        None | Some(([], _)) => (line, None),
        Some(([head @ .., _], [_, after @ ..])) => (head, Some(after)),
        Some(([head @ .., _], [])) => (head, Some(&[])),
    }
}
