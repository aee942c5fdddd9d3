//! What is kept from one line to the next, and what a line does.
use crate::calls;
use notation::arguments::Arguments;
use notation::call::Call;
use notation::fault::Fault;
use notation::items::Items;
use notation::last::Last;
use notation::lent::{Lent, Letter, Rooms};
use notation::line::Line;
use notation::names::Output;
use notation::outcome;
use notation::outcome::{Outcome, RANGE, Ran};
use notation::reading::Reading;
use notation::tally::Tally;
use std::io;

#[derive(Drop)]
pub(crate) struct Session<'a> {
    lent: Lent<'a>,
    last: Last<'a>,
    // The items of the last request, and those that all texts left.
    items: &'a mut Items,
    left: &'a mut Items,
    tally: Tally,
}

impl<'a> Session<'a> {
    pub(crate) fn new(
        rooms: Rooms<'a>,
        last: Last<'a>,
        items: &'a mut Items,
        left: &'a mut Items,
    ) -> Session<'a> {
        Session {
            lent: Lent::new(rooms),
            last,
            items,
            left,
            tally: Tally::new(),
        }
    }

    // Takes a line and counts its outcome.
    pub(crate) fn line(&mut self, rt: &impl Print, text: Result<&[u8], Fault>) -> io::Result<()> {
        let line = self.tally.count_line();
        match self.take(text) {
            Ok(None) => Ok(()),
            Ok(Some(outcome)) => self.count(rt, line, outcome),
            Err(Fault::Malformed) => self.count_malformed(rt, line),
            Err(Fault::Failed(e)) => Err(e),
        }
    }

    // Counts a request. If it differs, prints it with the answer of its last call.
    fn count(&mut self, rt: &impl Print, line: u64, outcome: Outcome) -> io::Result<()> {
        if self.tally.count(outcome) {
            let name = outcome.name;
            let gave = &self.last.answer;
            println!(rt; "line {line} differs: {name} gave{gave}")?;
        }
        Ok(())
    }

    fn count_malformed(&mut self, rt: &impl Print, line: u64) -> io::Result<()> {
        if self.tally.count_malformed() {
            println!(rt; "line {line} is malformed")?;
        }
        Ok(())
    }

    pub(crate) fn print(&self, rt: &impl Print) -> io::Result<()> {
        let tally = &self.tally;
        println!(rt; "{tally}")
    }

    // Takes what a line lends, or makes its request and returns the outcome. A name of one byte is that of no call; if the byte is 0, the
    // items of the line are read all the same.
    fn take(&mut self, text: Result<&[u8], Fault>) -> Result<Option<Outcome>, Fault> {
        let text = text?;
        if let [0, b' ', ..] = text {
            return Ok(Some(self.request(text)?));
        }
        match Line::read(text)? {
            Line::Nothing => Ok(None),
            Line::Lends(letter, pieces) => {
                self.lend(letter, pieces)?;
                Ok(None)
            }
            Line::Request(request) => Ok(Some(self.request(request)?)),
            Line::GoesOn(request) => {
                self.lent.go_on(&self.last)?;
                Ok(Some(self.request(request)?))
            }
        }
    }

    // Lends pieces. Of malformed ones, what is read is written over the first that the letter has.
    fn lend(&mut self, letter: Letter, pieces: &[u8]) -> Result<(), Fault> {
        let taken = self.lent.take(letter, pieces, &self.last, self.left);
        if let Err(Fault::Malformed) = taken {
            self.lent.take_part(letter, pieces, self.left);
        }
        taken
    }

    // Makes a request. A malformed one leaves as many bytes as there were before: the first of them as its last call wrote them.
    fn request(&mut self, text: &[u8]) -> Result<Outcome, Fault> {
        let reading = Reading::read(text, self.items, self.left, &self.last.answer)?;
        let bytes = self.last.bytes.len();
        let ran = make(&reading, &self.lent, &mut self.last)?;
        let outcome = outcome::compare(&reading, ran, &self.lent, &self.last, self.left);
        if let Err(Fault::Malformed) = outcome {
            if reading.named.output == Output::Bytes {
                self.last.bytes.set_len(bytes);
            }
        }
        outcome
    }
}

// Makes the calls of a request, one for each choice of a range.
fn make(reading: &Reading, lent: &Lent, last: &mut Last) -> Result<Ran, Fault> {
    let output = reading.named.output;
    let call = reading.named.call;
    let sizes = lent.sizes();
    let mut ran = Ran::new();
    let mut arguments = reading.choice(0, sizes).unwrap();
    for t in 1..=RANGE {
        last.restore(output, lent)?;
        answer(call, &arguments, lent, last)?;
        ran.take(output, last);
        if !reading.choose(t, sizes, &mut arguments) {
            break;
        }
    }
    Ok(ran)
}

// Makes a call on what is lent. A function of its own: the parts stay lent while `last`, which holds references too, is written.
fn answer(call: Call, a: &Arguments, lent: &Lent, last: &mut Last) -> Result<(), Fault> {
    calls::answer(call, a, lent.parts(a.sizes), last)?;
    Ok(())
}
