//! The outcome of a request: the answers and outputs of its calls, compared with its line.
ghost use Rattle.std.specs.Prelude.{◌≡◌, ◌≢◌, IfOk, IsOkAnd, Ok, is_some, true, false};
ghost use Rattle.notation.specs.declared.outcome.Verdict.TheVariants.{Made};
ghost use Rattle.notation.specs.Outcome.{none_made, taken};

use crate::answer::Answer;
use crate::choices;
use crate::element::holds;
use crate::fault::Fault;
use crate::item::Item;
use crate::items::Items;
use crate::last::Last;
use crate::lent::Lent;
use crate::names::Output;
use crate::reading::Reading;
use crate::sums::Checksum;

/// The `RANGE` of `choices`.
pub const RANGE: u64 = choices::RANGE;

#[derive(Clone, Copy, Debug, PartialEq, Eq)]
pub(crate) enum Verdict {
    Same,
    Differs,
    // There is no answer to compare.
    Made,
}

/// The call's name and its place, and how many calls were made. The name is what is printed, the place is where the tally counts.
#[derive(Clone, Copy, Debug)]
pub struct Outcome {
    pub name: &'static str,
    pub(crate) place: usize,
    pub(crate) calls: u64,
    pub(crate) verdict: Verdict,
}

/// How many calls were made, and the checksum of their answers and outputs.
#[derive(Clone, Copy, Debug)]
pub struct Ran {
    calls: u64,
    sum: Checksum,
}

impl Ran {
    /// Returns the state before the first call.
    pub fn new() -> Ran
        ensures { result ≡ none_made }
    {
        Ran {
            calls: 0,
            sum: Checksum::new(),
        }
    }

    /// Takes in a call: its answer and its outputs.
    pub fn take(&mut self, output: Output, last: &Last)
        ensures { self.new ≡ taken output last.now self.old }
    {
        let sum = self.sum.answer(&last.answer);
        self.sum = match output {
            Output::Bytes => sum.bytes(last.bytes.as_slice()),
            Output::Numbers => sum.numbers(last.numbers.as_slice()),
            Output::EndsAndBytes => sum.ends(last.ends.as_slice()).bytes(last.bytes.as_slice()),
            Output::Nothing => sum,
        };
        self.calls = self.calls.saturating_add(1);
    }
}

/// Compares the calls made with the line. The contract states in full what is counted and when there is nothing to compare. It leaves open
/// which answers and outputs are the same: a definition of their text's meaning would be the parser again.
pub fn compare(
    reading: &Reading,
    ran: Ran,
    lent: &Lent,
    last: &Last,
    left: &mut Items,
) -> Result<Outcome, Fault>
    ensures name { IfOk result (λ o. o.name ≡ reading.now.named.name) }
    ensures place { IfOk result (λ o. o.place ≡ reading.now.place) }
    ensures calls { IfOk result (λ o. o.calls ≡ ran.calls) }
    ensures made { is_some reading.now.items.now.answer ≡ false → IsOkAnd result (λ o. o.verdict ≡ Made) }
    ensures expected { is_some reading.now.items.now.answer ≡ true → IfOk result (λ o. o.verdict ≢ Made) }
{
    let expected = answer_verdict(reading, ran, &last.answer)?;
    // The arms of bytes and numbers are calls of `holds` at two types, so that no one pattern joins them.
    let held = match reading.compared() {
        Output::Bytes => holds(
            reading.after,
            lent.o.as_slice(),
            last.bytes.as_slice(),
            &last.answer,
            left,
        )?,
        Output::Numbers => holds(
            reading.after,
            lent.i.as_slice(),
            last.numbers.as_slice(),
            &last.answer,
            left,
        )?,
        Output::EndsAndBytes => {
            let (ends, bytes) = reading.both()?;
            let ends = holds(
                ends,
                lent.e.as_slice(),
                last.ends.as_slice(),
                &last.answer,
                left,
            )?;
            let bytes = holds(
                bytes,
                lent.o.as_slice(),
                last.bytes.as_slice(),
                &last.answer,
                left,
            )?;
            ends && bytes
        }
        Output::Nothing => true,
    };
    Ok(Outcome {
        name: reading.named.name,
        place: reading.place,
        calls: ran.calls,
        verdict: if held { expected } else { Verdict::Differs },
    })
}

// Returns the verdict on the answer, without the output.
fn answer_verdict(reading: &Reading, ran: Ran, answer: &Answer) -> Result<Verdict, Fault>
    ensures made { is_some reading.now.items.now.answer ≡ false → result ≡ Ok Made }
    ensures expected { is_some reading.now.items.now.answer ≡ true → IfOk result (λ v. v ≢ Made) }
{
    let same = match reading.items.answer() {
        None => return Ok(Verdict::Made),
        Some(expected) if reading.items.is_ranged() => is_sum(expected, ran)?,
        Some(expected) => is_answer(expected, answer),
    };
    Ok(if same {
        Verdict::Same
    } else {
        Verdict::Differs
    })
}

// Returns whether the answer of a range is right: `#`, the number of calls, and an item whose first value is the checksum.
fn is_sum(expected: &[Item], ran: Ran) -> Result<bool, Fault> {
    match expected {
        [Item::Calls(calls), sum] => {
            Ok(*calls == ran.calls && sum.value(0).unwrap_or(0) == ran.sum.value())
        }
        _ => Err(Fault::Malformed),
    }
}

fn is_answer(expected: &[Item], answer: &Answer) -> bool {
    let tokens = answer.as_slice();
    expected.len() == tokens.len()
        && expected
            .iter()
            .zip(tokens)
            .all(|(item, token)| item.matches(*token))
}
