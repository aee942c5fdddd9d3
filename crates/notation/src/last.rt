//! What the last call left: its answer, and the bytes, the numbers and the ends of the last one that has them as output.
ghost use Rattle.std.specs.Prelude.{◌≡◌, [], take, OnOk};
ghost use Rattle.notation.specs.Answer.{tokens_of};
ghost use Rattle.notation.specs.Last.{bytes_before, numbers_before, ends_before};

use crate::answer::{Answer, Token};
use crate::lent::Lent;
use crate::list::List;
use crate::names::Output;
use std::alloc::AllocError;

/// What the last call left, with which a request may go on.
#[derive(Drop)]
pub struct Last<'a> {
    pub answer: Answer<'a>,
    pub bytes: List<'a, u8>,
    pub numbers: List<'a, u32>,
    pub ends: List<'a, i32>,
}

impl<'a> Last<'a> {
    /// Returns the state before the first call.
    pub fn new(
        answer: &'a mut [Token],
        bytes: &'a mut [u8],
        numbers: &'a mut [u32],
        ends: &'a mut [i32],
    ) -> Last<'a>
        ensures answer { tokens_of result.answer ≡ [] }
        ensures bytes { result.bytes.items ≡ [] }
        ensures numbers { result.numbers.items ≡ [] }
        ensures ends { result.ends.items ≡ [] }
    {
        Last {
            answer: Answer::none(answer),
            bytes: List::new(bytes),
            numbers: List::new(numbers),
            ends: List::new(ends),
        }
    }

    /// Sets the outputs of the next call to what the lines lend.
    pub fn restore(&mut self, output: Output, lent: &Lent) -> Result<(), AllocError>
        ensures answer { self.new.answer ≡ self.old.answer }
        ensures bytes { OnOk result (self.new.bytes.items ≡ bytes_before output self.old.bytes.items lent.now.o.items) }
        ensures numbers { OnOk result (self.new.numbers.items ≡ numbers_before output self.old.numbers.items lent.now.i.items) }
        ensures ends { OnOk result (self.new.ends.items ≡ ends_before output self.old.ends.items lent.now.e.items) }
    {
        match output {
            Output::Bytes => self.bytes.assign(lent.o.as_slice()),
            Output::Numbers => self.numbers.assign(lent.i.as_slice()),
            Output::EndsAndBytes => {
                self.ends.assign(lent.e.as_slice())?;
                self.bytes.assign(lent.o.as_slice())
            }
            Output::Nothing => Ok(()),
        }
    }
}

/// Returns the first n elements of an output, or all. What is written is the caller's: the contract states what is lent. For an output on
/// the heap; `list_first_mut` is for one in lent memory.
pub fn first_mut<T>(output: &mut Vec<T>, n: usize) -> &mut [T]
    ensures { result.now ≡ take n output.old.items }
{
    let n = n.min(output.len());
    output.slice_mut(..n)
}

/// Returns the first n elements of an output in lent memory, or all, as `first_mut`.
pub fn list_first_mut<'b, T>(output: &'b mut List<'_, T>, n: usize) -> &'b mut [T]
    ensures { result.now ≡ take n output.old.items }
{
    output.slice_mut(n)
}
