//! What is lent to the calls: the bytes x, y, z and o, the numbers i, and the ends e.
ghost use Rattle.std.specs.Prelude.{◌≡◌, [], take, OnOk, OnErr, IfErr, true};
ghost use Rattle.notation.specs.Fault.{IsOfMemory};
ghost use Rattle.notation.specs.Lent.{sizes_of, KeptBut, is_again, IsLeft, IsUnlent};
ghost use Rattle.notation.specs.Line.{letter_of};

use crate::fault::Fault;
use crate::items::Items;
use crate::last::Last;
use crate::list::List;
use crate::{element, malformed};
use std::alloc::AllocError;

/// At most this many bytes of a letter are lent: those of 4,194,304 flags and 64 more.
pub const ROOM: usize = 524352;

/// The letter of what is lent.
#[derive(Clone, Copy, Debug, PartialEq, Eq)]
pub enum Letter {
    X,
    Y,
    Z,
    O,
    I,
    E,
}

impl Letter {
    pub(crate) fn of(letter: u8) -> Option<Letter>
        ensures { result ≡ letter_of letter }
    {
        match letter {
            b'x' => Some(Letter::X),
            b'y' => Some(Letter::Y),
            b'z' => Some(Letter::Z),
            b'o' => Some(Letter::O),
            b'i' => Some(Letter::I),
            b'e' => Some(Letter::E),
            _ => None,
        }
    }
}

/// One for each letter: of bytes for x, y, z and o, of numbers for i, of ends for e.
#[derive(Clone, Copy, Debug)]
pub struct ByLetter<B, N, E> {
    pub x: B,
    pub y: B,
    pub z: B,
    pub o: B,
    pub i: N,
    pub e: E,
}

/// How many of each are lent.
pub type Sizes = ByLetter<usize, usize, usize>;

impl ByLetter<usize, usize, usize> {
    fn get_mut(&mut self, letter: Letter) -> &mut usize {
        match letter {
            Letter::X => &mut self.x,
            Letter::Y => &mut self.y,
            Letter::Z => &mut self.z,
            Letter::O => &mut self.o,
            Letter::I => &mut self.i,
            Letter::E => &mut self.e,
        }
    }

    // Limits how much of this letter is lent to `most`. `as`: `usize` has no `From` of a u64.
    pub(crate) fn limit(&mut self, letter: Letter, most: u64) {
        let size = self.get_mut(letter);
        *size = (*size).min(most as usize);
    }
}

/// What the lines so far lend.
pub type Lent<'a> = ByLetter<List<'a, u8>, List<'a, u32>, List<'a, i32>>;

/// Room for what the lines lend.
pub type Rooms<'a> = ByLetter<&'a mut [u8], &'a mut [u32], &'a mut [i32]>;

/// What a call reads of what is lent.
pub type Parts<'a> = ByLetter<&'a [u8], &'a [u32], &'a [i32]>;

impl<'a> ByLetter<List<'a, u8>, List<'a, u32>, List<'a, i32>> {
    /// Returns the state before the first line: nothing is lent.
    pub fn new(rooms: Rooms<'a>) -> Lent<'a>
        ensures x { result.x.items ≡ [] }
        ensures y { result.y.items ≡ [] }
        ensures z { result.z.items ≡ [] }
        ensures o { result.o.items ≡ [] }
        ensures i { result.i.items ≡ [] }
        ensures e { result.e.items ≡ [] }
    {
        Lent {
            x: List::new(rooms.x),
            y: List::new(rooms.y),
            z: List::new(rooms.z),
            o: List::new(rooms.o),
            i: List::new(rooms.i),
            e: List::new(rooms.e),
        }
    }

    /// Takes what a line lends. The contract states in full what stays and what `@` lends. It leaves open what other pieces lend and which
    /// are malformed: a definition of their text's meaning would be the parser again.
    /// The items of a line of numbers, malformed ones too, are written over the first of those that earlier texts left.
    pub fn take(
        &mut self,
        letter: Letter,
        text: &[u8],
        last: &Last,
        left: &mut Items,
    ) -> Result<(), Fault>
        ensures others { KeptBut letter self.old self.new }
        ensures malformed { OnErr result (self.new ≡ self.old) }
        ensures again { is_again text.now ≡ true → OnOk result (IsLeft letter self.new last.now) }
        ensures failed { is_again text.now ≡ true → IfErr result (IsUnlent letter) }
    {
        match letter {
            Letter::X => bytes(&mut self.x, text, last, left),
            Letter::Y => bytes(&mut self.y, text, last, left),
            Letter::Z => bytes(&mut self.z, text, last, left),
            Letter::O => bytes(&mut self.o, text, last, left),
            Letter::I => element::lent(&mut self.i, text, last, left),
            Letter::E => ends(&mut self.e, text, last, left),
        }
    }

    /// Writes what is read of malformed pieces over the first bytes or numbers that the letter has: how many it has stays, and so do ends.
    /// Of numbers, `left` has the items of the pieces.
    pub fn take_part(&mut self, letter: Letter, text: &[u8], left: &Items)
        ensures others { KeptBut letter self.old self.new }
        ensures sizes { sizes_of self.new ≡ sizes_of self.old }
        ensures ends { self.new.e ≡ self.old.e }
    {
        match letter {
            Letter::X => malformed::bytes(text, &mut self.x),
            Letter::Y => malformed::bytes(text, &mut self.y),
            Letter::Z => malformed::bytes(text, &mut self.z),
            Letter::O => malformed::bytes(text, &mut self.o),
            Letter::I => malformed::numbers(left.as_slice(), &mut self.i),
            Letter::E => {}
        }
    }

    /// Sets o to the bytes that the last call left.
    pub fn go_on(&mut self, last: &Last) -> Result<(), AllocError>
        ensures output { OnOk result (self.new.o.items ≡ last.now.bytes.items) }
        ensures inputs { self.new ≡ record self.old { o = self.new.o } }
    {
        self.o.assign(last.bytes.as_slice())
    }

    /// Returns how many bytes, numbers and ends are lent.
    pub fn sizes(&self) -> Sizes
        ensures { result ≡ sizes_of self.now }
    {
        Sizes {
            x: self.x.len(),
            y: self.y.len(),
            z: self.z.len(),
            o: self.o.len(),
            i: self.i.len(),
            e: self.e.len(),
        }
    }

    /// Returns the first bytes, numbers and ends of each letter, by `sizes`.
    pub fn parts(&self, sizes: Sizes) -> Parts<'_>
        ensures x { result.x.now ≡ take sizes.x self.now.x.items }
        ensures y { result.y.now ≡ take sizes.y self.now.y.items }
        ensures z { result.z.now ≡ take sizes.z self.now.z.items }
        ensures o { result.o.now ≡ take sizes.o self.now.o.items }
        ensures i { result.i.now ≡ take sizes.i self.now.i.items }
        ensures e { result.e.now ≡ take sizes.e self.now.e.items }
    {
        Parts {
            x: first(self.x.as_slice(), sizes.x),
            y: first(self.y.as_slice(), sizes.y),
            z: first(self.z.as_slice(), sizes.z),
            o: first(self.o.as_slice(), sizes.o),
            i: first(self.i.as_slice(), sizes.i),
            e: first(self.e.as_slice(), sizes.e),
        }
    }
}

// Reads pieces, or `@` for the bytes that the last call left.
fn bytes(list: &mut List<'_, u8>, text: &[u8], last: &Last, left: &mut Items) -> Result<(), Fault>
    ensures malformed { OnErr result (list.new ≡ list.old) }
    ensures again { is_again text.now ≡ true → OnOk result (list.new.items ≡ last.now.bytes.items) }
    ensures failed { is_again text.now ≡ true → IfErr result IsOfMemory }
{
    match text {
        [b'@', ..] => Ok(list.assign(last.bytes.as_slice())?),
        _ => element::lent(list, text, last, left),
    }
}

// Reads pieces, or `@` for the ends that the last call left.
fn ends(list: &mut List<'_, i32>, text: &[u8], last: &Last, left: &mut Items) -> Result<(), Fault>
    ensures malformed { OnErr result (list.new ≡ list.old) }
    ensures again { is_again text.now ≡ true → OnOk result (list.new.items ≡ last.now.ends.items) }
    ensures failed { is_again text.now ≡ true → IfErr result IsOfMemory }
{
    match text {
        [b'@', ..] => Ok(list.assign(last.ends.as_slice())?),
        _ => element::lent(list, text, last, left),
    }
}

// Returns the first n items, or all.
pub(crate) fn first<T>(items: &[T], n: usize) -> &[T]
    ensures { result.now ≡ take n items.now }
{
    items.get(..n).unwrap_or(items)
}
