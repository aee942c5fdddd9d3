//! What is read of a malformed text: of a number the digits, of an item what its first byte says, of bytes the pairs of digits. Such items
//! stay among those that texts left, and such bytes and numbers are written over those that the letter has.
ghost use Rattle.std.specs.Prelude.{◌≡◌, length};

use crate::answer::Answer;
use crate::arguments::low;
use crate::item::{Item, Role};
use crate::items::Items;
use crate::list::List;
use crate::pieces::{NUMBER_TIMES, copied, doublings};
use crate::text;
use crate::text::number_of_malformed;

// A count of a malformed `HEX*N` is read modulo this before its last digit.
const TIMES: u64 = 10000000;

impl Items {
    // Reads the items of a malformed text, with no regard to its tokens.
    pub(crate) fn read_malformed(&mut self, text: &[u8], last: &Answer) {
        self.begin();
        if !text.is_empty() {
            for token in text.split(|b| *b == b' ') {
                match token {
                    [b'=', ..] => {}
                    [b'@', many @ ..] => self.put_last(number_of_malformed(many), last),
                    _ => self.put_several(token),
                }
            }
        }
    }

    // Puts the last tokens of an answer, if it has so many. `as` between `usize` and u64: neither has a `From` of the other.
    fn put_last(&mut self, many: u64, last: &Answer) {
        let tokens = last.as_slice();
        if let Some(from) = (tokens.len() as u64).checked_sub(many) {
            for token in tokens.iter().skip(from as usize) {
                self.put(Item::from(*token));
            }
        }
    }

    fn put_several(&mut self, token: &[u8]) {
        let mut role = Role::Argument;
        for part in token.split(|b| *b == b',') {
            let item = match Item::read(part, role) {
                Some(item) => item,
                None => Item::of_malformed(part, role),
            };
            self.put(item);
            role = item.role();
        }
    }
}

impl Item {
    // Reads a malformed item. A number with no letter has the role `role`, as in `read`.
    fn of_malformed(text: &[u8], role: Role) -> Item {
        match text {
            [b'?', ..] => Item::Unknown,
            [b'-', ..] => Item::Missing,
            [b'_', ..] => Item::Any,
            [b'#', digits @ ..] => Item::Calls(number_of_malformed(digits)),
            [letter, b':', numbers @ ..] => match Role::of_letter(*letter) {
                Some(role) => Item::numbers_of_malformed(numbers, role),
                None => Item::numbers_of_malformed(text, role),
            },
            _ => Item::numbers_of_malformed(text, role),
        }
    }

    // Reads a malformed `A..B`, `N*K` or number: a range has no value if B is not above A.
    fn numbers_of_malformed(text: &[u8], role: Role) -> Item {
        if let Some((from, rest)) = text::split_once(text, b'.') {
            let first = number_of_malformed(from);
            let end = number_of_malformed(rest.get(1..).unwrap_or(&[]));
            return Item::Numbers {
                role,
                first,
                count: end.saturating_sub(first),
                step: 1,
            };
        }
        if let Some((number, times)) = text::split_once(text, b'*') {
            return Item::Times {
                number: number_of_malformed(number),
                times: number_of_malformed(times),
            };
        }
        Item::single(role, number_of_malformed(text))
    }
}

// How many elements are read of malformed text, at the front of the memory of a letter's list; of bytes, the first digit of one, which
// stays until the second comes, also in a later piece.
#[derive(Clone, Copy, Debug)]
struct Part {
    len: usize,
    high: Option<u8>,
}

// Reads malformed pieces of bytes into the memory of the list.
pub(crate) fn bytes(text: &[u8], to: &mut List<'_, u8>)
    ensures { length to.new.items ≡ length to.old.items }
{
    let mut part = Part { len: 0, high: None };
    for piece in text.split(|b| *b == b' ') {
        part.read(piece, to);
    }
}

// Reads the numbers of items, which may be malformed: of each its first value, as often as it has values, if there is room.
pub(crate) fn numbers(items: &[Item], to: &mut List<'_, u32>)
    ensures { length to.new.items ≡ length to.old.items }
{
    let mut part = Part { len: 0, high: None };
    for item in items {
        let number = low(item.value(0).unwrap_or(0));
        part.append(number, (item.count() % NUMBER_TIMES) as usize, to);
    }
}

impl Part {
    // Reads `HEX` or `HEX*N`.
    fn read(&mut self, piece: &[u8], to: &mut List<'_, u8>)
        ensures { length to.new.items ≡ length to.old.items }
    {
        let (hex, times) = text::split_once(piece, b'*').unwrap_or((piece, b"1"));
        let begin = self.len;
        for b in hex {
            self.digit(*b, to);
        }
        self.append_from(begin, more_times(times), to);
    }

    fn digit(&mut self, b: u8, to: &mut List<'_, u8>)
        ensures { length to.new.items ≡ length to.old.items }
    {
        match (self.high, text::digit(b)) {
            (Some(high), Some(low)) => {
                self.high = None;
                self.append(high << 4 | low, 1, to);
            }
            (high, low) => self.high = high.or(low),
        }
    }

    // Appends an element `times` times, if there is room for all.
    fn append<T: Copy>(&mut self, element: T, times: usize, to: &mut List<'_, T>)
        ensures { length to.new.items ≡ length to.old.items }
    {
        let end = self.len.saturating_add(times);
        if to.fits(end) {
            to.fill_memory(self.len, end, element);
            self.len = end;
        }
    }

    // Appends the elements from place `begin` on `times` times, if there is room for all.
    fn append_from<T: Copy>(&mut self, begin: usize, times: usize, to: &mut List<'_, T>)
        ensures { length to.new.items ≡ length to.old.items }
    {
        let size = self.len.saturating_sub(begin);
        let end = self.len.saturating_add(size.saturating_mul(times));
        if to.fits(end) {
            for _ in 0..doublings(times) {
                self.append_copy(begin, end, to);
            }
        }
    }

    fn append_copy<T: Copy>(&mut self, begin: usize, end: usize, to: &mut List<'_, T>)
        ensures { length to.new.items ≡ length to.old.items }
    {
        let size = copied(begin, self.len, end);
        to.copy_memory(begin, size, self.len);
        self.len = self.len.saturating_add(size);
    }
}

// Returns how many copies come after the first. A byte that is no digit counts as 0, and a second `*` is passed over.
fn more_times(digits: &[u8]) -> usize {
    let mut times: u64 = 0;
    for b in digits {
        if *b != b'*' {
            let d = text::digit(*b).unwrap_or(0);
            times = times % TIMES * 10 + u64::from(d);
        }
    }
    times.saturating_sub(1) as usize
}
