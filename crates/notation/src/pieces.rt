//! Lists of bytes, of numbers and of ends, written in pieces. A list may have more than the room; but `HEX*N` is malformed if no byte of
//! HEX had room.
use crate::arguments::low;
use crate::fault::Fault;
use crate::item::{Item, Role};
use crate::items::Items;
use crate::text;

// The N of `HEX*N` is read modulo this: its last eight digits.
const BYTES_TIMES: u64 = 100000000;

// The K of `N*K` is read modulo this: its low 24 bits.
pub(crate) const NUMBER_TIMES: u64 = 1 << 24;

// Returns how often elements that come `times` times more are copied after themselves: each time there are twice as many.
pub(crate) fn doublings(times: usize) -> u32 {
    usize::BITS.saturating_sub(times.leading_zeros())
}

// Returns how many of the elements from place `begin` up to `len` are copied after them, of a list that is to have `end`.
pub(crate) fn copied(begin: usize, len: usize, end: usize) -> usize {
    end.saturating_sub(len).min(len.saturating_sub(begin))
}

// A list as it is read: each element is written to `to` and compared with `against`, at its place, as far as these go. `fits` is whether
// all had room. It is a state: what follows is still read if they had not, since a malformed item refuses the line before the room does.
#[derive(Drop)]
pub(crate) struct Draft<'b, T> {
    to: &'b mut [T],
    against: &'b [T],
    room: usize,
    len: usize,
    fits: bool,
    same: bool,
}

impl<'b, T: Copy + PartialEq> Draft<'b, T> {
    pub(crate) fn new(to: &'b mut [T], against: &'b [T], room: usize) -> Draft<'b, T> {
        Draft {
            to,
            against,
            room,
            len: 0,
            fits: true,
            same: true,
        }
    }

    // Appends an element `times` times, if there is room for all.
    fn append(&mut self, item: T, times: usize) {
        let end = self.len.saturating_add(times);
        if self.room < end {
            self.fits = false;
            return;
        }
        let part = self.against.get(self.len..end).unwrap_or(&[]);
        self.same = self.same && part.len() == times && part.iter().all(|x| *x == item);
        self.put(item, end);
        self.len = end;
    }

    fn put(&mut self, item: T, end: usize) {
        let to = &mut *self.to;
        if let Some(part) = to.get_mut(self.len..end) {
            for place in part.iter_mut() {
                *place = item;
            }
        }
    }

    // Appends the elements from place `begin` on `times` times, if there is room for all.
    fn append_from(&mut self, begin: usize, times: usize) {
        let size = self.len.saturating_sub(begin);
        let end = self.len.saturating_add(size.saturating_mul(times));
        if self.room < end {
            self.fits = false;
            return;
        }
        // What the list is compared with has these elements at `begin`, if all were the same so far.
        let part = self.against.get(self.len..end).unwrap_or(&[]);
        let first = self.against.get(begin..).unwrap_or(&[]);
        let all = part.len() == end.saturating_sub(self.len);
        self.same = self.same && all && part.iter().zip(first).all(|(a, b)| a == b);
        if end <= self.to.len() {
            for _ in 0..doublings(times) {
                self.put_copy(begin, end);
            }
        }
        self.len = end;
    }

    // Copies the elements from place `begin` on to the place after them, up to place `end`.
    fn put_copy(&mut self, begin: usize, end: usize) {
        let size = copied(begin, self.len, end);
        let to = &mut *self.to;
        let all = to.len();
        if size <= all && begin <= all - size && self.len <= all - size {
            to.copy_within(begin..begin + size, self.len);
        }
        self.len = self.len.saturating_add(size);
    }

    // Returns how many elements there are, None if they had no room.
    pub(crate) fn count(&self) -> Option<usize> {
        self.fits.then_some(self.len)
    }

    // Returns whether the list is the one that it was compared with.
    pub(crate) fn is_same(&self) -> bool {
        self.fits && self.same && self.len == self.against.len()
    }
}

pub(crate) fn bytes(text: &[u8], draft: &mut Draft<'_, u8>) -> Result<(), Fault> {
    for piece in text.split(|b| *b == b' ') {
        draft.read(piece)?;
    }
    Ok(())
}

impl Draft<'_, u8> {
    // Reads `HEX` or `HEX*N`.
    fn read(&mut self, piece: &[u8]) -> Result<(), Fault> {
        let Some((hex, times)) = text::split_once(piece, b'*') else {
            return self.read_hex(piece);
        };
        let begin = self.len;
        self.read_hex(hex)?;
        let more = more_times(times).ok_or(Fault::Malformed)?;
        if self.len <= begin {
            return Err(Fault::Malformed);
        }
        self.append_from(begin, more);
        Ok(())
    }

    // Reads two digits for each byte.
    fn read_hex(&mut self, hex: &[u8]) -> Result<(), Fault> {
        for pair in hex.chunks(2) {
            let byte = byte_of(pair).ok_or(Fault::Malformed)?;
            self.append(byte, 1);
        }
        Ok(())
    }
}

fn byte_of(pair: &[u8]) -> Option<u8> {
    match pair {
        [high, low] => Some(text::digit(*high)? << 4 | text::digit(*low)?),
        _ => None,
    }
}

// Reads the N of `HEX*N` and returns N - 1, the copies after the first; None if N is 0 or not decimal. The conversions of this file are
// `as`: to `usize`, which has no `From` of a u64.
fn more_times(digits: &[u8]) -> Option<usize> {
    let mut times: u64 = 0;
    for b in digits {
        let d = text::digit(*b).filter(|d| *d < 10)?;
        times = times.saturating_mul(10).saturating_add(u64::from(d)) % BYTES_TIMES;
    }
    (times as usize).checked_sub(1)
}

// Reads numbers: that of the item `N` once, that of `N*K` K times, also after a `=`. Only the low 32 bits of a number count.
pub(crate) fn numbers(items: &Items, draft: &mut Draft<'_, u32>) -> Result<(), Fault> {
    for choice in items.choices() {
        for item in items.of(choice) {
            draft.read_item(*item)?;
        }
    }
    for item in items.answer().unwrap_or(&[]) {
        draft.read_item(*item)?;
    }
    Ok(())
}

impl Draft<'_, u32> {
    fn read_item(&mut self, item: Item) -> Result<(), Fault> {
        let (number, times) = match item {
            Item::Numbers {
                role: Role::Argument,
                first,
                count,
                ..
            } => (first, count),
            Item::Times { number, times } => (number, times),
            _ => return Err(Fault::Malformed),
        };
        self.append(low(number), (times % NUMBER_TIMES) as usize);
        Ok(())
    }
}

// Reads ends: `N` once, `N*K` K times. A text with no piece is no ends.
pub(crate) fn ends(text: &[u8], draft: &mut Draft<'_, i32>) -> Result<(), Fault> {
    if !text.is_empty() {
        for piece in text.split(|b| *b == b' ') {
            draft.read_end(piece)?;
        }
    }
    Ok(())
}

impl Draft<'_, i32> {
    fn read_end(&mut self, piece: &[u8]) -> Result<(), Fault> {
        let (end, times) = text::split_once(piece, b'*').unwrap_or((piece, b"1"));
        let end = text::signed(end).ok_or(Fault::Malformed)?;
        let times = text::number(times).ok_or(Fault::Malformed)?;
        self.append(end, (times % NUMBER_TIMES) as usize);
        Ok(())
    }
}
