//! The elements of what is lent, bytes, the numbers of i or the ends e, and what is done in the same way with all.
ghost use Rattle.std.specs.Prelude.{◌≡◌, OnErr};

use crate::answer::Answer;
use crate::fault::Fault;
use crate::items::Items;
use crate::last::Last;
use crate::list::List;
use crate::pieces::Draft;
use crate::sums::Checksum;
use crate::{lent, pieces};
use std::alloc::AllocError;

pub(crate) trait Element: Copy + PartialEq {
    // At most this many are lent: of bytes, those of 4,194,304 flags and 64 more; of numbers, a count for each of 65,536 rows or columns,
    // and as many ends.
    const ROOM: usize;

    // Whether a text of them is one of items.
    const ITEMS: bool;

    // Reads a list of them into a draft: of a text of items, those that were read of it.
    fn read(text: &[u8], items: &Items, draft: &mut Draft<'_, Self>) -> Result<(), Fault>
    where
        Self: Sized;

    fn mix(sum: Checksum, all: &[Self]) -> Checksum
    where
        Self: Sized;
}

impl Element for u8 {
    const ROOM: usize = lent::ROOM;

    const ITEMS: bool = false;

    fn read(text: &[u8], _items: &Items, draft: &mut Draft<'_, u8>) -> Result<(), Fault> {
        pieces::bytes(text, draft)
    }

    fn mix(sum: Checksum, all: &[u8]) -> Checksum {
        sum.bytes(all)
    }
}

impl Element for u32 {
    const ROOM: usize = 65536;

    const ITEMS: bool = true;

    fn read(_text: &[u8], items: &Items, draft: &mut Draft<'_, u32>) -> Result<(), Fault> {
        pieces::numbers(items, draft)
    }

    fn mix(sum: Checksum, all: &[u32]) -> Checksum {
        sum.numbers(all)
    }
}

impl Element for i32 {
    const ROOM: usize = 65536;

    const ITEMS: bool = false;

    fn read(text: &[u8], _items: &Items, draft: &mut Draft<'_, i32>) -> Result<(), Fault> {
        pieces::ends(text, draft)
    }

    fn mix(sum: Checksum, all: &[i32]) -> Checksum {
        sum.ends(all)
    }
}

// Reads what a line lends; more elements than the room are malformed. It is read twice, first only for how many there are, so that a line
// that is malformed leaves the list as it was.
pub(crate) fn lent<T: Element>(
    list: &mut List<'_, T>,
    text: &[u8],
    last: &Last,
    left: &mut Items,
) -> Result<(), Fault>
    ensures malformed { OnErr result (list.new ≡ list.old) }
{
    if T::ITEMS {
        left.read(text, &last.answer)?;
    }
    let n = count::<T>(text, left)?;
    if !list.fits(n) {
        return Err(Fault::from(AllocError));
    }
    write(list, n, text, left);
    Ok(())
}

// Returns how many elements a text has.
fn count<T: Element>(text: &[u8], items: &Items) -> Result<usize, Fault> {
    let mut nowhere: [T; 0] = [];
    let mut draft = Draft::new(&mut nowhere, &[], T::ROOM);
    T::read(text, items, &mut draft)?;
    draft.count().ok_or(Fault::Malformed)
}

// Sets the list to the n elements of a text that was read before, and so cannot be malformed.
fn write<T: Element>(list: &mut List<'_, T>, n: usize, text: &[u8], items: &Items) {
    let mut draft = Draft::new(list.start(n), &[], n);
    let _ = T::read(text, items, &mut draft);
}

// Returns whether an output, which was `before`, holds what its line states: `same`, `#` and a checksum, or a list.
pub(crate) fn holds<T: Element>(
    text: &[u8],
    before: &[T],
    out: &[T],
    answer: &Answer,
    left: &mut Items,
) -> Result<bool, Fault> {
    match text {
        b"same" => Ok(before == out),
        [b's', ..] => Err(Fault::Malformed),
        [b'#', ..] => {
            left.read(text, answer)?;
            let sum = left.sum().ok_or(Fault::Malformed)?;
            Ok(T::mix(Checksum::new(), out).value() == sum)
        }
        _ => {
            if T::ITEMS {
                left.read(text, answer)?;
            }
            let mut draft = Draft::new(&mut [], out, out.len());
            T::read(text, left, &mut draft)?;
            Ok(draft.is_same())
        }
    }
}
