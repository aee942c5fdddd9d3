//! What all cursors share. A cursor is a span and the next place in it. Each of the Rust's four cursors has a struct of its own. Three of
//! them have a `moved`: a generic one would need a trait with the same line in each impl.
ghost use Rattle.std.specs.Prelude.{◌≡◌};
ghost use Rattle.masks.specs.Refusal.{failure_of};
ghost use Rattle.masks.specs.Checks.{first_failed};
ghost use Rattle.masks.specs.Cursor.{cursor_checks};

use crate::checks::check_span;
use crate::refusal::{Refusal, check};

/// A step of a cursor: an item and the cursor just past it; or no item and the cursor at the length (for words, unmoved).
#[derive(Clone, Copy, PartialEq, Eq, Debug)]
pub struct Step<T, C> {
    pub item: Option<T>,
    pub cursor: C,
}

// Makes checks 1, 2 and 6 of a cursor over `size` bytes.
pub(crate) fn check_cursor(
    start: usize,
    length: usize,
    place: usize,
    size: usize,
) -> Result<(), Refusal>
    ensures { failure_of result ≡ first_failed (cursor_checks start length place size) }
{
    check_span(start, length, size)?;
    check(Refusal::OutsideMask, place <= length)
}
