//! The choices of a range: the arguments of each single call, and what a token takes that has no value of its own.
ghost use Rattle.std.specs.Prelude.{◌≡◌, IsSome, true};

use crate::arguments::Arguments;
use crate::item::{Item, Role};
use crate::items::{Choice, Items, MOST};
use crate::lent::Sizes;
use crate::reading::Reading;

/// At most this many calls are made for one range.
pub const RANGE: u64 = 4194304;

// How many items of a token are tried before a search by halves, which takes as long.
const NEAR: usize = 16;

impl Items {
    // Returns choice t of the arguments, None after the last one; the last token varies fastest. The contract states only that there is a
    // first.
    pub(crate) fn choice(&self, t: u64, sizes: Sizes) -> Option<Arguments>
        ensures { t ≡ 0 → IsSome result }
    {
        let mut arguments = Arguments::new(sizes);
        self.choose(t, sizes, &mut arguments).then_some(arguments)
    }

    // Sets the arguments to choice t, whatever they were, and returns true; false after the last one.
    fn choose(&self, t: u64, sizes: Sizes, arguments: &mut Arguments) -> bool
        ensures { t ≡ 0 → result ≡ true }
    {
        *arguments = Arguments::new(sizes);
        let mut rest = t;
        for (k, choice) in self.choices().iter().enumerate().rev() {
            let values = choice.values().max(1);
            let (role, value) = self.value(choice, rest % values);
            arguments.put(k, role, value);
            rest /= values;
        }
        rest == 0
    }

    // Gives a token that has no value, such as `N*0`, that of the next item which has one: of this text, or after it of those that earlier
    // texts left.
    pub(crate) fn fill_empty(&mut self, left: &Items) {
        if self.choices().iter().all(|choice| choice.values != 0) {
            return;
        }
        let mut next = self.expected().or(left.past(self.len));
        for k in (0..self.many.min(MOST)).rev() {
            next = self.fill(k, next);
        }
    }

    // Returns the first item of the answer that has a value.
    fn expected(&self) -> Option<Item> {
        let items = self.answer()?;
        with_value(items)
    }

    // Returns the first item from place `from` on that has a value, of those that texts left.
    fn past(&self, from: usize) -> Option<Item> {
        let all: &[Item] = &self.all;
        let items = all.get(from..)?;
        with_value(items)
    }

    // Gives token k the value of `next` if it has none. Returns the first item from the token on that has a value.
    fn fill(&mut self, k: usize, next: Option<Item>) -> Option<Item> {
        let choice = self.tokens.get(k).copied()?;
        let own = self.of(&choice);
        let own = with_value(own);
        let first = own.or(next);
        if let (0, Some(item)) = (choice.values, first) {
            if let Some(token) = self.tokens.get_mut(k) {
                token.filled = Some(item.first());
                token.values = 1;
            }
        }
        first
    }

    // Returns value n of a token, and its role; past the last one the argument 0.
    fn value(&self, choice: &Choice, n: u64) -> (Role, Option<u64>) {
        if let Some(item) = choice.filled() {
            return value_of(Some(&item), n);
        }
        let ends = self.ends_of(choice);
        let i = place(ends, n);
        if ends.len() <= i {
            return value_of(None, n);
        }
        let before = i.checked_sub(1).and_then(|k| ends.get(k).copied());
        value_of(
            self.item_of(choice, i),
            n.saturating_sub(before.unwrap_or(0)),
        )
    }
}

impl<'a> Reading<'a> {
    /// Sets the arguments to those of call t of the request, whatever they were, and returns true; returns false after its last one. So the
    /// calls of a range share them. The contract states, as that of `choice`, that there is a first one.
    pub fn choose(&self, t: u64, sizes: Sizes, arguments: &mut Arguments) -> bool
        ensures { t ≡ 0 → result ≡ true }
    {
        self.items.choose(t, sizes, arguments)
    }
}

// Returns value n of an item, and its role; past the last one the argument 0.
fn value_of(item: Option<&Item>, n: u64) -> (Role, Option<u64>) {
    match item {
        Some(item) if n < item.count() => (item.role(), item.value(n)),
        _ => (Role::Argument, Some(0)),
    }
}

// Returns the place of the item that has value n. The first ones are tried one by one, since a long range mostly comes first.
fn place(ends: &[u64], n: u64) -> usize {
    match ends.iter().take(NEAR).position(|end| n < *end) {
        Some(i) => i,
        None => ends.partition_point(|end| *end <= n),
    }
}

// Returns the first of these items that has a value.
fn with_value(items: &[Item]) -> Option<Item> {
    items.iter().find(|item| 0 < item.count()).copied()
}
