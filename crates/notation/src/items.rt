//! The arguments and the answer of a request, and other lists of items.
ghost use Rattle.std.specs.Prelude.{◌≡◌, is_some, take};
ghost use Rattle.notation.specs.Items.{is_argument, plain_of, items_of};

use crate::answer::Answer;
use crate::fault::Fault;
use crate::item::{Item, Role};
use crate::lent::first;
use crate::text;

// At most this many items are in a line.
pub(crate) const MOST: usize = 1024;

// A token of the arguments: its items, with commas between them in the line, are those of the line from `from` up to `to`; and how many
// values they have.
#[derive(Clone, Copy, Debug)]
pub(crate) struct Choice {
    from: usize,
    to: usize,
    pub(crate) values: u64,
    // The item whose value the token takes since it has none of its own.
    pub(crate) filled: Option<Item>,
}

impl Choice {
    // Returns how many values the token's items have.
    pub(crate) fn values(&self) -> u64 {
        self.values
    }

    // Returns the item whose value the token takes, if it has none of its own.
    pub(crate) fn filled(&self) -> Option<Item> {
        self.filled
    }
}

/// The items of a text, and its tokens: those of the arguments, and the items of the answer, if there is one. All lies in the
/// value, so that no allocator is needed. A text is read over the one before it: what that had beyond it stays in `all`.
#[derive(Drop)]
pub struct Items {
    pub(crate) all: [Item; MOST],
    // Of each item of a token how many values it and those before it have, so that a call of a range finds its value without a pass over
    // the items.
    ends: [u64; MOST],
    pub(crate) len: usize,
    pub(crate) tokens: [Choice; MOST],
    pub(crate) many: usize,
    // Where the items of the answer begin.
    answer: Option<usize>,
}

impl Items {
    /// Returns no items.
    pub fn new() -> Items
        ensures { plain_of result ≡ 0 }
    {
        Items {
            all: [Item::EMPTY; MOST],
            ends: [0; MOST],
            len: 0,
            tokens: [Choice {
                from: 0,
                to: 0,
                values: 0,
                filled: None,
            }; MOST],
            many: 0,
            answer: None,
        }
    }

    // Reads the tokens of a request. `@` takes tokens of `last`, the answer of the last call. `left` has the items that texts left: those
    // of this one come over the first of them.
    pub(crate) fn read_request(
        &mut self,
        text: &[u8],
        left: &mut Items,
        last: &Answer,
    ) -> Result<(), Fault> {
        if let Err(fault) = self.read_tokens(text, last) {
            left.read_malformed(text, last);
            return Err(fault);
        }
        left.put_all(first(&self.all, self.len));
        Ok(())
    }

    // Reads the tokens of another text, as `read_request`, over those of the text before it.
    pub(crate) fn read(&mut self, text: &[u8], last: &Answer) -> Result<(), Fault> {
        let read = self.read_tokens(text, last);
        if read.is_err() {
            self.read_malformed(text, last);
        }
        read
    }

    fn read_tokens(&mut self, text: &[u8], last: &Answer) -> Result<(), Fault> {
        self.begin();
        if !text.is_empty() {
            for token in text.split(|b| *b == b' ') {
                self.token(token, last)?;
            }
        }
        Ok(())
    }

    // Leaves no items.
    pub(crate) fn begin(&mut self) {
        self.len = 0;
        self.many = 0;
        self.answer = None;
    }

    // Puts an item after the others. After MOST of them it begins again with the first.
    pub(crate) fn put(&mut self, item: Item) {
        let i = self.len % MOST;
        if let Some(place) = self.all.get_mut(i) {
            *place = item;
        }
        self.len = i + 1;
    }

    fn put_all(&mut self, items: &[Item]) {
        for (place, item) in self.all.iter_mut().zip(items) {
            *place = *item;
        }
    }

    // Returns the items.
    pub(crate) fn as_slice(&self) -> &[Item] {
        first(&self.all, self.len)
    }

    pub(crate) fn choices(&self) -> &[Choice]
        ensures { result.now ≡ take self.now.many self.now.tokens }
    {
        let all: &[Choice] = &self.tokens;
        first(all, self.many)
    }

    // Returns the items of a token.
    pub(crate) fn of(&self, choice: &Choice) -> &[Item]
        ensures { result.now ≡ items_of self.now choice.now }
    {
        let all: &[Item] = &self.all;
        let until = first(all, choice.to);
        until.get(choice.from..).unwrap_or(&[])
    }

    pub(crate) fn answer(&self) -> Option<&[Item]>
        ensures { is_some result ≡ is_some self.now.answer }
    {
        let from = self.answer?;
        let all: &[Item] = &self.all;
        Some(first(all, self.len).get(from..).unwrap_or(&[]))
    }

    // Returns whether the token is an argument, not a size or a serial, by its last item.
    fn is_argument(&self, choice: &Choice) -> bool
        ensures { result ≡ is_argument self.now choice.now }
    {
        self.of(choice).last().is_none_or(|item| item.is_argument())
    }

    // Returns how many tokens are arguments, sizes and serials left out.
    pub(crate) fn plain(&self) -> usize
        ensures { result ≡ plain_of self.now }
    {
        self.choices()
            .iter()
            .filter(|choice| self.is_argument(choice))
            .count()
    }

    // Returns item i after the first of a token.
    pub(crate) fn item_of(&self, choice: &Choice, i: usize) -> Option<&Item> {
        self.all.get(choice.from.saturating_add(i))
    }

    // Returns of each item of a token how many values it and those before it have.
    pub(crate) fn ends_of(&self, choice: &Choice) -> &[u64] {
        let all: &[u64] = &self.ends;
        all.get(choice.from..choice.to).unwrap_or(&[])
    }

    // Returns whether an argument has more than one value.
    pub(crate) fn is_ranged(&self) -> bool {
        self.choices().iter().any(|choice| 1 < choice.values())
    }

    // Returns the number of an item `#N` if it is the only one, else None.
    pub(crate) fn sum(&self) -> Option<u64> {
        match (self.choices(), self.answer()) {
            ([choice], None | Some([])) => match self.of(choice) {
                [Item::Calls(sum)] => Some(*sum),
                _ => None,
            },
            _ => None,
        }
    }

    fn token(&mut self, token: &[u8], last: &Answer) -> Result<(), Fault> {
        match token {
            b"=" => self.equals(),
            [b'=', ..] => Err(Fault::Malformed),
            [b'@', many @ ..] => self.from_last(many, last),
            _ => self.several(token),
        }
    }

    fn equals(&mut self) -> Result<(), Fault> {
        if self.answer.is_some() {
            return Err(Fault::Malformed);
        }
        self.answer = Some(self.len);
        Ok(())
    }

    // Appends the last tokens of an answer, each as a token of its own. `as` between `usize` and u64: neither has a `From` of the other.
    fn from_last(&mut self, many: &[u8], last: &Answer) -> Result<(), Fault> {
        let many = text::number(many).ok_or(Fault::Malformed)?;
        let tokens = last.as_slice();
        let from = (tokens.len() as u64)
            .checked_sub(many)
            .ok_or(Fault::Malformed)?;
        for token in tokens.iter().skip(from as usize) {
            let begin = self.len;
            self.item(Item::from(*token))?;
            self.close(begin)?;
        }
        Ok(())
    }

    // Appends a token, whose items have commas between them. A number with no letter has the role of the item before it.
    fn several(&mut self, token: &[u8]) -> Result<(), Fault> {
        let begin = self.len;
        let mut role = Role::Argument;
        for part in token.split(|b| *b == b',') {
            let item = Item::read(part, role).ok_or(Fault::Malformed)?;
            self.item(item)?;
            role = item.role();
        }
        self.close(begin)
    }

    // Appends an item. A line with more than MOST is malformed.
    fn item(&mut self, item: Item) -> Result<(), Fault> {
        let place = self.all.get_mut(self.len).ok_or(Fault::Malformed)?;
        *place = item;
        self.len = self.len.saturating_add(1);
        Ok(())
    }

    // Makes the items from `begin` on a token of the arguments; after `=` they are the answer's. Sizes come after the arguments, of which
    // none is `_`.
    fn close(&mut self, begin: usize) -> Result<(), Fault> {
        if self.answer.is_some() {
            return Ok(());
        }
        let choice = Choice {
            from: begin,
            to: self.len,
            values: self.count(begin),
            filled: None,
        };
        let after_size = self
            .choices()
            .last()
            .is_some_and(|last| !self.is_argument(last));
        if self.of(&choice).contains(&Item::Any) || (after_size && self.is_argument(&choice)) {
            return Err(Fault::Malformed);
        }
        let place = self.tokens.get_mut(self.many).ok_or(Fault::Malformed)?;
        *place = choice;
        self.many = self.many.saturating_add(1);
        Ok(())
    }

    // Counts the values of the items from `begin` on.
    fn count(&mut self, begin: usize) -> u64 {
        let mut end = 0u64;
        let mut values = 0u64;
        let items = first(&self.all, self.len).get(begin..).unwrap_or(&[]);
        if let Some(ends) = self.ends.get_mut(begin..) {
            for (item, place) in items.iter().zip(ends.iter_mut()) {
                values = values.wrapping_add(item.count());
                end = end.saturating_add(item.count());
                *place = end;
            }
        }
        values
    }
}
