//! One item of a line: numbers with their role, a number and how many times, `?`, `-`, `_`, or `#` and a number.
ghost use Rattle.std.specs.Prelude.{◌≡◌};
ghost use Rattle.notation.specs.Items.{is_plain, item_of};
ghost use Rattle.notation.specs.declared.item.Item.TheVariants.{Numbers};

use crate::answer::Token;
use crate::arguments::Serial;
use crate::lent::Letter;
use crate::text;

// The role of a number: an argument, how much of a letter is lent, or a serial.
#[derive(Clone, Copy, Debug, PartialEq, Eq)]
pub(crate) enum Role {
    Argument,
    Size(Letter),
    Serial(Serial),
}

impl Role {
    pub(crate) fn of_letter(letter: u8) -> Option<Role> {
        match letter {
            b's' => Some(Role::Serial(Serial::First)),
            b't' => Some(Role::Serial(Serial::Second)),
            b'u' => Some(Role::Serial(Serial::Third)),
            _ => Some(Role::Size(Letter::of(letter)?)),
        }
    }
}

#[derive(Clone, Copy, Debug, PartialEq, Eq)]
pub(crate) enum Item {
    // `N`, `A..B` or `A..B+S`: the first of `count` numbers, each `step` above the one before it.
    Numbers {
        role: Role,
        first: u64,
        count: u64,
        step: u64,
    },
    // `N*K`.
    Times {
        number: u64,
        times: u64,
    },
    // `#N`.
    Calls(u64),
    // `?`.
    Unknown,
    // `-`.
    Missing,
    // `_`.
    Any,
}

impl From<Token> for Item {
    ghost from_gives = { λ t item. item ≡ item_of t };

    fn from(token: Token) -> Item {
        match token {
            Token::Number(n) => Item::single(Role::Argument, n),
            Token::Unknown => Item::Unknown,
            Token::Missing => Item::Missing,
        }
    }
}

impl Item {
    // An item with no value.
    pub(crate) const EMPTY: Item = Item::Times {
        number: 0,
        times: 0,
    };

    pub(crate) fn single(role: Role, first: u64) -> Item
        ensures { result ≡ Numbers role first 1 1 }
    {
        Item::Numbers {
            role,
            first,
            count: 1,
            step: 1,
        }
    }

    // Reads an item. A number with no letter has the role `role`, that of the item before it in the same token.
    pub(crate) fn read(text: &[u8], role: Role) -> Option<Item> {
        match text {
            b"?" => Some(Item::Unknown),
            b"-" => Some(Item::Missing),
            b"_" => Some(Item::Any),
            [b'#', digits @ ..] => Some(Item::Calls(text::number(digits)?)),
            [letter, b':', numbers @ ..] => Item::numbers(numbers, Role::of_letter(*letter)?),
            _ => Item::numbers(text, role),
        }
    }

    // Reads `A..B`, `A..B+S`, `N*K` or one number.
    fn numbers(text: &[u8], role: Role) -> Option<Item> {
        if let Some((from, end)) = text::split_once(text, b'.') {
            return Item::range(role, from, end);
        }
        if let Some((number, times)) = text::split_once(text, b'*') {
            return Some(Item::Times {
                number: text::number(number)?,
                times: text::number(times)?,
            });
        }
        Some(Item::single(role, text::number(text)?))
    }

    // Reads `A..B` or `A..B+S` from `from` and `rest`, which begins with the second dot. A range has at least one number.
    fn range(role: Role, from: &[u8], rest: &[u8]) -> Option<Item> {
        let rest = rest.strip_prefix(b".")?;
        let (end, step) = text::split_once(rest, b'+').unwrap_or((rest, b"1"));
        let first = text::number(from)?;
        let step = text::number(step)?;
        let most = text::number(end)?.checked_sub(first)?.checked_sub(1)?;
        Some(Item::Numbers {
            role,
            first,
            count: most.checked_div(step)?.saturating_add(1),
            step,
        })
    }

    // Returns the first value of the item, as an item of that value alone.
    pub(crate) fn first(self) -> Item {
        match self {
            Item::Numbers { role, first, .. } => Item::single(role, first),
            Item::Times { number, .. } => Item::single(Role::Argument, number),
            _ => self,
        }
    }

    pub(crate) fn role(self) -> Role {
        match self {
            Item::Numbers { role, .. } => role,
            _ => Role::Argument,
        }
    }

    // Returns whether the item is an argument, not a size or a serial.
    pub(crate) fn is_argument(self) -> bool
        ensures { result ≡ is_plain self }
    {
        match self {
            Item::Numbers { role, .. } => matches!(role, Role::Argument),
            _ => true,
        }
    }

    // Returns how many values the item has.
    pub(crate) fn count(self) -> u64 {
        match self {
            Item::Numbers { count, .. } => count,
            Item::Times { times, .. } => times,
            _ => 1,
        }
    }

    // Returns value n of the item as an argument, None if it is not known.
    pub(crate) fn value(self, n: u64) -> Option<u64> {
        match self {
            Item::Numbers { first, step, .. } => Some(first.wrapping_add(n.wrapping_mul(step))),
            Item::Times { number, .. } => Some(number.wrapping_add(n)),
            Item::Calls(calls) => Some(calls),
            Item::Missing | Item::Any => Some(0),
            Item::Unknown => None,
        }
    }

    // Returns whether the item is equal to a token, or is `_` for a number.
    pub(crate) fn matches(self, token: Token) -> bool {
        let number = matches!(token, Token::Number(_));
        self == Item::from(token) || (self == Item::Any && number)
    }
}
