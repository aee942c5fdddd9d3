//! The arguments of one call: numbers, how many bytes and numbers are lent, and the serials of the records among them. The conversions of
//! this file are `as`: to `usize`, which has no `From` of a u64, and to the low 32 bits.
ghost use Rattle.std.specs.Prelude.{◌≡◌, ◌%◌, ◌^◌};
ghost use Rattle.notation.specs.Arguments.{count_at, unset_at, number_at, low_at, flag_at, serial_at};

use crate::item::Role;
use crate::lent::Sizes;

// The most arguments that a call has.
const MOST: usize = 9;

// A token has the place of the one so many before it: a `?` may stand beside the sizes.
const PLACES: usize = 11;

/// One of the records among the arguments.
#[derive(Clone, Copy, Debug, PartialEq, Eq)]
pub enum Serial {
    First,
    Second,
    Third,
}

/// The numbers of one call in their order, the serials of its records, and how much of what is lent it reads.
#[derive(Clone, Copy, Debug)]
pub struct Arguments {
    // None for `?`, and 0 for an absent argument.
    numbers: [Option<u64>; MOST],
    // Whether a token of the argument's place is `?`: its own, or a later one.
    unknown: [bool; MOST],
    serials: Serials,
    pub sizes: Sizes,
}

// The serial of each record, 0 if the line has none for it.
#[derive(Clone, Copy, Debug, Default)]
struct Serials {
    first: u32,
    second: u32,
    third: u32,
}

impl Serials {
    fn get_mut(&mut self, serial: Serial) -> &mut u32 {
        match serial {
            Serial::First => &mut self.first,
            Serial::Second => &mut self.second,
            Serial::Third => &mut self.third,
        }
    }
}

impl Arguments {
    pub(crate) fn new(sizes: Sizes) -> Arguments {
        Arguments {
            numbers: [Some(0); MOST],
            unknown: [false; MOST],
            serials: Serials::default(),
            sizes,
        }
    }

    // Sets the argument of token k, or the size or serial of `role`, to a value, None if it is not known. A size is at most what is lent.
    pub(crate) fn put(&mut self, k: usize, role: Role, value: Option<u64>) {
        match (role, value) {
            (Role::Size(letter), Some(most)) => self.sizes.limit(letter, most),
            (Role::Serial(serial), Some(n)) => *self.serials.get_mut(serial) = low(n),
            _ => self.put_number(k % PLACES, value),
        }
    }

    fn put_number(&mut self, i: usize, n: Option<u64>) {
        if let Some(place) = self.numbers.get_mut(i) {
            *place = n;
        }
        if let Some(unknown) = self.unknown.get_mut(i) {
            *unknown |= n.is_none();
        }
    }

    /// Returns argument i as a zero count, None if it is not known or absent.
    pub fn count(&self, i: usize) -> Option<usize>
        ensures { result ≡ count_at self.now i }
    {
        self.numbers.get(i)?.map(|n| n as usize)
    }

    /// Returns argument i as the zero count of a mask: None also if a later token of its place is `?`.
    pub fn unset(&self, i: usize) -> Option<usize>
        ensures { result ≡ unset_at self.now i }
    {
        if self.unknown.get(i).copied().unwrap_or(false) {
            return None;
        }
        self.count(i)
    }

    /// Returns argument i as a number, 0 if it is not known or absent.
    pub fn word(&self, i: usize) -> u64
        ensures { result ≡ number_at self.now i }
    {
        self.numbers.get(i).copied().flatten().unwrap_or(0)
    }

    /// Returns argument i as a size, 0 if it is not known or absent.
    pub fn size(&self, i: usize) -> usize
        ensures { result ≡ number_at self.now i }
    {
        self.word(i) as usize
    }

    /// Returns the low 32 bits of argument i, 0 if it is not known or absent.
    pub fn low(&self, i: usize) -> u32
        ensures { result ≡ low_at self.now i }
    {
        low(self.word(i))
    }

    /// Returns whether argument i is not 0; false if it is not known or absent.
    pub fn flag(&self, i: usize) -> bool
        ensures { result ≡ flag_at self.now i }
    {
        self.word(i) != 0
    }

    /// Returns the serial of a record, 0 if the line has none for it.
    pub fn serial(&self, serial: Serial) -> u32
        ensures { result ≡ serial_at self.now serial }
    {
        match serial {
            Serial::First => self.serials.first,
            Serial::Second => self.serials.second,
            Serial::Third => self.serials.third,
        }
    }
}

// Returns the low 32 bits of n.
pub(crate) fn low(n: u64) -> u32
    ensures { result ≡ n % 2 ^ 32 }
{
    (n & 0xffff_ffff) as u32
}
