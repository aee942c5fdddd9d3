//! Records made from arguments.
ghost use Rattle.std.specs.Prelude.{◌≤◌};

use masks::bitmap::Bitmap;
use masks::builder::BitmapBuilder;
use notation::arguments::{Arguments, Serial};

// Returns the mask whose start, length and zero count are the three arguments that begin with i.
pub(crate) fn mask(a: &Arguments, i: usize, serial: Serial) -> Bitmap
    requires { i ≤ 6 }
{
    Bitmap {
        start: a.size(i),
        length: a.size(i + 1),
        unset: a.unset(i + 2),
        serial: a.serial(serial),
    }
}

// Returns the mask of the three arguments after argument i, or None if argument i is 0.
pub(crate) fn optional(a: &Arguments, i: usize, serial: Serial) -> Option<Bitmap>
    requires { i ≤ 5 }
{
    a.flag(i).then(|| mask(a, i + 1, serial))
}

// Returns the builder of the first three arguments.
pub(crate) fn builder(a: &Arguments) -> BitmapBuilder {
    BitmapBuilder {
        length: a.size(0),
        word: a.word(1),
        ones: a.size(2),
        serial: a.serial(Serial::First),
    }
}
