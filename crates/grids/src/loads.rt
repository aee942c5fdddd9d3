//! Rows of a grid, loaded as words.
ghost use Rattle.std.specs.Prelude.{◌*◌, ◌≤◌, length};
ghost use Rattle.words.specs.Flags.{flags_of};
ghost use Rattle.masks.specs.Checks.{limit};
ghost use Rattle.grids.specs.Workers.{RowsLoaded};

use words::word::word_from;

// Loads the 64 flags at `first`, first + distance, .. into the first `height` words.
pub(crate) fn load_rows(
    bytes: &[u8],
    first: usize,
    distance: usize,
    height: usize,
    words: &mut [u64],
)
    requires { (first ≤ 4 * limit) × ((height ≤ length words.old) × (height * distance ≤ limit)) }
    ensures { RowsLoaded (flags_of bytes.now) first distance height words.old words.new }
{
    for i in 0..height {
        words[i] = word_from(bytes, first + i * distance);
    }
}
