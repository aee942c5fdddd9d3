//! Flags counted in bytes that no mask is over.
ghost use Rattle.std.specs.Prelude.{◌≡◌, ◌+◌};
ghost use Rattle.words.specs.Flags.{count};
ghost use Rattle.words.specs.Loops.{stretch};

use words::counts::count_ones;

/// Returns how many of the `trucks` flags that start at flag `first` are clear.
pub fn idle(bytes: &[u8], first: usize, trucks: usize) -> usize
    ensures all { result + count (stretch bytes.now first trucks) ≡ trucks }
{
    trucks - count_ones(bytes, first, trucks)
}
