//! The n-th set flag of a word.
ghost use Rattle.std.specs.Prelude.{cond, ◌≡◌, ltb, ◌<◌, ◌≤◌, ◌^◌};
ghost use Rattle.words.specs.Flags.{bits, count};
ghost use Rattle.words.specs.Nth.{nth_place, nth_one};

// Returns x if set flag n is not among the first `ones`, else 0. A separate function, so that it compiles without a branch.
fn skip_if_after(n: u32, ones: u32, x: u32) -> u32
    ensures { result ≡ cond (ltb n ones) 0 x }
{
    if n < ones { 0 } else { x }
}

// Finds set flag n among the low `width` flags of w: counts the ones of the lower half to choose a half, and recurses.
fn descend(w: u64, n: u32, width: u32) -> u32
    requires { (width ≤ 64) × (n < count (bits width w)) }
    ensures { result ≡ nth_place (bits width w) n }
{
    if width <= 1 {
        return 0;
    }
    let half = width / 2;
    let ones = (w << (64 - half)).count_ones();
    let skip = skip_if_after(n, ones, half);
    let passed = skip_if_after(n, ones, ones);
    skip + descend(w >> skip, n - passed, width - half)
}

// Returns the place of set flag n, counted from 0, among the WIDTH flags of w (`Ok`); or, if at most n are set, how many are (`Err`). The
// flags are counted once: the count shows whether there is a set flag n, and is the answer if not.
fn nth_set_bit<const WIDTH: u32>(w: u64, n: u64) -> Result<u32, u32>
    requires { (WIDTH ≤ 64) × (w < 2 ^ WIDTH) }
    ensures { result ≡ nth_one (bits WIDTH w) n }
{
    let ones = w.count_ones();
    if n < u64::from(ones) {
        // to u32: there is no From; n is below 64
        Ok(descend(w, n as u32, WIDTH))
    } else {
        Err(ones)
    }
}

/// Returns the place of set flag n of w, counted from 0 (`Ok`); or, if at most n flags are set, how many are (`Err`).
pub fn nth_set_bit_u64(w: u64, n: u64) -> Result<u32, u32>
    ensures { result ≡ nth_one (bits 64 w) n }
{
    nth_set_bit::<64>(w, n)
}

/// Returns the place of set flag n of the 32 flags of w, counted from 0 (`Ok`); or, if at most n flags are set, how many are (`Err`).
pub fn nth_set_bit_u32(w: u32, n: u32) -> Result<u32, u32>
    ensures { result ≡ nth_one (bits 32 w) n }
{
    nth_set_bit::<32>(u64::from(w), u64::from(n))
}
