//! A block of 64 words of 64 flags, transposed: its rows become its columns.
ghost use Rattle.std.specs.Prelude.{◌≡◌, ℕ, ◌*◌, ◌<◌, ◌≤◌, length, get_or};
ghost use Rattle.words.specs.Columns.{column};
ghost use Rattle.words.specs.Flags.{word_flags};
ghost use Rattle.words.specs.Transpose.{HalvesExchanged, IsMask, PairExchanged, Transposed};

// Exchanges, in each 2 * h flags, the high half of x with the low half of y. The mask m has the low halves.
fn exchange(x: u64, y: u64, h: usize, m: u64) -> (u64, u64)
    requires { (0 < h) × (h ≤ 32) × IsMask h m }
    ensures { PairExchanged h x y result.0 result.1 }
{
    let t = ((x >> h) ^ y) & m;
    (x ^ (t << h), y ^ t)
}

// Exchanges so each of the first h rows with one of the other h. Compiled into each caller, where h and m are known.
#[inline(always)]
fn exchange_halves(rows: &mut [u64], h: usize, m: u64)
    requires { (0 < h) × (h ≤ 32) × IsMask h m × (length rows.old ≡ 2 * h) }
    ensures { HalvesExchanged h rows.old rows.new }
{
    for i in 0..h {
        let (x, y) = exchange(rows[i], rows[i + h], h, m);
        rows[i] = x;
        rows[i + h] = y;
    }
}

// Transposes each square of 2 columns of the 2 rows.
fn transpose_2(rows: &mut [u64])
    requires { length rows.old ≡ 2 }
    ensures { Transposed 2 rows.old rows.new }
{
    exchange_halves(rows, 1, 0x5555555555555555);
}

// Transposes each square of 4 columns of the 4 rows: exchanges two of its quarters, then transposes both halves.
fn transpose_4(rows: &mut [u64])
    requires { length rows.old ≡ 4 }
    ensures { Transposed 4 rows.old rows.new }
{
    exchange_halves(rows, 2, 0x3333333333333333);
    let (upper, lower) = rows.split_at_mut(2);
    transpose_2(upper);
    transpose_2(lower);
}

// Transposes each square of 8 columns of the 8 rows: exchanges two of its quarters, then transposes both halves.
fn transpose_8(rows: &mut [u64])
    requires { length rows.old ≡ 8 }
    ensures { Transposed 8 rows.old rows.new }
{
    exchange_halves(rows, 4, 0x0f0f0f0f0f0f0f0f);
    let (upper, lower) = rows.split_at_mut(4);
    transpose_4(upper);
    transpose_4(lower);
}

// Transposes each square of 16 columns of the 16 rows: exchanges two of its quarters, then transposes both halves.
fn transpose_16(rows: &mut [u64])
    requires { length rows.old ≡ 16 }
    ensures { Transposed 16 rows.old rows.new }
{
    exchange_halves(rows, 8, 0x00ff00ff00ff00ff);
    let (upper, lower) = rows.split_at_mut(8);
    transpose_8(upper);
    transpose_8(lower);
}

// Transposes each square of 32 columns of the 32 rows: exchanges two of its quarters, then transposes both halves.
fn transpose_32(rows: &mut [u64])
    requires { length rows.old ≡ 32 }
    ensures { Transposed 32 rows.old rows.new }
{
    exchange_halves(rows, 16, 0x0000ffff0000ffff);
    let (upper, lower) = rows.split_at_mut(16);
    transpose_16(upper);
    transpose_16(lower);
}

// Transposes the square of the 64 rows.
fn transpose_64(rows: &mut [u64])
    requires { length rows.old ≡ 64 }
    ensures { Transposed 64 rows.old rows.new }
{
    exchange_halves(rows, 32, 0x00000000ffffffff);
    let (upper, lower) = rows.split_at_mut(32);
    transpose_32(upper);
    transpose_32(lower);
}

/// Transposes 64 rows of 64 flags: row r then has flag r of each row before.
pub fn transpose_block(rows: &mut [u64; 64])
    ensures { (r : ℕ) → r < 64 → word_flags (get_or rows.new r 0) ≡ column rows.old r }
{
    transpose_64(rows);
}
