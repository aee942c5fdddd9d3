//! A word: loads, stores, its low flags and its ones. Loads and stores that lie in range by `requires` are private to the crate.
ghost use Rattle.std.specs.Prelude.{false, cond, ◌≡◌, ◌++◌, ◌+◌, ◌-◌, ◌*◌, ◌%◌, ◌≤◌, ◌<◌, leb, length, take, get_or};
ghost use Rattle.words.specs.Flags.{word_flags, copies, flags_of, count, over, over_at, window};

// Joins fewer than eight bytes into a word; `full_word` loads eight. Not by `u64::from_le_bytes`: a part shorter than eight bytes is then
// copied into an array by a call (PROVING, `join`).
fn join(part: &[u8]) -> u64
    requires { length part.now ≤ 8 }
    ensures { word_flags result ≡ window (flags_of part.now) 0 64 }
{
    let mut w: u64 = 0;
    for (i, b) in part.iter().enumerate() {
        w |= u64::from(*b) << (8 * i);
    }
    w
}

// Writes as many low bytes of w as `out` has, at most eight. Compiles to one store if the length is known to be eight.
fn split(out: &mut [u8], w: u64)
    requires { length out.old ≤ 8 }
    ensures { flags_of out.new ≡ over (flags_of out.old) (word_flags w) }
{
    let n = out.len();
    out.copy_from_slice(&w.to_le_bytes()[..n]);
}

/// Loads the first eight bytes as a word, padding a shorter slice with zeros.
pub fn load_padded_le_u64(part: &[u8]) -> u64
    ensures { word_flags result ≡ window (flags_of part.now) 0 64 }
{
    if part.len() >= 8 {
        full_word(part, 0)
    } else {
        join(part)
    }
}

/// Writes the eight bytes of w to the start of `out`, as far as they fit.
pub fn store_le_u64(out: &mut [u8], w: u64)
    ensures { flags_of out.new ≡ over (flags_of out.old) (word_flags w) }
{
    if out.len() >= 8 {
        split(&mut out[..8], w);
    } else {
        split(out, w);
    }
}

/// Writes the eight bytes of w at byte `at`, as far as they fit; nothing if `at` is past the end.
pub fn store_at(out: &mut [u8], at: usize, w: u64)
    ensures { flags_of out.new ≡ over_at (flags_of out.old) (8 * at) (word_flags w) }
{
    if at <= out.len() {
        store_le_u64(&mut out[at..], w);
    }
}

/// Writes the eight bytes of w at byte `at` if all eight fit, else writes nothing. For callers that know that they fit: `store_at` would
/// put the call that writes a part of a word into their bodies too.
pub fn store_whole(out: &mut [u8], at: usize, w: u64)
    ensures { flags_of out.new ≡ cond (leb (at + 8) (length out.old))
        (over_at (flags_of out.old) (8 * at) (word_flags w)) (flags_of out.old) }
{
    if 8 <= out.len() && at <= out.len() - 8 {
        put_word(out, at, w);
    }
}

// Loads the eight bytes at `at`, which are in range, by one load, as an array. Joined by a loop, as in `join`, they do not become one load
// in a caller that uses the word twice, as `select` does, and its loop is not vectorised. This, `put_word` and `shifted_word` require a
// place in range; a type for it would be a struct of the bytes and the place, built before each load.
pub(crate) fn full_word(bytes: &[u8], at: usize) -> u64
    requires { at + 8 ≤ length bytes.now }
    ensures { word_flags result ≡ window (flags_of bytes.now) (8 * at) 64 }
{
    let end = at + 8;
    let part: [u8; 8] = bytes[at..end].try_into().unwrap();
    u64::from_le_bytes(part)
}

// Stores the eight bytes of w at `at`, which are in range, as one store.
pub(crate) fn put_word(out: &mut [u8], at: usize, w: u64)
    requires { at + 8 ≤ length out.old }
    ensures { flags_of out.new ≡ over_at (flags_of out.old) (8 * at) (word_flags w) }
{
    let end = at + 8;
    split(&mut out[at..end], w);
}

// Reads the 64 flags starting at flag 8 * at + s, with nine bytes in range: two loads, one byte apart, which agree where they overlap, so
// that s = 0 is no special case.
pub(crate) fn shifted_word(bytes: &[u8], at: usize, s: usize) -> u64
    requires { (at + 9 ≤ length bytes.now) × (s ≤ 8) }
    ensures { word_flags result ≡ window (flags_of bytes.now) (8 * at + s) 64 }
{
    (full_word(bytes, at) >> s) | (full_word(bytes, at + 1) << (8 - s))
}

/// Shifts w right by k bits, or returns 0 if k is 64 or more.
pub fn shr_or_zero(w: u64, k: usize) -> u64
    ensures { word_flags result ≡ window (word_flags w) k 64 }
{
    if k < 64 { w >> k } else { 0 }
}

/// Shifts w left by k bits, or returns 0 if k is 64 or more.
pub fn shl_or_zero(w: u64, k: usize) -> u64
    ensures { word_flags result ≡ window (copies k false ++ word_flags w) 0 64 }
{
    if k < 64 { w << k } else { 0 }
}

// Reads the 64 flags starting at flag 8 * at + s, with zeros past the end. `byte_word` does not call this: it takes one load, this two.
pub(crate) fn word_at(bytes: &[u8], at: usize, s: usize) -> u64
    requires { s ≤ 8 }
    ensures { word_flags result ≡ window (flags_of bytes.now) (8 * at + s) 64 }
{
    let n = bytes.len();
    if n <= at {
        return 0;
    }
    if 9 <= n - at {
        return shifted_word(bytes, at, s);
    }
    last_word(bytes, at, s)
}

// Reads the 64 flags starting at flag 8 * at + s, with zeros past the end, if one to eight bytes are left from byte `at`. Loads the last
// eight bytes, or all if there are fewer, and shifts them.
fn last_word(bytes: &[u8], at: usize, s: usize) -> u64
    requires { (at < length bytes.now) × ((length bytes.now ≤ at + 8) × (s ≤ 8)) }
    ensures { word_flags result ≡ window (flags_of bytes.now) (8 * at + s) 64 }
{
    let n = bytes.len();
    if n < 8 {
        return shr_or_zero(join(bytes), 8 * at + s);
    }
    shr_or_zero(full_word(bytes, n - 8), 8 * (at + 8 - n) + s)
}

/// Reads the eight bytes at `at`, with zeros past the end.
pub fn byte_word(bytes: &[u8], at: usize) -> u64
    ensures { word_flags result ≡ window (flags_of bytes.now) (8 * at) 64 }
{
    let n = bytes.len();
    if n <= at {
        return 0;
    }
    if 8 <= n - at {
        return full_word(bytes, at);
    }
    last_word(bytes, at, 0)
}

/// Reads in one load the flags from flag `bit` to the end of the eight bytes that begin with its byte: at least 57, then zeros.
pub fn near_word(bytes: &[u8], bit: usize) -> u64
    ensures { word_flags result ≡ window (window (flags_of bytes.now) bit (64 - bit % 8)) 0 64 }
{
    shr_or_zero(byte_word(bytes, bit / 8), bit % 8)
}

/// Reads the 64 flags starting at flag `bit`, with zeros past the end.
pub fn word_from(bytes: &[u8], bit: usize) -> u64
    ensures { word_flags result ≡ window (flags_of bytes.now) bit 64 }
{
    word_at(bytes, bit / 8, bit % 8)
}

/// Reads flag number `bit`, false past the end.
pub fn flag_at(bytes: &[u8], bit: usize) -> bool
    ensures { result ≡ get_or (flags_of bytes.now) bit false }
{
    let at = bit / 8;
    at < bytes.len() && (u64::from(bytes[at]) >> (bit % 8)) % 2 == 1
}

/// Returns w with its k low flags kept and the others cleared; w itself if k is 64 or more.
pub fn low_flags(w: u64, k: usize) -> u64
    ensures { word_flags result ≡ window (take k (word_flags w)) 0 64 }
{
    if k >= 64 { w } else { w % (1 << k) }
}

/// Puts the flags of b after the k low flags of a, and returns the first 64 of them; a itself if k is 64 or more.
pub fn concat_low(a: u64, k: usize, b: u64) -> u64
    ensures { word_flags result ≡ window (take k (word_flags a) ++ word_flags b) 0 64 }
{
    if k >= 64 { a } else { a % (1 << k) | b << k }
}

/// Returns a word whose flags all equal `flag`.
pub fn constant_word(flag: bool) -> u64
    ensures { word_flags result ≡ copies 64 flag }
{
    if flag { !0 } else { 0 }
}

/// Returns a word whose n low flags equal `flag`, at most 64, and whose other flags are zero. No branch on the flag.
pub fn constant_flags(flag: bool, n: usize) -> u64
    ensures { word_flags result ≡ window (copies n flag) 0 64 }
{
    if n >= 64 {
        return constant_word(flag);
    }
    let one = u64::from(flag);
    (one << n) - one
}

/// Counts the set flags of w.
pub fn ones_in_word(w: u64) -> usize
    ensures { result ≡ count (word_flags w) }
{
    // to usize: there is no From; a number of at most 64 fits
    w.count_ones() as usize
}

/// Counts the set flags among the k low flags of w, or all of them if k is 64 or more.
pub fn ones_below(w: u64, k: usize) -> usize
    ensures { result ≡ count (take k (word_flags w)) }
{
    if k == 0 {
        return 0;
    }
    if 64 < k {
        return ones_in_word(w);
    }
    // to usize: there is no From; a number of at most 64 fits
    (w << (64 - k)).count_ones() as usize
}
