//! The counts of a window in which one word takes the place of another.
ghost use Rattle.std.specs.Prelude.{ℕ, ◌≡◌, ◌+◌, ◌/◌, ◌%◌, ◌^◌, ◌≤◌, ◌<◌, get_or, length};
ghost use Rattle.activity.specs.Workers.{Holds, Exchanged};

use words::columns::{digit_by, single_flags};

// Returns `count` with the flag `plus` added and the flag `minus` taken off.
fn moved(count: u32, plus: u32, minus: u32) -> u32
    requires { (minus ≤ count) × (count ≤ 256) × (plus < 2) }
    ensures { result + minus ≡ count + plus }
{
    count + plus - minus
}

// Returns the 32 flags of w that begin at flag s.
fn half_of(w: u64, s: usize) -> u32
    requires { s ≤ 32 }
    ensures { result ≡ w / 2 ^ s % 2 ^ 32 }
{
    // to u32: there is no From; 32 flags fit
    ((w >> s) % 4294967296) as u32
}

// Takes 32 flags of `old` off 32 counts and adds those of `new`, starting at flag s.
fn exchange_half(counts: &mut [u32], masks: &[u32; 32], s: usize, old: u64, new: u64)
    requires { (length counts.old ≡ 32) × ((c : ℕ) → c < 32 → get_or masks.now c 0 ≡ 2 ^ c)
        × (s ≤ 32) × Holds counts.old s 32 old }
    ensures { (length counts.new ≡ 32) × Exchanged counts.old s old new counts.new 32 }
{
    let plus = half_of(new, s);
    let minus = half_of(old, s);
    for (c, count) in counts.iter_mut().enumerate() {
        *count = moved(*count, digit_by(plus, masks[c]), digit_by(minus, masks[c]));
    }
}

// Takes the flags of `old` off the counts and adds those of `new`.
pub(crate) fn exchange(counts: &mut [u32; 64], old: u64, new: u64)
    requires { Holds counts.old 0 64 old }
    ensures { (length counts.new ≡ 64) × Exchanged counts.old 0 old new counts.new 64 }
{
    let tests = single_flags();
    exchange_half(&mut counts[..32], &tests, 0, old, new);
    exchange_half(&mut counts[32..], &tests, 32, old, new);
}
