//! Digits and numbers, and a text cut in two.
ghost use Rattle.std.specs.Prelude.{◌<◌, IfSome};

// The number before its last digit is below this, so that 16 times it and a digit fit.
const LIMIT: u64 = 1 << 60;

// Returns the value of a hexadecimal digit; letters are lower-case.
pub(crate) fn digit(b: u8) -> Option<u8>
    ensures { IfSome result (λ d. d < 16) }
{
    match b {
        b'0'..=b'9' => Some(b - b'0'),
        b'a'..=b'f' => Some(b - b'a' + 10),
        _ => None,
    }
}

// Reads a decimal number, or a hexadecimal one after `x`.
pub(crate) fn number(text: &[u8]) -> Option<u64> {
    match text {
        [b'x', digits @ ..] => in_base(digits, 16),
        _ => in_base(text, 10),
    }
}

// Reads a number of 32 bits with a sign: `-` stands before one below 0.
pub(crate) fn signed(text: &[u8]) -> Option<i32> {
    let (below, digits) = match text {
        [b'-', digits @ ..] => (true, digits),
        _ => (false, text),
    };
    let n = i64::try_from(number(digits)?).ok()?;
    i32::try_from(if below { n.wrapping_neg() } else { n }).ok()
}

fn in_base(digits: &[u8], base: u8) -> Option<u64> {
    if digits.is_empty() {
        return None;
    }
    let mut n: u64 = 0;
    for b in digits {
        n = longer(n, *b, base)?;
    }
    Some(n)
}

// Returns the number with one more digit, None if it is no digit of the base or does not fit.
fn longer(n: u64, b: u8, base: u8) -> Option<u64> {
    let d = digit(b)?;
    if d >= base || n >= LIMIT {
        return None;
    }
    n.checked_mul(u64::from(base))?.checked_add(u64::from(d))
}

// Returns the number of the digits of a malformed text. What is no digit, or does not fit, is passed over.
pub(crate) fn number_of_malformed(text: &[u8]) -> u64 {
    let (digits, base) = match text {
        [b'x', digits @ ..] => (digits, 16),
        _ => (text, 10),
    };
    let mut n: u64 = 0;
    for b in digits {
        n = longer(n, *b, base).unwrap_or(n);
    }
    n
}

// Returns the text before the first `separator`, and the text after it; None if it does not occur.
pub(crate) fn split_once(text: &[u8], separator: u8) -> Option<(&[u8], &[u8])> {
    let at = text.iter().position(|b| *b == separator)?;
    let (before, rest) = text.split_at_checked(at)?;
    let (_, after) = rest.split_first()?;
    Some((before, after))
}
