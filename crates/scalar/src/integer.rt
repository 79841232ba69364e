// Integers. Underscores are skipped where they stand; the magnitude is read in u64 against its limit, and the sign
// stands beside it.

ghost use Rattle.std.specs.Prelude.{◌≡◌, ◌≤◌, ◌∷◌, [], ◌==◌, not, position, MatchOption};
ghost use Rattle.meaning.specs.Integers as meant;
ghost use Rattle.scalar.specs.Ints.{int_of, counted, digits_of, more};

use meaning::{Refused, Signed};

// What a digit counts.
#[tactic(auto, using(laws::specs::Tests::tests), unfolding(meaning::specs::Integers::digit))]
fn digit(b: u8) -> Option<u8>
    ensures { counted result ≡ meant.digit b }
{
    match b {
        b'0'..=b'9' => Some(b - b'0'),
        b'A'..=b'F' => Some(b - b'A' + 10),
        b'a'..=b'f' => Some(b - b'a' + 10),
        _ => None,
    }
}

// One digit more after the value acc, if the base has it and the limit allows it.
fn add_digit(base: u64, limit: u64, acc: u64, b: u8) -> Option<u64>
    requires { base ≤ 16 }
    ensures { digits_of result ≡ more base limit acc b }
{
    let d = u64::from(digit(b)?);
    if base <= d {
        return None;
    }
    let n = acc.checked_mul(base)?.checked_add(d)?;
    if n <= limit { Some(n) } else { None }
}

// What the digits count.
fn count(s: &[u8], base: u64, limit: u64) -> Option<u64>
    requires { base ≤ 16 }
    ensures { digits_of result ≡ meant.within limit (meant.value base 0 (meant.clean s.now)) }
{
    let mut acc = 0;
    for b in s {
        if *b != b'_' {
            acc = add_digit(base, limit, acc, *b)?;
        }
    }
    Some(acc)
}

// The largest magnitude.
#[tactic(auto, unfolding(meaning::specs::Integers::most))]
fn largest_magnitude(neg: bool) -> u64
    ensures { result ≡ meant.most neg }
{
    if neg {
        0x8000000000000000
    } else {
        0x7fffffffffffffff
    }
}

// Where the first byte stands that is no underscore.
fn skip(s: &[u8]) -> Option<usize>
    ensures { result ≡ position (λ b. not (b == 95)) s.now }
{
    s.iter().position(|b| *b != b'_')
}

// That byte, and what follows it.
fn next_byte(s: &[u8]) -> Option<(u8, &[u8])>
    ensures { MatchOption result (meant.clean s.now ≡ [])
        (λ p. meant.clean s.now ≡ p.0 ∷ meant.clean p.1.now) }
{
    let i = skip(s)?;
    Some((s[i], &s[i + 1..]))
}

// At least one digit, within range.
fn magnitude(s: &[u8], neg: bool, base: u64) -> Result<Signed, Refused>
    requires { base ≤ 16 }
    ensures { int_of result ≡ meant.magnitude neg base (meant.clean s.now) }
{
    if skip(s).is_none() {
        return Err(Refused::NotAnInteger);
    }
    let mag = count(s, base, largest_magnitude(neg)).ok_or(Refused::NotAnInteger)?;
    Ok(Signed { neg, mag })
}

// An optional sign.
fn sign(s: &[u8], base: u64) -> Result<Signed, Refused>
    requires { base ≤ 16 }
    ensures { int_of result ≡ meant.sign base (meant.clean s.now) }
{
    let Some((b, rest)) = next_byte(s) else {
        return Err(Refused::NotAnInteger);
    };
    match b {
        b'-' => magnitude(rest, true, base),
        b'+' => magnitude(rest, false, base),
        _ => magnitude(s, false, base),
    }
}

// What follows `0x` or `0X`.
fn after_prefix(s: &[u8]) -> Option<&[u8]>
    ensures { MatchOption result
        (meant.signed s.now ≡ meant.sign 10 (meant.clean s.now))
        (λ rest. meant.signed s.now ≡ meant.sign 16 (meant.clean rest.now)) }
{
    let (zero, after_zero) = next_byte(s)?;
    let (x, after_x) = next_byte(after_zero)?;
    if zero == b'0' && (x == b'x' || x == b'X') {
        Some(after_x)
    } else {
        None
    }
}

// The integer that s is, or refusal 12.
pub fn read_int(s: &[u8]) -> Result<Signed, Refused>
    ensures { int_of result ≡ meant.signed s.now }
{
    match after_prefix(s) {
        Some(rest) => sign(rest, 16),
        None => sign(s, 10),
    }
}
