//! The values of decimal digits.
ghost use Rattle.std.specs.Prelude.{◌≡◌, ◌<◌, ◌≤◌, ◌-◌, IfSome, length, if◌then◌else◌, nat_le, nat_lt, ◌^◌, true, Some, None};
ghost use Rattle.std.specs.List.{list_all};
ghost use Rattle.numeral.specs.Numeral as text;

/// The value of 1 to `most_digits` ASCII digits, or `None` exactly if the bytes have another form. Leading zeros are
/// allowed.
#[tactic(auto, unfolding(crate::specs::Numeral::numeral))]
pub fn numeral(bytes: &[u8], most_digits: usize) -> Option<u128>
    requires { most_digits ≤ 20 }
    ensures { result ≡ text.numeral most_digits bytes.now }
{
    if bytes.len() < 1 || bytes.len() > most_digits {
        return None;
    }
    value_of(bytes)
}

/// The value of 1 to 10 ASCII digits, or `None` exactly if the bytes have another form or the value is 2^32 or more.
#[inline]
#[tactic(auto, unfolding(crate::specs::Numeral::number))]
pub fn number(bytes: &[u8]) -> Option<u32>
    ensures { result ≡ text.number bytes.now }
{
    match short_numeral(bytes) {
        None => None,
        Some(value) => in_range(bytes.len(), value),
    }
}

// The value of 1 to 10 digits, which fits in 64 bits.
#[tactic(auto, unfolding(crate::specs::Numeral::numeral))]
fn short_numeral(bytes: &[u8]) -> Option<u64>
    ensures value { result ≡ text.numeral 10 bytes.now }
    ensures short { length bytes.now ≤ 9 → IfSome result (λ value. value < 2 ^ 32) }
{
    if bytes.len() < 1 || bytes.len() > 10 {
        return None;
    }
    short_value_of(bytes)
}

// The value of this number of digits, if it is below 2^32. Nine digits always are, so that mostly only their number is
// compared.
fn in_range(digits: usize, value: u64) -> Option<u32>
    requires { digits ≤ 9 → value < 2 ^ 32 }
    ensures { result ≡ if nat_lt value (2 ^ 32) then Some value else None }
{
    if digits <= 9 || value < 1 << 32 {
        Some(value as u32)
    } else {
        None
    }
}

fn is_digit(b: u8) -> bool
    ensures { result ≡ text.is_digit b }
{
    b'0' <= b && b <= b'9'
}

// The value of digits, or `None` exactly if a byte is not a digit.
fn value_of(bytes: &[u8]) -> Option<u128>
    requires { length bytes.now ≤ 20 }
    ensures { result ≡ if list_all text.is_digit bytes.now then Some (text.value bytes.now) else None }
{
    let mut value = 0u128;
    for b in bytes {
        if !is_digit(*b) {
            return None;
        }
        value = value * 10 + (*b - b'0') as u128;
    }
    Some(value)
}

// A byte's distance from `0`, which is above 9 if it is not a digit.
fn digit_of(b: u8) -> u64
    ensures digit { text.is_digit b ≡ nat_le result 9 }
    ensures value { text.is_digit b ≡ true → result ≡ b - 48 }
{
    u64::from(b).wrapping_sub(48)
}

// The value of at most 10 digits, in 64 bits, or `None` exactly if a byte is not a digit.
fn short_value_of(bytes: &[u8]) -> Option<u64>
    requires { length bytes.now ≤ 10 }
    ensures value { result ≡ if list_all text.is_digit bytes.now then Some (text.value bytes.now) else None }
    ensures short { length bytes.now ≤ 9 → IfSome result (λ value. value < 2 ^ 32) }
{
    let mut value = 0u64;
    for b in bytes {
        let digit = digit_of(*b);
        if digit > 9 {
            return None;
        }
        value = value * 10 + digit;
    }
    Some(value)
}
