//! Numbers of digits.

ghost use Rattle.std.specs.Prelude.{◌≡◌, ◌≤◌, ◌-◌, length, nat_lt, cond, Some, None};
ghost use Rattle.sql_front.specs.reading.LeafValues as leaves;
ghost use Rattle.period_core.specs.Encoding.{greatest_number};
ghost use Rattle.sql_front.specs.LiteralValues.{number_of_digits};

use period_core::GREATEST_NUMBER;

/// A number of so many digits has at most 64 bits.
const FEW: usize = 17;

/// The value of a digit.
fn digit_value(byte: u8) -> u64
    ensures { result ≡ byte - 48 }
{
    (byte as u64).saturating_sub(48)
}

/// The number that a few digits write.
fn number_of_few(digits: &[u8]) -> u64
    requires { length digits.now ≤ 17 }
    ensures { result ≡ number_of_digits digits.now }
{
    let mut value: u64 = 0;
    for byte in digits {
        value = value * 10 + digit_value(*byte);
    }
    value
}

/// The number of digits, if it is no more than the limit.
// Most numbers have a few digits, which need no look at the limit after each.
pub fn number_up_to(digits: &str, limit: u64) -> Option<u64>
    ensures { result ≡ cond (nat_lt limit (number_of_digits digits.now)) None
        (Some (number_of_digits digits.now)) }
{
    let bytes = digits.as_bytes();
    let (front, more) = bytes.split_at(bytes.len().min(FEW));
    let mut value = number_of_few(front);
    if value > limit {
        return None;
    }
    for byte in more {
        let next = value as u128 * 10 + digit_value(*byte) as u128;
        if next > limit as u128 {
            return None;
        }
        value = next as u64;
    }
    Some(value)
}

/// Whether the number of digits is above the limit, which is at least the greatest number.
// A few digits are below it, and are not read.
pub fn is_number_above(digits: &str, limit: u64) -> bool
    requires { greatest_number ≤ limit }
    ensures { result ≡ nat_lt limit (number_of_digits digits.now) }
{
    digits.len() > FEW && number_up_to(digits, limit).is_none()
}

/// The value of a number without a minus: 0 if it is outside 64 bits signed.
pub fn number_value(digits: &str) -> u64
    ensures value { result ≡ leaves.number_value digits.now }
    ensures fits { result ≤ greatest_number }
{
    match number_up_to(digits, GREATEST_NUMBER) {
        Some(value) => value,
        None => 0,
    }
}

/// The value of a number with a minus: 0 if it is outside 64 bits signed.
pub fn negative_value(digits: &str) -> i64
    ensures { result ≡ leaves.negative_value digits.now }
{
    match number_up_to(digits, GREATEST_NUMBER + 1) {
        Some(value) => (-(value as i128)) as i64,
        None => 0,
    }
}
