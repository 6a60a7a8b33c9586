//! Values as bytes, which compare as the values do.
//!
//! The values follow each other, each preceded by the tag of its kind:
//!
//! | Kind | Bytes |
//! |---|---|
//! | Int | `01`, then the integer as 64 bits two's complement with the top bit flipped |
//! | Text | `02`, then its UTF-8 bytes with each `00` written `00 ff`, then `00 00` |
//! | Date | `03`, then the day's number plus 719162 as 32 bits |
//!
//! Numbers have their most significant byte first.

ghost use Rattle.std.specs.Prelude.{◌≡◌, ◌++◌, IfOk, OnOk};
ghost use Rattle.std.specs.List.{All};
ghost use Rattle.period_core.specs.Encoding.{IsColumnValue, encoded, encoded_value, escaped_text};

use crate::day::FIRST as FIRST_DAY;
use crate::memory::Memory;
use crate::value::Value;
use std::alloc::Global;

/// The tag of an integer.
pub(crate) const INTEGER: u8 = 1;

/// The tag of a text.
pub(crate) const TEXT: u8 = 2;

/// The tag of a date.
pub(crate) const DATE: u8 = 3;

/// The bytes of an integer, with its tag.
const INTEGER_BYTES: usize = 9;

/// The bytes of the values, one after the other; no values have no bytes. An `Err` says that memory
/// was refused.
pub fn encode_values(alloc: Global, values: &[Value]) -> Result<Vec<u8>, Memory>
    ensures bytes { IfOk result (λ bytes. bytes.items ≡ encoded values.now) }
    ensures held { IfOk result (λ _. All IsColumnValue values.now) }
{
    // (room for integers, so that most rows take one allocation)
    let mut bytes = Vec::with_capacity(alloc, values.len().saturating_mul(INTEGER_BYTES))?;
    for value in values {
        push_value(&mut bytes, value)?;
    }
    Ok(bytes)
}

fn push_value(bytes: &mut Vec<u8>, value: &Value) -> Result<(), Memory>
    ensures bytes { OnOk result (bytes.new.items ≡ bytes.old.items ++ encoded_value value.now) }
    ensures held { OnOk result (IsColumnValue value.now) }
{
    match value {
        Value::Int(number) => {
            bytes.push(INTEGER)?;
            bytes.extend_from_slice(&number.abs_diff(i64::MIN).to_be_bytes())?;
            Ok(())
        }
        Value::Text(text) => {
            bytes.push(TEXT)?;
            push_escaped(bytes, text.as_str().as_bytes())
        }
        Value::Date(day) => {
            bytes.push(DATE)?;
            bytes.extend_from_slice(&day.number().abs_diff(FIRST_DAY).to_be_bytes())?;
            Ok(())
        }
    }
}

fn push_escaped(bytes: &mut Vec<u8>, text: &[u8]) -> Result<(), Memory>
    ensures { OnOk result (bytes.new.items ≡ bytes.old.items ++ escaped_text text.now) }
{
    for byte in text {
        bytes.push(*byte)?;
        if *byte == 0 {
            bytes.push(0xff)?;
        }
    }
    bytes.extend_from_slice(&[0, 0])?;
    Ok(())
}
