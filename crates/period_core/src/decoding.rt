//! Values from bytes, in the one spelling that `encode_values` gives them.

ghost use Rattle.std.specs.Prelude.{◌≡◌, ◌++◌, ◌∷◌, ℕ, List, IfOk, IfErr};
ghost use Rattle.std.specs.List.{All};
ghost use Rattle.period_core.specs.Decoding.{HasFirst};
ghost use Rattle.period_core.specs.Encoding.{IsColumnValue, IsEncoding, encoded, encoded_value};
ghost use Rattle.period_core.specs.Encoding.{escaped_text};
ghost use Rattle.period_core.specs.declared.decoding.DecodeFault.TheVariants.{Malformed};

use crate::day::{Day, FIRST as FIRST_DAY};
use crate::encoding::{DATE, INTEGER, TEXT};
use crate::text::Text;
use crate::value::Value;
use std::alloc::{AllocError, AllocFailed, Global};

/// Why bytes give no values.
#[derive(Clone, Copy, Debug, PartialEq, Eq)]
pub enum DecodeFault {
    /// An allocation was refused.
    Memory,
    /// The bytes are no values' bytes: a value is cut, its tag is none of the three, its text has
    /// a `00` before another byte than `00` and `ff` or is not UTF-8, or its date is after
    /// 9999-12-31.
    Malformed,
}

impl From<AllocError> for DecodeFault {
    ghost use Rattle.period_core.specs.declared.decoding.DecodeFault.TheVariants.{Memory};

    ghost from_gives = { λ _ fault. fault ≡ Memory };

    fn from(_error: AllocError) -> DecodeFault {
        DecodeFault::Memory
    }
}

impl<T: Drop> From<AllocFailed<T>> for DecodeFault {
    ghost use Rattle.period_core.specs.declared.decoding.DecodeFault.TheVariants.{Memory};

    ghost from_gives = { λ _ fault. fault ≡ Memory };

    fn from(_error: AllocFailed<T>) -> DecodeFault {
        DecodeFault::Memory
    }
}

/// The values whose encoding these bytes are. An `Err` says that memory was refused, or that they
/// are the encoding of no values.
pub fn decode_values(alloc: Global, bytes: &[u8]) -> Result<Vec<Value>, DecodeFault>
    ensures found { IfOk result (λ values. encoded values.items ≡ bytes.now) }
    ensures held { IfOk result (λ values. All IsColumnValue values.items) }
    ensures malformed { IfErr result (λ fault. fault ≡ Malformed → IsEncoding bytes.now → ⊥) }
{
    let mut values = Vec::new(alloc);
    let mut rest = bytes;
    'values: while !rest.is_empty() {
        let (value, after) = decode_value(alloc, rest)?;
        values.push(value)?;
        rest = after;
    }
    Ok(values)
}

/// The first value of the bytes, and the remaining bytes.
fn decode_value(alloc: Global, bytes: &[u8]) -> Result<(Value, &[u8]), DecodeFault>
    ensures found { IfOk result (λ read. encoded_value read.0 ++ read.1.now ≡ bytes.now) }
    ensures held { IfOk result (λ read. IsColumnValue read.0) }
    ensures malformed { IfErr result (λ fault. fault ≡ Malformed → HasFirst bytes.now → ⊥) }
{
    match bytes {
        [INTEGER, rest @ ..] => decode_integer(rest),
        [TEXT, rest @ ..] => decode_text(alloc, rest),
        [DATE, rest @ ..] => decode_date(rest),
        _ => Err(DecodeFault::Malformed),
    }
}

/// The integer after its tag, and the remaining bytes.
fn decode_integer(bytes: &[u8]) -> Result<(Value, &[u8]), DecodeFault>
    ensures found { IfOk result (λ read. encoded_value read.0 ++ read.1.now ≡ 1 ∷ bytes.now) }
    ensures held { IfOk result (λ read. IsColumnValue read.0) }
    ensures malformed { IfErr result (λ fault. fault ≡ Malformed → HasFirst (1 ∷ bytes.now) → ⊥) }
{
    let Some((places, rest)) = bytes.split_first_chunk::<8>() else {
        return Err(DecodeFault::Malformed);
    };
    let places = u64::from_be_bytes(*places);
    let number = i64::MIN.checked_add_unsigned(places).unwrap();
    Ok((Value::Int(number), rest))
}

/// The date after its tag, and the remaining bytes.
fn decode_date(bytes: &[u8]) -> Result<(Value, &[u8]), DecodeFault>
    ensures found { IfOk result (λ read. encoded_value read.0 ++ read.1.now ≡ 3 ∷ bytes.now) }
    ensures held { IfOk result (λ read. IsColumnValue read.0) }
    ensures malformed { IfErr result (λ fault. fault ≡ Malformed → HasFirst (3 ∷ bytes.now) → ⊥) }
{
    let Some((places, rest)) = bytes.split_first_chunk::<4>() else {
        return Err(DecodeFault::Malformed);
    };
    let places = u32::from_be_bytes(*places);
    let Some(number) = FIRST_DAY.checked_add_unsigned(places) else {
        return Err(DecodeFault::Malformed);
    };
    match Day::new(number) {
        Some(day) => Ok((Value::Date(day), rest)),
        None => Err(DecodeFault::Malformed),
    }
}

/// The text after its tag, and the bytes after its end.
fn decode_text(alloc: Global, bytes: &[u8]) -> Result<(Value, &[u8]), DecodeFault>
    ensures found { IfOk result (λ read. encoded_value read.0 ++ read.1.now ≡ 2 ∷ bytes.now) }
    ensures held { IfOk result (λ read. IsColumnValue read.0) }
    ensures malformed { IfErr result (λ fault. fault ≡ Malformed → HasFirst (2 ∷ bytes.now) → ⊥) }
{
    let (text, rest) = unescape(alloc, bytes)?;
    match String::from_utf8(text) {
        Ok(string) => Ok((Value::Text(Text::new(string)), rest)),
        Err(_) => Err(DecodeFault::Malformed),
    }
}

/// The bytes of a text, and the bytes after its end.
fn unescape(alloc: Global, bytes: &[u8]) -> Result<(Vec<u8>, &[u8]), DecodeFault>
    ensures found { IfOk result (λ read. escaped_text read.0.items ++ read.1.now ≡ bytes.now) }
    ensures malformed { IfErr result (λ fault. fault ≡ Malformed →
        (text rest : List ℕ) → escaped_text text ++ rest ≡ bytes.now → ⊥) }
{
    let mut text = Vec::new(alloc);
    let mut rest = bytes;
    'bytes: while let [byte, after @ ..] = rest {
        rest = match (*byte, after) {
            (0, [0, behind @ ..]) => return Ok((text, behind)),
            (0, [0xff, behind @ ..]) => {
                text.push(0)?;
                behind
            }
            (0, _) => return Err(DecodeFault::Malformed),
            (byte, _) => {
                text.push(byte)?;
                after
            }
        };
    }
    Err(DecodeFault::Malformed)
}
