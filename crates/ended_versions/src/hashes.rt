//! Hashes of values, by their bytes: versions with equal values at some positions have the same.

ghost use Rattle.std.specs.Prelude.{◌≡◌, ◌∷◌, [], IfOk, slice_get};
ghost use Rattle.std.specs.List.{filter_map};
ghost use Rattle.period_core.specs.Encoding.{encoded};
ghost use Rattle.ended_versions.specs.Hashes.{has_each, hash_byte, hash_bytes, hash_of};

use period_core::{Memory, Value, encode_values};
use std::alloc::Global;
use std::slice;

/// The greatest prime of 32 bits.
const PRIME: u64 = 4_294_967_291;

/// The hash with one more byte.
fn hash_byte(hash: u32, byte: u8) -> u32
    ensures { result ≡ hash_byte hash byte }
{
    ((u64::from(hash) * 257 + u64::from(byte)) % PRIME) as u32
}

/// The hash with these bytes appended.
fn hash_bytes(start: u32, bytes: &[u8]) -> u32
    ensures { result ≡ hash_bytes start bytes.now }
{
    let mut hash = start;
    for byte in bytes {
        hash = hash_byte(hash, *byte);
    }
    hash
}

/// The hash with the value at a position appended, if there is one.
fn hash_value_at(
    alloc: Global,
    start: u32,
    values: &[Value],
    position: usize,
) -> Result<u32, Memory>
    ensures { IfOk result (λ hash. hash
        ≡ hash_bytes start (encoded (filter_map (slice_get values.now) (position ∷ [])))) }
{
    match values.get(position) {
        Some(value) => {
            let bytes = encode_values(alloc, slice::from_ref(value))?;
            Ok(hash_bytes(start, bytes.as_slice()))
        }
        None => Ok(start),
    }
}

/// The hash of the values at these positions.
pub fn hash_at(alloc: Global, positions: &[usize], values: &[Value]) -> Result<u32, Memory>
    ensures { IfOk result (λ hash. hash
        ≡ hash_of (filter_map (slice_get values.now) positions.now)) }
{
    let mut hash = 0;
    for position in positions {
        hash = hash_value_at(alloc, hash, values, *position)?;
    }
    Ok(hash)
}

/// Whether there is a value at each of these positions.
pub fn has_each(positions: &[usize], values: &[Value]) -> bool
    ensures { result ≡ has_each positions.now values.now }
{
    positions.iter().all(|position| *position < values.len())
}

/// The hash of values.
pub fn hash_of(alloc: Global, values: &[Value]) -> Result<u32, Memory>
    ensures { IfOk result (λ hash. hash ≡ hash_of values.now) }
{
    let bytes = encode_values(alloc, values)?;
    Ok(hash_bytes(0, bytes.as_slice()))
}
