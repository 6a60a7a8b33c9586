//! Table definitions as bytes, and back.

ghost use Rattle.std.specs.Prelude.{◌≡◌, IfErr, IfOk};
ghost use Rattle.period_core.specs.declared.decoding.DecodeFault.TheVariants.{Malformed};
ghost use Rattle.catalog_core.specs.bytes.DefinitionEncoding.{EncodesDefinition};
ghost use Rattle.catalog_core.specs.bytes.DefinitionEncoding.{IsDefinitionEncoding};

pub mod definition_list;
pub mod definition_reader;
pub mod laws;
pub mod value_reader;

use crate::bytes::definition_list::values_of;
use crate::bytes::definition_reader::read_definition;
use crate::table::TableDef;
use period_core::{DecodeFault, Memory, decode_values, encode_values};
use std::alloc::Global;

/// The bytes of a definition: the encoding of the list of its values. An `Err` says that memory was
/// refused.
pub fn encode_def(alloc: Global, definition: &TableDef) -> Result<Vec<u8>, Memory>
    ensures { IfOk result (λ bytes. EncodesDefinition definition.now bytes.items) }
{
    let values = values_of(alloc, definition)?;
    let bytes = encode_values(alloc, values.as_slice())?;
    Ok(bytes)
}

/// The definition whose bytes these are. An `Err` says that memory was refused, or that they are
/// the bytes of no definition.
pub fn decode_def(alloc: Global, bytes: &[u8]) -> Result<TableDef, DecodeFault>
    ensures found { IfOk result (λ d. EncodesDefinition d bytes.now) }
    ensures malformed { IfErr result
        (λ fault. fault ≡ Malformed → IsDefinitionEncoding bytes.now → ⊥) }
{
    let values = decode_values(alloc, bytes)?;
    read_definition(alloc, values.as_slice())
}
