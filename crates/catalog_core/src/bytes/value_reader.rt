//! Names, numbers and places, read from the front of values.

ghost use Rattle.std.specs.Prelude.{◌≡◌, IfErr, IfOk};
ghost use Rattle.std.specs.List.{flat_map};
ghost use Rattle.period_core.specs.declared.decoding.DecodeFault.TheVariants.{Malformed};
ghost use Rattle.sql_statements.specs.Names.{is_name};
ghost use Rattle.catalog_core.specs.bytes.DefinitionReading.{HasNoFront, IsFront, are_so_many};
ghost use Rattle.catalog_core.specs.bytes.DefinitionReading.{is_any, is_below, name_values};
ghost use Rattle.catalog_core.specs.bytes.DefinitionValues.{place_values};

use period_core::{DecodeFault, Value};
use sql_statements::Name;
use std::alloc::Global;

/// A name, and the remaining values.
pub fn read_name<'a>(alloc: Global, values: &'a [Value]) -> Result<(Name, &'a [Value]), DecodeFault>
    ensures found { IfOk result (λ x. IsFront is_name name_values values.now x.0 x.1.now) }
    ensures malformed { IfErr result
        (λ fault. fault ≡ Malformed → HasNoFront is_name name_values values.now) }
{
    let [Value::Text(text), rest @ ..] = values else {
        return Err(DecodeFault::Malformed);
    };
    let Ok(text) = text.copy(alloc) else {
        return Err(DecodeFault::Memory);
    };
    match Name::from_text(text) {
        Some(name) => Ok((name, rest)),
        None => Err(DecodeFault::Malformed),
    }
}

/// A number that is not negative, and the remaining values.
pub fn read_number(values: &[Value]) -> Result<(usize, &[Value]), DecodeFault>
    ensures found { IfOk result (λ x. IsFront is_any place_values values.now x.0 x.1.now) }
    ensures malformed { IfErr result
        (λ fault. fault ≡ Malformed → HasNoFront is_any place_values values.now) }
{
    let [Value::Int(n), rest @ ..] = values else {
        return Err(DecodeFault::Malformed);
    };
    if *n < 0 {
        return Err(DecodeFault::Malformed);
    }
    Ok((*n as usize, rest))
}

/// A number below a limit, and the remaining values.
pub fn read_place(values: &[Value], limit: usize) -> Result<(usize, &[Value]), DecodeFault>
    ensures found { IfOk result
        (λ x. IsFront (is_below limit) place_values values.now x.0 x.1.now) }
    ensures malformed { IfErr result
        (λ fault. fault ≡ Malformed → HasNoFront (is_below limit) place_values values.now) }
{
    let (place, rest) = read_number(values)?;
    if place >= limit {
        return Err(DecodeFault::Malformed);
    }
    Ok((place, rest))
}

/// `count` numbers below a limit, and the remaining values.
pub fn read_places(
    alloc: Global,
    values: &[Value],
    count: usize,
    limit: usize,
) -> Result<(Vec<usize>, &[Value]), DecodeFault>
    ensures found { IfOk result (λ x.
        IsFront (are_so_many count (is_below limit)) (flat_map place_values)
        values.now x.0.items x.1.now) }
    ensures malformed { IfErr result (λ fault. fault ≡ Malformed →
        HasNoFront (are_so_many count (is_below limit)) (flat_map place_values) values.now) }
{
    let mut places = Vec::new(alloc);
    let mut rest = values;
    'places: for _turn in 0..count {
        let (place, behind) = read_place(rest, limit)?;
        places.push(place)?;
        rest = behind;
    }
    Ok((places, rest))
}
