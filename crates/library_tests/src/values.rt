//! Values and their bytes, both ways, and bytes that are no value's.

use period_core::{Day, DecodeFault, Text, Value, decode_values, encode_values};
use std::alloc::Global;
use std::test::Fail;

// Whether the values have these bytes, and the bytes give the values back.
fn have_bytes(alloc: Global, values: &[Value], bytes: &[u8]) -> Result<bool, Fail> {
    let written = encode_values(alloc, values)?;
    let read = decode_values(alloc, bytes)?;
    Ok(written.as_slice() == bytes && read.as_slice() == values)
}

fn text(alloc: Global, characters: &str) -> Result<Value, Fail> {
    Ok(Value::Text(Text::new(String::from_str(alloc, characters)?)))
}

fn date(number: i32) -> Result<Value, Fail> {
    Ok(Value::Date(Day::new(number).ok_or("no such day")?))
}

#[test]
fn numbers(rt: HostRuntime) -> Result<(), Fail> {
    let alloc = rt.alloc();
    assert!(rt; have_bytes(alloc, &[], &[])?);
    let low = [1, 0, 0, 0, 0, 0, 0, 0, 0];
    assert!(rt; have_bytes(alloc, &[Value::Int(i64::MIN)], &low)?);
    let high = [1, 0xff, 0xff, 0xff, 0xff, 0xff, 0xff, 0xff, 0xff];
    assert!(rt; have_bytes(alloc, &[Value::Int(i64::MAX)], &high)?);
    let two = [
        0x01, 0x80, 0, 0, 0, 0, 0, 0x56, 0xc9, 0x01, 0x80, 0, 0, 0, 0, 0, 0, 0x03,
    ];
    assert!(rt; have_bytes(alloc, &[Value::Int(22_217), Value::Int(3)], &two)?);
    Ok(())
}

#[test]
fn texts_and_dates(rt: HostRuntime) -> Result<(), Fail> {
    let alloc = rt.alloc();
    let both = [text(alloc, "a")?, date(0)?];
    assert!(rt; have_bytes(alloc, &both, &[2, 0x61, 0, 0, 3, 0, 0x0a, 0xf9, 0x3a])?);
    let zeros = [text(alloc, "")?, text(alloc, "\0\0")?, text(alloc, "é")?];
    let bytes = [2, 0, 0, 2, 0, 0xff, 0, 0xff, 0, 0, 2, 0xc3, 0xa9, 0, 0];
    assert!(rt; have_bytes(alloc, &zeros, &bytes)?);
    let ends = [date(-719_162)?, date(2_932_896)?];
    assert!(rt; have_bytes(alloc, &ends, &[3, 0, 0, 0, 0, 3, 0, 0x37, 0xb9, 0xda])?);
    Ok(())
}

#[test]
fn bytes_of_no_values(rt: HostRuntime) {
    // other tags, cut values, other escapes, texts that are not UTF-8, days after the last
    let rows: [&[u8]; 16] = [
        &[0],
        &[4],
        &[2, 0, 0, 0],
        &[1],
        &[1, 0x80, 0, 0, 0, 0, 0, 0],
        &[2],
        &[2, 0x61, 0],
        &[2, 0x61, 0, 0xff],
        &[3],
        &[3, 0, 0x0a, 0xf9],
        &[2, 0, 1, 0, 0],
        &[2, 0x61, 0, 0xfe, 0, 0],
        &[2, 0xff, 0, 0],
        &[2, 0xc0, 0x80, 0, 0],
        &[3, 0, 0x37, 0xb9, 0xdb],
        &[3, 0xff, 0xff, 0xff, 0xff],
    ];
    for bytes in rows {
        let read = decode_values(rt.alloc(), bytes);
        assert!(rt; matches!(read, Err(DecodeFault::Malformed)));
    }
}
