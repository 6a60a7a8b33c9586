//! Definitions of tables as bytes, and back; and bytes of no definition.

use catalog_core::{ColumnKind, decode_def, encode_def};
use period_core::DecodeFault;
use std::alloc::Global;
use std::test::Fail;

// EMP: 6 columns, ENO, DEPT, S, E, SS and SE, its period EP over S and E, and ENO as its key.
const EMP: &[u8] = b"\
    \x02EMP\0\0\x01\x80\0\0\0\0\0\0\x06\x02ENO\0\0\x01\x80\0\0\0\0\0\0\x01\
    \x01\x80\0\0\0\0\0\0\0\x02DEPT\0\0\x01\x80\0\0\0\0\0\0\x01\x01\x80\0\0\0\0\0\0\0\
    \x02S\0\0\x01\x80\0\0\0\0\0\0\x03\x01\x80\0\0\0\0\0\0\0\x02E\0\0\x01\x80\0\0\0\0\0\0\x03\
    \x01\x80\0\0\0\0\0\0\0\x02SS\0\0\x01\x80\0\0\0\0\0\0\x04\x01\x80\0\0\0\0\0\0\x0c\
    \x02SE\0\0\x01\x80\0\0\0\0\0\0\x05\x01\x80\0\0\0\0\0\0\x0c\x02EP\0\0\
    \x01\x80\0\0\0\0\0\0\x02\x01\x80\0\0\0\0\0\0\x03\x01\x80\0\0\0\0\0\0\x01\
    \x01\x80\0\0\0\0\0\0\0\x01\x80\0\0\0\0\0\0\0";

// KIN: 7 columns, one of them a text of 20, a key of two columns, and references to the tables 1
// and 2, of one and of two columns.
const KIN: &[u8] = b"\
    \x02KIN\0\0\x01\x80\0\0\0\0\0\0\x07\x02ENO\0\0\x01\x80\0\0\0\0\0\0\x01\
    \x01\x80\0\0\0\0\0\0\0\x02NAME\0\0\x01\x80\0\0\0\0\0\0\x02\x01\x80\0\0\0\0\0\0\x14\
    \x02MGR\0\0\x01\x80\0\0\0\0\0\0\x01\x01\x80\0\0\0\0\0\0\0\x02S\0\0\
    \x01\x80\0\0\0\0\0\0\x03\x01\x80\0\0\0\0\0\0\0\x02E\0\0\x01\x80\0\0\0\0\0\0\x03\
    \x01\x80\0\0\0\0\0\0\0\x02SS\0\0\x01\x80\0\0\0\0\0\0\x04\
    \x01\x7f\xff\xff\xff\xff\xff\xff\xff\x02SE\0\0\x01\x80\0\0\0\0\0\0\x05\
    \x01\x7f\xff\xff\xff\xff\xff\xff\xff\x02KP\0\0\x01\x80\0\0\0\0\0\0\x03\
    \x01\x80\0\0\0\0\0\0\x04\x01\x80\0\0\0\0\0\0\x02\x01\x80\0\0\0\0\0\0\x01\
    \x01\x80\0\0\0\0\0\0\0\x01\x80\0\0\0\0\0\0\x02\x01\x80\0\0\0\0\0\0\x01\
    \x01\x80\0\0\0\0\0\0\x01\x01\x80\0\0\0\0\0\0\x02\x01\x80\0\0\0\0\0\0\0\
    \x01\x80\0\0\0\0\0\0\x02\x01\x80\0\0\0\0\0\0\x02\x01\x80\0\0\0\0\0\0\x01\
    \x01\x80\0\0\0\0\0\0\0\x01\x80\0\0\0\0\0\0\x01\x01\x80\0\0\0\0\0\0\0";

// Whether the bytes are read, and written again as they are.
fn is_read_back(alloc: Global, bytes: &[u8]) -> Result<bool, Fail> {
    let definition = decode_def(alloc, bytes)?;
    let again = encode_def(alloc, &definition)?;
    Ok(again.as_slice() == bytes)
}

fn is_refused(alloc: Global, bytes: &[u8]) -> bool {
    matches!(decode_def(alloc, bytes), Err(DecodeFault::Malformed))
}

// Whether the bytes are refused with another byte at a place.
fn is_refused_with(alloc: Global, bytes: &[u8], place: usize, byte: u8) -> Result<bool, Fail> {
    let mut changed = Vec::new(alloc);
    changed.extend_from_slice(bytes)?;
    if let Some(slot) = changed.get_mut(place) {
        *slot = byte;
    }
    Ok(is_refused(alloc, changed.as_slice()))
}

#[test]
fn both_ways(rt: HostRuntime) -> Result<(), Fail> {
    assert!(rt; is_read_back(rt.alloc(), EMP)?);
    assert!(rt; is_read_back(rt.alloc(), KIN)?);
    let read = decode_def(rt.alloc(), EMP)?;
    assert_eq!(rt; read.name.as_text().as_str(), "EMP");
    assert_eq!(rt; read.period.start, 2);
    assert_eq!(rt; read.period.end, 3);
    assert_eq!(rt; read.key.as_slice(), [0].as_slice());
    let last = read.columns.as_slice().last().map(|column| column.kind);
    assert_eq!(rt; last, Some(ColumnKind::RowEnd(Some(12))));
    Ok(())
}

#[test]
fn bytes_of_no_definition(rt: HostRuntime) -> Result<(), Fail> {
    // the table's name in another case, and one that begins with a digit; a reserved word; counts
    // of columns; kinds of ENO, and its number; the p of SS; places of the period and of the key;
    // the length of the key; a reference too many
    let places = [
        (1, b'e'),
        (1, b'1'),
        (18, b'D'),
        (14, 5),
        (14, 7),
        (29, 0),
        (29, 6),
        (38, 1),
        (130, 13),
        (167, 6),
        (194, 6),
        (185, 0),
        (185, 2),
        (203, 1),
    ];
    for (place, byte) in places {
        assert!(rt; is_refused_with(rt.alloc(), EMP, place, byte)?);
    }
    // no length of texts, and 1,044; a p of -2; the tables 0 and 257; no columns; a place
    let places = [
        (63, 0),
        (62, 4),
        (154, 0xfe),
        (245, 0),
        (244, 1),
        (254, 0),
        (263, 7),
    ];
    for (place, byte) in places {
        assert!(rt; is_refused_with(rt.alloc(), KIN, place, byte)?);
    }
    // a length of 788, and the table 255
    assert!(rt; !is_refused_with(rt.alloc(), KIN, 62, 3)?);
    assert!(rt; !is_refused_with(rt.alloc(), KIN, 245, 255)?);
    Ok(())
}

#[test]
fn cut_bytes(rt: HostRuntime) {
    assert!(rt; is_refused(rt.alloc(), &[]));
    assert!(rt; is_refused(rt.alloc(), &EMP[..195]));
    assert!(rt; is_refused(rt.alloc(), &EMP[..203]));
}
