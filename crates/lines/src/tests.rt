//! Edges of what a text may spell.

use crate::decimal::number;
use crate::hex::{decode, encode};
use std::test::Fail;

#[test]
fn hex_edges(rt: HostRuntime) -> Result<(), Fail> {
    let heap = rt.alloc();
    let Some(none) = decode(heap, b"-")? else {
        assert!(rt; false);
        return Ok(());
    };
    assert_eq!(rt; none.len(), 0);
    let Some(bytes) = decode(heap, b"0a9ff0")? else {
        assert!(rt; false);
        return Ok(());
    };
    assert_eq!(rt; encode(heap, &bytes)?.as_bytes(), b"0a9ff0".as_slice());
    assert!(rt; decode(heap, b"")?.is_none());
    assert!(rt; decode(heap, b"0")?.is_none());
    assert!(rt; decode(heap, b"0A")?.is_none());
    assert!(rt; decode(heap, b"0g")?.is_none());
    Ok(())
}

#[test]
fn decimal_edges(rt: HostRuntime) {
    assert_eq!(rt; number(b"0", 255), Some(0));
    assert_eq!(rt; number(b"255", 255), Some(255));
    assert_eq!(rt; number(b"256", 255), None);
    assert_eq!(rt; number(b"", 255), None);
    assert_eq!(rt; number(b"18446744073709551615", u64::MAX), Some(u64::MAX));
    assert_eq!(rt; number(b"18446744073709551616", u64::MAX), None);
    assert_eq!(rt;
        number(b"1000000000000000000000000000000000000000", u64::MAX),
        None
    );
    assert_eq!(rt;
        number(b"0000000000000000000000000000007", u64::MAX),
        Some(7)
    );
}
