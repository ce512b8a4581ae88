//! The edges of canonical reading.

use crate::{Fault, Key, check, find};
use std::process::Abort;

/// Checks that the message is read from its second byte on, to its end.
fn read_whole(rt: &impl Abort, message: &[u8]) {
    assert_eq!(rt; check(message, 1), Ok(message.len()));
}

/// Checks that the message breaks a rule at that place.
fn faulty(rt: &impl Abort, message: &[u8], place: usize) {
    assert_eq!(rt; check(message, 1), Err(Fault { place }));
}

#[test]
fn shortest_heads(rt: HostRuntime) {
    read_whole(&rt, b"\x41\x17");
    faulty(&rt, b"\x41\x18\x17", 1);
    read_whole(&rt, b"\x41\x18\x18");
    read_whole(&rt, b"\x41\x18\xff");
    faulty(&rt, b"\x41\x19\x00\xff", 1);
    read_whole(&rt, b"\x41\x19\x01\x00");
    read_whole(&rt, b"\x41\x19\xff\xff");
    faulty(&rt, b"\x41\x1a\x00\x00\xff\xff", 1);
    read_whole(&rt, b"\x41\x1a\x00\x01\x00\x00");
    read_whole(&rt, b"\x41\x1a\xff\xff\xff\xff");
    faulty(&rt, b"\x41\x1b\x00\x00\x00\x00\xff\xff\xff\xff", 1);
    read_whole(&rt, b"\x41\x1b\x00\x00\x00\x01\x00\x00\x00\x00");
    read_whole(&rt, b"\x41\x3b\xff\xff\xff\xff\xff\xff\xff\xff");
}

#[test]
fn refused_heads(rt: HostRuntime) {
    for byte in b"\x1c\x1f\x5f\x7f\x9f\xbf\xc0\xf3\xf7\xf8\xf9\xff" {
        faulty(&rt, &[0x41, *byte, 0x00, 0x00], 1);
    }
    faulty(&rt, b"\x41\x19\x01", 1);
    faulty(&rt, b"\x41\xf8\x20", 1);
    for byte in b"\xf4\xf5\xf6" {
        read_whole(&rt, &[0x41, *byte]);
    }
}

#[test]
fn strings_and_counts(rt: HostRuntime) {
    read_whole(&rt, b"\x41\x43\x01\x02\x03");
    faulty(&rt, b"\x41\x44\x01\x02\x03", 1);
    faulty(&rt, b"\x41\x42\x01\x02\x03", 4);
    read_whole(&rt, b"\x41\x62\xc3\x28");
    faulty(&rt, b"\x41\x82\x01", 3);
    faulty(&rt, b"\x41\x9b\xff\xff\xff\xff\xff\xff\xff\xff\x00", 11);
    faulty(&rt, b"\x41\xbb\xff\xff\xff\xff\xff\xff\xff\xff\x00", 11);
    faulty(&rt, b"\x41\x5b\xff\xff\xff\xff\xff\xff\xff\xff\x00", 1);
}

#[test]
fn levels_and_keys(rt: HostRuntime) {
    read_whole(&rt, b"\x41\xa1\x01\x81\xa1\x02\x81\x00");
    faulty(&rt, b"\x41\xa1\x01\x81\xa1\x02\x81\xa0", 7);
    faulty(&rt, b"\x41\xa2\x01\x00\x01\x00", 4);
    faulty(&rt, b"\x41\xa2\x02\x00\x01\x00", 4);
    faulty(&rt, b"\x41\xa1\x80\x00", 2);
    faulty(&rt, b"\x41\xa1\x81\xff\x00", 2);
    faulty(&rt, b"\x41\xa1\xf4\x00", 2);
    read_whole(&rt, b"\x41\xa2\x18\x18\x00\x20\x00");
    faulty(&rt, b"\x41\xa2\x20\x00\x18\x18\x00", 4);
    read_whole(&rt, b"\x41\xa2\x61\x7a\x00\x62\x61\x61\x00");
    faulty(&rt, b"\x41\xa2\x61\x62\x00\x61\x61\x00", 5);
}

/// Checks the place and the bytes of a field, or that there is none.
fn holds(rt: &impl Abort, message: &[u8], key: Key, wanted: Option<(usize, &[u8])>) {
    let found = find(message, 1, key).map(|field| (field.part.place, field.raw));
    assert_eq!(rt; found, wanted);
}

#[test]
fn fields(rt: HostRuntime) {
    let message = [
        0x41, 0xa3, 0x01, 0x06, 0x02, 0xa1, 0x02, 0xf6, 0x62, 0x69, 0x64, 0x41, 0x07,
    ];
    holds(&rt, &message, Key::Number(1), Some((3, b"\x06")));
    holds(&rt, &message, Key::Number(2), Some((5, b"\xa1\x02\xf6")));
    holds(&rt, &message, Key::Number(3), None);
    holds(&rt, &message, Key::Text(b"id"), Some((11, b"\x41\x07")));
    holds(&rt, &message, Key::Text(b"ie"), None);
    holds(&rt, b"\x41\x80", Key::Number(1), None);
    holds(&rt, b"\x41", Key::Number(1), None);
}
