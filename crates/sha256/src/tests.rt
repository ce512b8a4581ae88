//! Tests of the edges: block borders, key lengths, work places, and lengths of what is given.

ghost use Rattle.std.specs.Prelude.{◌≤◌};

use crate::hasher::Hasher;
use crate::mac::WorkSize;
use crate::{agrees, digest, hmac, same};
use std::array;
use std::process::Abort;
use std::test::Fail;

/// The bytes 0 to 64.
fn counted() -> [u8; 65] {
    array::from_fn(|i| i as u8)
}

/// The first `len` bytes have this digest, fed in one part and in two.
fn edge(rt: &impl Abort, len: usize, expected: &[u8; 32])
    requires { len ≤ 65 }
{
    let bytes = counted();
    assert_eq!(rt; digest(&bytes[0..len]), *expected);
    let mut hasher = Hasher::new();
    hasher.update(&bytes[0..len / 3]);
    hasher.update(&bytes[len / 3..len]);
    assert_eq!(rt; hasher.finish(), *expected);
}

/// A key of the first `len` bytes gives this code, and leaves zeros.
fn keyed(rt: &impl Abort, len: usize, expected: &[u8; 32]) -> Result<(), Fail>
    requires { len ≤ 65 }
{
    let bytes = counted();
    let mut work = [7; 64];
    let code = hmac(&bytes[0..len], b"first", b"rest", &mut work)?;
    assert_eq!(rt; code, *expected);
    assert_eq!(rt; work, [0; 64]);
    Ok(())
}

/// Whether the first `len` bytes of the whole code agree; the work place holds zeros after.
fn agreement(rt: &impl Abort, len: usize) -> Result<bool, Fail>
    requires { len ≤ 32 }
{
    let mut work = [7; 64];
    let whole = hmac(b"token", &[6], b"rest", &mut work)?;
    work.fill(7);
    let answer = agrees(b"token", 6, b"rest", &whole[0..len], &mut work)?;
    assert_eq!(rt; work, [0; 64]);
    Ok(answer)
}

#[test]
fn block_edges(rt: HostRuntime) {
    edge(
        &rt,
        55,
        b"\x46\x3e\xb2\x8e\x72\xf8\x2e\x0a\x96\xc0\xa4\xcc\x53\x69\x0c\x57\x12\x81\x13\x1f\x67\x2a\xa2\x29\xe0\xd4\x5a\xe5\x9b\x59\x8b\x59",
    );
    edge(
        &rt,
        56,
        b"\xda\x2a\xe4\xd6\xb3\x67\x48\xf2\xa3\x18\xf2\x3e\x7a\xb1\xdf\xdf\x45\xac\xdc\x9d\x04\x9b\xd8\x0e\x59\xde\x82\xa6\x08\x95\xf5\x62",
    );
    edge(
        &rt,
        63,
        b"\x29\xaf\x26\x86\xfd\x53\x37\x4a\x36\xb0\x84\x66\x94\xcc\x34\x21\x77\xe4\x28\xd1\x64\x75\x15\xf0\x78\x78\x4d\x69\xcd\xb9\xe4\x88",
    );
    edge(
        &rt,
        64,
        b"\xfd\xea\xb9\xac\xf3\x71\x03\x62\xbd\x26\x58\xcd\xc9\xa2\x9e\x8f\x9c\x75\x7f\xcf\x98\x11\x60\x3a\x8c\x44\x7c\xd1\xd9\x15\x11\x08",
    );
    edge(
        &rt,
        65,
        b"\x4b\xfd\x2c\x8b\x6f\x1e\xec\x7a\x2a\xfe\xb4\x8b\x93\x4e\xe4\xb2\x69\x41\x82\x02\x7e\x6d\x0f\xc0\x75\x07\x4f\x2f\xab\xb3\x17\x81",
    );
}

#[test]
fn key_edges(rt: HostRuntime) -> Result<(), Fail> {
    keyed(
        &rt,
        63,
        b"\xf5\x6f\xe0\x51\xb9\x55\x54\x64\x35\x4d\x5b\xcc\x63\x0f\x18\xa6\x72\x48\xdd\xf8\x35\x97\x40\x35\x59\x80\x43\x3c\x1b\x1a\xb0\xdc",
    )?;
    keyed(
        &rt,
        64,
        b"\xdb\x9c\x42\xff\xc9\x1f\x00\x5b\xe5\x4b\x73\x53\x36\x9e\x2d\x6c\x07\x6f\x5b\x4e\xd6\x4f\x42\x85\xb0\x14\xcb\x16\x09\xa4\xe5\x61",
    )?;
    keyed(
        &rt,
        65,
        b"\x24\x0a\x48\x3e\xf4\xc6\xaf\x71\xa3\xf4\x28\x1b\x72\x80\xc6\xd3\xdf\x2c\xf8\x8e\x2b\x49\xd9\x80\x78\x6a\x1d\x99\x1e\xc7\xb6\x98",
    )
}

#[test]
fn places(rt: HostRuntime) {
    let mut place = [7; 65];
    assert_eq!(rt; hmac(b"k", b"a", b"b", &mut place[0..63]), Err(WorkSize));
    assert_eq!(rt; hmac(b"k", b"a", b"b", &mut place), Err(WorkSize));
    assert_eq!(rt; place, [7; 65]);
    assert_eq!(rt;
        agrees(b"k", 1, b"b", b"c", &mut place[0..63]),
        Err(WorkSize)
    );
    assert_eq!(rt; place, [7; 65]);
    assert_eq!(rt; agrees(b"k", 1, b"b", b"c", &mut place[0..64]), Ok(false));
    assert!(rt; same(&place[0..64], &[0; 64]));
    assert_eq!(rt; place[64], 7);
}

#[test]
fn given_lengths(rt: HostRuntime) -> Result<(), Fail> {
    for (len, answer) in [(15, false), (16, true), (17, false), (32, false)] {
        assert_eq!(rt; agreement(&rt, len)?, answer);
    }
    assert!(rt; !same(b"abcd", b"abce") && !same(b"abc", b"abcd"));
    Ok(())
}
