//! Prints the digests of FIPS 180-4's vectors and the codes of RFC 4231's cases.

#![tactic(auto)]

ghost use Rattle.sha256.specs.Hmac.{hmac as mac, tag as cut};
ghost use Rattle.std.specs.Prelude.{◌≡◌, ◌∷◌};

use lines::hex::Hex;
use sha256::{digest, hmac, tag};
use std::io;

/// FIPS 180-4's message of two blocks.
const TWO_BLOCKS: &[u8] = b"abcdbcdecdefdefgefghfghighijhijkijkljklmklmnlmnomnopnopq";

/// The key of case 4.
const COUNTED_KEY: &[u8] =
    b"\x01\x02\x03\x04\x05\x06\x07\x08\x09\x0a\x0b\x0c\x0d\x0e\x0f\x10\x11\x12\x13\x14\x15\x16\x17\x18\x19";

/// The text of case 6.
const LARGE_KEY: &[u8] = b"Test Using Larger Than Block-Size Key - Hash Key First";

/// The text of case 7.
const LARGE_KEY_AND_DATA: &[u8] =
    b"This is a test using a larger than block-size key and a larger than block-size data. The key needs to be hashed before being used by the HMAC algorithm.";

fn main(rt: HostRuntime) -> io::Result<()> {
    digests(&rt)?;
    codes(&rt)
}

/// FIPS 180-4: the empty message, one block, two blocks, and a million times 'a'.
fn digests(rt: &HostRuntime) -> io::Result<()> {
    let long = vec![in rt.alloc(); b'a'; 1_000_000]?;
    show_digest(rt, "the empty message", b"")?;
    show_digest(rt, "abc", b"abc")?;
    show_digest(rt, "abcdbcde..nopq", TWO_BLOCKS)?;
    show_digest(rt, "a million a", &long)
}

/// RFC 4231: cases 1 to 7. Case 5 is cut to 128 bits.
fn codes(rt: &HostRuntime) -> io::Result<()> {
    show_code(rt, 1, &code(&[0x0b; 20], b"Hi There"))?;
    show_code(rt, 2, &code(b"Jefe", b"what do ya want for nothing?"))?;
    show_code(rt, 3, &code(&[0xaa; 20], &[0xdd; 50]))?;
    show_code(rt, 4, &code(COUNTED_KEY, &[0xcd; 50]))?;
    show_code(
        rt,
        5,
        &short_code(&[0x0c; 20], b'T', b"est With Truncation"),
    )?;
    show_code(rt, 6, &code(&[0xaa; 131], LARGE_KEY))?;
    show_code(rt, 7, &code(&[0xaa; 131], LARGE_KEY_AND_DATA))
}

fn show_digest(rt: &HostRuntime, name: &str, message: &[u8]) -> io::Result<()> {
    let hex = Hex(&digest(message));
    println!(rt; "SHA-256 of {name}: {hex}")
}

fn show_code(rt: &HostRuntime, case: u8, code: &[u8]) -> io::Result<()> {
    let hex = Hex(code);
    println!(rt; "HMAC-SHA-256 case {case}: {hex}")
}

/// The HMAC of a text, which is fed in two halves.
fn code(key: &[u8], text: &[u8]) -> [u8; 32]
    ensures { result ≡ mac key.now text.now }
{
    let mut work = [0; 64];
    let (first, rest) = text.split_at(text.len() / 2);
    hmac(key, first, rest, &mut work).unwrap()
}

/// The HMAC of a text, cut to 128 bits.
fn short_code(key: &[u8], first: u8, rest: &[u8]) -> [u8; 16]
    ensures { result ≡ cut key.now (first ∷ rest.now) }
{
    let mut work = [0; 64];
    tag(key, first, rest, &mut work).unwrap()
}
