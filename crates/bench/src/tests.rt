//! Edges of what a line may hold.

use crate::parsing::parse;
use crate::serving::{Bench, serve};
use crate::values::{byte, bytes};
use crate::wrong::Wrong;
use std::alloc::{AllocError, Global};
use std::test::Fail;

#[test]
fn hex_edges(rt: HostRuntime) -> Result<(), Fail> {
    let heap = rt.alloc();
    assert_eq!(rt; bytes(heap, b"-")?.len(), 0);
    assert_eq!(rt;
        bytes(heap, b"0a9ff0")?.as_slice(),
        [0x0a, 0x9f, 0xf0].as_slice()
    );
    assert!(rt; bytes(heap, b"").is_err());
    assert!(rt; bytes(heap, b"0").is_err());
    assert!(rt; bytes(heap, b"0A").is_err());
    assert!(rt; bytes(heap, b"0g").is_err());
    Ok(())
}

#[test]
fn decimal_edges(rt: HostRuntime) {
    assert_eq!(rt; byte(b"0", Wrong::Sub), Ok(0));
    assert_eq!(rt; byte(b"255", Wrong::Sub), Ok(255));
    assert_eq!(rt; byte(b"256", Wrong::Sub), Err(Wrong::Sub));
    assert_eq!(rt; byte(b"", Wrong::Sub), Err(Wrong::Sub));
}

#[test]
fn abc_is_digested(rt: HostRuntime) -> Result<(), Fail> {
    let heap = rt.alloc();
    let step = parse(heap, b"digest 616263")?;
    assert_eq!(rt;
        step.carry_out(heap, "")?.as_str(),
        "digest: ba7816bf8f01cfea414140de5dae2223b00361a396177a9cb410ff61f20015ad\n"
    );
    Ok(())
}

#[test]
fn wrong_lines(rt: HostRuntime) -> Result<(), Fail> {
    let heap = rt.alloc();
    assert_eq!(rt; parse(heap, b"digest").err(), Some(Wrong::Words));
    assert_eq!(rt; parse(heap, b"digests 00").err(), Some(Wrong::Step));
    assert_eq!(rt; parse(heap, b"help 00").err(), Some(Wrong::Words));
    assert_eq!(rt; parse(heap, b"tag 00 256 00").err(), Some(Wrong::Sub));
    Ok(())
}

/// Answers a line with the number of the bytes so far.
#[derive(Drop)]
struct Counter(usize);

impl Bench for Counter {
    ghost answers = { λ _ _ _ _. Unit {0} };

    ghost leaves = { λ _ _ _. Unit {0} };

    fn answer(&mut self, heap: Global, line: &[u8]) -> Result<String, AllocError> {
        self.0 = self.0.saturating_add(line.len());
        let count = self.0;
        format!(in heap; "{count};")
    }
}

#[test]
fn each_line_is_served(rt: HostRuntime) -> Result<(), Fail> {
    let heap = rt.alloc();
    let mut counter = Counter(0);
    let mut input = b"ab\n\ncde".as_slice();
    let mut output = Vec::new(heap);
    serve(heap, &mut counter, &mut input, &mut output)?;
    assert_eq!(rt; counter.0, 7);
    assert_eq!(rt; output.as_slice(), b"3;4;7;".as_slice());
    Ok(())
}

#[test]
fn mistakes_have_lines(rt: HostRuntime) -> Result<(), Fail> {
    let heap = rt.alloc();
    assert_eq!(rt;
        Wrong::NoStore.line(heap)?.as_str(),
        "error: no store is open\n"
    );
    Ok(())
}
