//! Lines that ask for a step over a store.

use crate::{Name, Step, StoreStep, parse};
use bench::{Named, Wrong};
use image::Kind;
use std::test::Fail;

#[test]
fn an_image_is_opened(rt: HostRuntime) -> Result<(), Fail> {
    let heap = rt.alloc();
    match parse(heap, b"open log 0a0b")? {
        Step::Store(StoreStep::Open { kind, image }) => {
            assert_eq!(rt; kind, Kind::Log);
            assert_eq!(rt; image.as_slice(), [0x0a, 0x0b].as_slice());
            Ok(())
        }
        _ => Err(Fail::new("another step")),
    }
}

#[test]
fn a_name_has_its_step(rt: HostRuntime) -> Result<(), Fail> {
    let heap = rt.alloc();
    let Some(name) = Name::of(b"list") else {
        return Err(Fail::new("no name"));
    };
    match name.step(heap, None)? {
        StoreStep::List => Ok(()),
        _ => Err(Fail::new("another step")),
    }
}

#[test]
fn wrong_lines(rt: HostRuntime) {
    let heap = rt.alloc();
    assert_eq!(rt; parse(heap, b"shelve").err(), Some(Wrong::Step));
    assert_eq!(rt; parse(heap, b"list 00").err(), Some(Wrong::Words));
    assert_eq!(rt; parse(heap, b"blank disk 2").err(), Some(Wrong::Kind));
    assert_eq!(rt; parse(heap, b"remove -1").err(), Some(Wrong::Place));
}
