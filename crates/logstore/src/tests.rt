//! Sizes of images, a bad slot, and logs of two and of three slots through a compaction.

// `opens`, `sizes` and `named` are three short functions of both stores' tests: a shared one would be public only for tests.

use crate::log::Log;
use credential::{Fields, Full, NoRecord, OutsideLimits, Record, SLOT, Store, withdrawal};
use image::{ImageStore, Refusal};
use std::alloc::{AllocError, Global};
use std::process::Abort;
use std::test::Fail;

/// Checks that the two slots of a log are these.
fn lies(rt: &impl Abort, log: &Log, first: &[u8], second: &[u8]) {
    let bytes = log.bytes();
    assert!(rt; bytes.len() >= SLOT);
    let (front, back) = bytes.split_at(SLOT);
    assert_eq!(rt; front, first);
    assert_eq!(rt; back, second);
}

/// Whether so many zeros open as a log.
fn opens(heap: Global, size: usize) -> Result<bool, AllocError> {
    Ok(Log::open(vec![in heap; 0; size]?).is_ok())
}

#[test]
fn sizes(rt: HostRuntime) -> Result<(), Fail> {
    let heap = rt.alloc();
    assert!(rt; !opens(heap, 0)? && !opens(heap, SLOT - 1)?);
    assert!(rt; !opens(heap, SLOT)? && !opens(heap, SLOT + 1)?);
    assert!(rt; opens(heap, 2 * SLOT)? && opens(heap, 64 * SLOT)?);
    assert!(rt; !opens(heap, 65 * SLOT)?);
    Ok(())
}

#[test]
fn bad_slot(rt: HostRuntime) -> Result<(), Fail> {
    let mut bytes = vec![in rt.alloc(); 0; 4 * SLOT]?;
    assert!(rt; bytes.len() == 4 * SLOT);
    bytes[SLOT] = 1;
    match Log::open(bytes) {
        Ok(_) => Err(Fail::new("opened")),
        Err(refused) => {
            assert_eq!(rt; refused.why, Refusal::Slot(1));
            Ok(())
        },
    }
}

#[test]
fn two_slots(rt: HostRuntime) -> Result<(), Fail> {
    let first = named(b"a.example")?;
    let second = named(b"b.example")?;
    let free = [0; SLOT];
    let Ok(mut log) = Log::open(vec![in rt.alloc(); 0; 2 * SLOT]?) else {
        return Err(Fail::new("refused"));
    };
    assert_eq!(rt; log.capacity(), 1);
    assert!(rt; log.add(&first).is_ok());
    assert_eq!(rt; log.add(&second), Err(Full));
    lies(&rt, &log, &first.to_slot(), &free);
    assert!(rt; log.remove(0).is_ok());
    assert_eq!(rt; log.remove(0), Err(NoRecord));
    lies(&rt, &log, &first.to_slot(), &withdrawal(0));
    assert!(rt; log.add(&second).is_ok() && log.count() == 1);
    lies(&rt, &log, &second.to_slot(), &free);
    Ok(())
}

/// The smallest record of a party.
fn named(rp_id: &[u8]) -> Result<Record, OutsideLimits> {
    Record::new(Fields {
        rp_id,
        ..Record::blank().fields()
    })
}

#[test]
fn three_slots(rt: HostRuntime) -> Result<(), Fail> {
    let last = named(b"c.example")?;
    let Ok(mut log) = Log::open(vec![in rt.alloc(); 0; 3 * SLOT]?) else {
        return Err(Fail::new("refused"));
    };
    assert!(rt; log.add(&named(b"a.example")?).is_ok());
    assert!(rt; log.add(&last).is_ok());
    assert!(rt; log.remove(0).is_ok());
    assert!(rt; log.add(&named(b"d.example")?).is_ok());
    let mut into = Record::blank();
    assert!(rt; log.read(0, &mut into).is_ok());
    assert_eq!(rt; into.rp_id_hash(), last.rp_id_hash());
    Ok(())
}
