//! Sizes of images, and a table of two slots.

// `opens`, `sizes` and `named` are three short functions of both stores' tests: a shared one would be public only for tests.

use crate::Table;
use credential::{Fields, Full, NoRecord, OutsideLimits, Record, SLOT, Store};
use image::ImageStore;
use sha256::same;
use std::alloc::{AllocError, Global};
use std::test::Fail;

/// Whether so many zeros open as a table.
fn opens(heap: Global, size: usize) -> Result<bool, AllocError> {
    Ok(Table::open(vec![in heap; 0; size]?).is_ok())
}

#[test]
fn sizes(rt: HostRuntime) -> Result<(), Fail> {
    let heap = rt.alloc();
    assert!(rt; !opens(heap, 0)? && !opens(heap, SLOT - 1)? && !opens(heap, SLOT + 1)?);
    assert!(rt; opens(heap, SLOT)? && opens(heap, 64 * SLOT)?);
    assert!(rt; !opens(heap, 65 * SLOT)?);
    Ok(())
}

/// The smallest record of a party.
fn named(rp_id: &[u8]) -> Result<Record, OutsideLimits> {
    Record::new(Fields {
        rp_id,
        ..Record::blank().fields()
    })
}

#[test]
fn two_slots(rt: HostRuntime) -> Result<(), Fail> {
    let first = named(b"a.example")?;
    let second = named(b"b.example")?;
    let Ok(mut table) = Table::open(vec![in rt.alloc(); 0; 2 * SLOT]?) else {
        return Err(Fail::new("two free slots"));
    };
    assert!(rt; table.add(&first).is_ok() && table.add(&second).is_ok());
    assert_eq!(rt; table.add(&first), Err(Full));
    assert_eq!(rt; table.remove(2), Err(NoRecord));
    assert!(rt; table.remove(0).is_ok() && table.count() == 1);
    let image = table.bytes();
    assert!(rt; image.len() == 2 * SLOT);
    assert!(rt; same(&image[0..SLOT], &second.to_slot()));
    assert!(rt; same(&image[SLOT..2 * SLOT], &[0; SLOT]));
    Ok(())
}
