//! The limits of every field, and every byte of a slot that must be zero.

use crate::{Fields, OutsideLimits, Record, SLOT, Slot, withdrawal};
use std::test::Fail;

/// So many bytes of each field.
#[derive(Clone, Copy)]
struct Sizes {
    rp_id: usize,
    user_id: usize,
    name: usize,
    display_name: usize,
    id: usize,
    x: usize,
    y: usize,
    protect: u8,
}

const PLAIN: Sizes = Sizes {
    rp_id: 11,
    user_id: 3,
    name: 0,
    display_name: 5,
    id: 32,
    x: 32,
    y: 32,
    protect: 2,
};

static BYTES: [u8; 129] = [7; 129];

fn bytes(size: usize) -> &'static [u8] {
    &BYTES[..size.min(BYTES.len())]
}

fn made(sizes: Sizes) -> Result<Record, OutsideLimits> {
    Record::new(Fields {
        rp_id: bytes(sizes.rp_id),
        user_id: bytes(sizes.user_id),
        name: bytes(sizes.name),
        display_name: bytes(sizes.display_name),
        credential_id: bytes(sizes.id),
        x: bytes(sizes.x),
        y: bytes(sizes.y),
        cred_protect: sizes.protect,
    })
}

/// The first and the last are refused, and the two between them are made.
fn only_between(sizes: [Sizes; 4]) -> bool {
    let [below, least, most, above] = sizes;
    made(below).is_err() && made(least).is_ok() && made(most).is_ok() && made(above).is_err()
}

fn with_rp_id(rp_id: usize) -> Sizes {
    Sizes { rp_id, ..PLAIN }
}

fn with_user_id(user_id: usize) -> Sizes {
    Sizes { user_id, ..PLAIN }
}

fn with_names(name: usize, display_name: usize) -> Sizes {
    Sizes {
        name,
        display_name,
        ..PLAIN
    }
}

fn with_keys(id: usize, x: usize, y: usize) -> Sizes {
    Sizes { id, x, y, ..PLAIN }
}

fn with_protect(protect: u8) -> Sizes {
    Sizes { protect, ..PLAIN }
}

#[test]
fn limits_of_texts(rt: HostRuntime) {
    assert!(rt; only_between([0, 1, 128, 129].map(with_rp_id)));
    assert!(rt; only_between([0, 1, 64, 65].map(with_user_id)));
    assert!(rt;
        only_between([
            with_names(65, 0),
            with_names(0, 64),
            with_names(64, 0),
            with_names(0, 65),
        ])
    );
}

#[test]
fn limits_of_numbers_and_keys(rt: HostRuntime) {
    assert!(rt; only_between([0, 1, 3, 4].map(with_protect)));
    assert!(rt; only_between([with_keys(31, 32, 32), PLAIN, PLAIN, with_keys(33, 32, 32)]));
    assert!(rt; only_between([with_keys(32, 31, 32), PLAIN, PLAIN, with_keys(32, 33, 32)]));
    assert!(rt; only_between([with_keys(32, 32, 31), PLAIN, PLAIN, with_keys(32, 32, 33)]));
}

/// Whether the byte of a plain record's slot must be zero.
fn must_be_zero(at: usize) -> bool {
    matches!(at, 6..=15 | 27..=143 | 147..=207 | 208..=271 | 277..=335 | 432..=511)
}

/// Whether a one at this offset makes the bytes no slot.
fn is_spoiled(mut slot: [u8; SLOT], at: usize) -> bool {
    if let Some(byte) = slot.get_mut(at) {
        *byte = 1;
    }
    Slot::from_bytes(&slot).is_none()
}

#[test]
fn zeros_of_a_record(rt: HostRuntime) -> Result<(), Fail> {
    let slot = made(PLAIN)?.to_slot();
    assert!(rt; Slot::from_bytes(&slot).is_some());
    assert!(rt;
        (0..SLOT)
            .filter(|&k| must_be_zero(k))
            .all(|k| is_spoiled(slot, k))
    );
    Ok(())
}

#[test]
fn zeros_of_a_withdrawal_and_of_nothing(rt: HostRuntime) {
    let gone = withdrawal(9);
    assert!(rt; Slot::from_bytes(&gone).is_some() && Slot::from_bytes(&[0; SLOT]).is_some());
    assert!(rt; (1..SLOT).all(|k| is_spoiled([0; SLOT], k)));
    assert!(rt; (1..SLOT).filter(|&k| k != 6).all(|k| is_spoiled(gone, k)));
    assert!(rt; Slot::from_bytes(&gone[0..511]).is_none());
}
