//! Edges of what a message may be.

use crate::explaining::explanation;
use crate::items::outline;
use crate::verdict::{Broken, judge};
use std::test::Fail;

#[test]
fn verdict_edges(rt: HostRuntime) {
    let bytes = [0x40; 1025];
    assert_eq!(rt; judge(&bytes[0..0]), Err(Broken::InvalidLength));
    assert_eq!(rt; judge(&[0x41]), Err(Broken::InvalidCbor { place: 1 }));
    assert_eq!(rt; judge(&bytes[0..1024]), Err(Broken::InvalidCommand));
    assert_eq!(rt; judge(&bytes), Err(Broken::RequestTooLarge));
}

#[test]
fn nested_items(rt: HostRuntime) -> Result<(), Fail> {
    let message = [0x41, 0xa1, 0x01, 0x82, 0x01, 0x02];
    let shown = explanation(rt.alloc(), &message)?;
    assert_eq!(rt;
        shown.as_str(),
        "@1 map 1\n  @2 number 1\n  @3 array 2\n    @4 number 1\n    @5 number 2\nread: 0x00 place 0\n"
    );
    let entries = outline(rt.alloc(), &message, 4)?;
    assert_eq!(rt; entries.len(), 3);
    Ok(())
}
