//! What is noted comes out in its order.

use call_disk::{NotedCall, NotedCalls, NotedDisk};
use disk_trait::Disk;
use std::marker::Brand;

/// The kind of the next call: 1 of a write, 2 of a sync, 0 where there is none.
fn kind_of(noted: &NotedCalls) -> u32 {
    match noted.next() {
        Some(NotedCall::Write(_, _)) => 1,
        Some(NotedCall::Sync) => 2,
        None => 0,
    }
}

#[test]
fn calls_are_noted_in_order(rt: HostRuntime) {
    let alloc = rt.alloc();
    let mut disk = NotedDisk::<Brand>::new(alloc);
    assert!(rt; disk.write(0, b"gate").is_ok());
    assert!(rt; disk.sync().is_ok());
    assert!(rt; disk.size().is_err());
    assert_eq!(rt; disk.clock(), 6);
    let mut noted = NotedCalls::new(alloc);
    assert!(rt; noted.add_sync().is_ok());
    assert!(rt; noted.append(disk.into_noted()).is_ok());
    for kind in [2, 1, 2, 0] {
        assert_eq!(rt; kind_of(&noted), kind);
        noted.performed();
    }
}
