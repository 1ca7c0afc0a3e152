//! Names in hex, and the texts of ids at the ends of their ranges.

use id_groups::{Id, Name};
use std::test::Fail;

/// Texts, and whether they are read as the name of 19 zeros and a1.
const TEXTS: [(&[u8], bool); 5] = [
    (b"00000000000000000000000000000000000000A1", true),
    (b"00000000000000000000000000000000000000a1", true),
    (b"0000000000000000000000000000000000000a1", false),
    (b"00000000000000000000000000000000000000a1a", false),
    (b"00000000000000000000000000000000000000g1", false),
];

fn name() -> Name {
    let mut bytes = [0u8; 20];
    bytes[19] = 0xa1;
    Name::from_bytes(bytes)
}

fn is_read(text: &[u8]) -> bool {
    Name::from_hex(text) == Some(name())
}

#[test]
fn names_are_read_in_either_case(rt: HostRuntime) -> Result<(), Fail> {
    for (text, wanted) in &TEXTS {
        assert!(rt; is_read(text) == *wanted);
    }
    assert_eq!(rt;
        name().to_hex().as_slice(),
        b"00000000000000000000000000000000000000a1".as_slice()
    );
    Ok(())
}

#[test]
fn ids_are_printed_by_group(rt: HostRuntime) -> Result<(), Fail> {
    let last = (1u64 << 56) - 1;
    for (id, text) in [
        (Id::master(0), b"0".as_slice()),
        (Id::master(last), b"72057594037927935"),
        (Id::other(0), b"N0"),
        (Id::other(last), b"N72057594037927935"),
    ] {
        let mut out = [0u8; 24];
        assert_eq!(rt; id.print(&mut out), text);
    }
    Ok(())
}
