//! A clone of four commits, with its own heads and with others.

ghost use Rattle.std.specs.Prelude.{[]};
ghost use Rattle.payload_tables.specs.Kept.{AreTablesOf};

use batch_codec::BatchRef;
use id_groups::Name;
use payload_tables::{TableFault, Tables};
use std::alloc::{AllocError, Global};
use std::test::Fail;

/// A clone of the master ids 0 to 3, of which 3 merges 1 and 2; the names of 1 to 3 are known, and 3 is the head.
const MERGE: [u8; 178] = [
    1, 2, 0, 0, 0, 0, 0, 0, 0, 0, 0, 0, 0, 0, 0, 0, 0, 4, 0, 0, 0, 3, 1, 0, 0, 0, 0, 0, 0, 0, 0, 1,
    1, 0, 1, 0, 0, 0, 0, 0, 0, 0, 0, 2, 0, 0, 0, 0, 0, 0, 0, 0, 0, 0, 0, 3, 0, 2, 1, 2, 0, 0, 0, 3,
    0, 0, 0, 0, 0, 0, 0, 1, 0, 0, 0, 0, 0, 0, 0, 0, 0, 0, 0, 0, 0, 0, 0, 0, 0, 0, 0, 0xb1, 0, 0, 0,
    0, 0, 0, 0, 2, 0, 0, 0, 0, 0, 0, 0, 0, 0, 0, 0, 0, 0, 0, 0, 0, 0, 0, 0, 0xc1, 0, 0, 0, 0, 0, 0,
    0, 3, 0, 0, 0, 0, 0, 0, 0, 0, 0, 0, 0, 0, 0, 0, 0, 0, 0, 0, 0, 0xd1, 0, 1, 0, 0, 0, 0, 0, 0, 0,
    0, 0, 0, 0, 0, 0, 0, 0, 0, 0, 0, 0, 0xd1, 0, 0, 0, 0, 0, 0, 0, 0,
];

/// The place in the payload of the last byte of its head.
const HEAD_END: usize = 169;

/// The name of 19 zero bytes and this one.
fn short(byte: u8) -> Name {
    let mut bytes = [0; 20];
    bytes[19] = byte;
    Name::from_bytes(bytes)
}

/// Adds the clone with this last byte of its head to tables of no payloads; `false` if it is no payload.
fn add_clone(tables: &mut Tables, head: u8) -> Result<bool, TableFault>
    requires { AreTablesOf tables.old [] }
{
    let mut bytes = MERGE;
    bytes[HEAD_END] = head;
    let Some(batch) = BatchRef::read(&bytes) else {
        return Ok(false);
    };
    tables.add_batch(&[], &batch, 0)?;
    Ok(true)
}

/// The ids that were cloned, whether these are the heads, the master ids, and the levels.
type Told = (u64, bool, u64, u32);

/// What the tables tell.
fn told(tables: &Tables, heads: &[Name]) -> Told {
    (
        tables.cloned(),
        tables.heads() == heads,
        tables.master_count(),
        tables.levels().counts().len(),
    )
}

/// The ids that were cloned and the other ids, as a copy of the tables tells.
fn told_by_copy(alloc: Global, tables: &Tables) -> Result<(u64, u32), AllocError> {
    let same = tables.copy(alloc)?;
    Ok((same.cloned(), same.others().count()))
}

/// Whether the clone with this last byte of its head is added, and what the tables and their copy tell then.
fn told_behind(
    alloc: Global,
    head: u8,
    heads: &[Name],
) -> (
    Result<bool, TableFault>,
    Told,
    Result<(u64, u32), AllocError>,
) {
    let mut tables = Tables::empty(alloc);
    let added = add_clone(&mut tables, head);
    let told = told(&tables, heads);
    (added, told, told_by_copy(alloc, &tables))
}

#[test]
fn a_clone_comes_with_its_heads(rt: HostRuntime) -> Result<(), Fail> {
    let told = told_behind(rt.alloc(), 0xd1, &[short(0xd1)]);
    assert_eq!(rt; told, (Ok(true), (4, true, 4, 1), Ok((4, 0))));
    Ok(())
}

#[test]
fn another_head_is_refused(rt: HostRuntime) -> Result<(), Fail> {
    let told = told_behind(rt.alloc(), 0xc1, &[]);
    assert_eq!(rt;
        told,
        (Err(TableFault::Unlawful), (0, true, 0, 1), Ok((0, 0)))
    );
    Ok(())
}
