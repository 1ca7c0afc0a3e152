//! Records of a log that are added to tables and levels.

ghost use Rattle.std.specs.Prelude.{◌≡◌, ◌+◌, ◌≤◌, ◌^◌, true, List, length, OnOk};
ghost use Rattle.segment_codec.specs.Record.{Segment};
ghost use Rattle.flat_segments.specs.Placed.{AreRecords};
ghost use Rattle.high_segments.specs.Extending.{MayExtendLevels};
ghost use Rattle.sample_tables.specs.Grown.{IsGrown};

use flat_segments::{FlatFault, FlatTable};
use high_segments::Levels;
use segment_codec::read_segment;
use std::alloc::AllocError;

/// A table of records and its levels, and a second table of the same records.
#[derive(Drop)]
pub(crate) struct Tables {
    pub(crate) table: FlatTable,
    pub(crate) probe: FlatTable,
    pub(crate) levels: Levels,
}

/// Whether the bytes are records, at most a thousand.
fn are_records(bytes: &[u8]) -> bool
    ensures { result ≡ true → (segments : List Segment) × AreRecords segments bytes.now × (length segments ≤ 1000) }
{
    let mut rest = bytes;
    let mut room = 1000u32;
    'records: while let Some((_, after)) = read_segment(rest) {
        if room == 0 {
            return false;
        }
        room -= 1;
        rest = after;
    }
    rest.is_empty()
}

/// Extends the levels and takes that back.
fn rehearse(
    levels: &mut Levels,
    table: &FlatTable,
    log: &[u8],
    records: &[u8],
) -> Result<(), AllocError>
    requires { MayExtendLevels levels.old table.now log.now records.now }
    ensures { levels.new ≡ levels.old }
{
    let mark = levels.mark();
    levels.extend(table, log, records)?;
    levels.cut_back(&mark);
    Ok(())
}

/// The same, or nothing.
fn rehearse_if(
    is_rehearsed: bool,
    levels: &mut Levels,
    table: &FlatTable,
    log: &[u8],
    records: &[u8],
) -> Result<(), AllocError>
    requires { MayExtendLevels levels.old table.now log.now records.now }
    ensures { levels.new ≡ levels.old }
{
    if is_rehearsed {
        rehearse(levels, table, log, records)?;
    }
    Ok(())
}

/// Adds the records that stand in the log at a place, `len` bytes. Where it is rehearsed, the levels are extended, cut back and
/// extended again.
pub(crate) fn add_records(
    log: &[u8],
    tables: &mut Tables,
    at: usize,
    len: usize,
    most: u32,
    is_rehearsed: bool,
) -> Result<(), FlatFault>
    requires small { most ≤ 2 ^ 30 }
    requires grown { IsGrown log.now tables.old.table tables.old.probe tables.old.levels most }
    ensures { OnOk result (IsGrown log.now tables.new.table tables.new.probe tables.new.levels (most + 1000)) }
{
    if at > log.len() || len > log.len() - at || log.len() > 1 << 40 {
        return Err(FlatFault::Memory);
    }
    let (_, behind) = log.split_at(at);
    let (records, _) = behind.split_at(len);
    if !are_records(records) {
        return Err(FlatFault::Memory);
    }
    tables.probe.extend(log, records, at as u64)?;
    if tables.probe.count() > 1 << 24 {
        return Err(FlatFault::Memory);
    }
    rehearse_if(
        is_rehearsed,
        &mut tables.levels,
        &tables.table,
        log,
        records,
    )?;
    tables.levels.extend(&tables.table, log, records)?;
    tables.table.extend(log, records, at as u64)
}
