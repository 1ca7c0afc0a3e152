//! Flushes and rebases over the tables of a log without payloads.

ghost use Rattle.std.specs.Prelude.{◌≡◌, ◌≤◌, ◌+◌, ◌^◌, ℕ, List, [], length, replicate, Option, None, IfOk, IfSome, OnOk};
ghost use Rattle.std.specs.List.{AllByRecursion};
ghost use Rattle.change_rules.specs.Standard.{AreLimits};
ghost use Rattle.payload_tables.specs.Kept.{AreTablesOf};
ghost use Rattle.payload_tables.specs.Pending.{MayPushRow};
ghost use Rattle.change_parts.specs.Asked.{MayStore};

use change_parts::{Change, PlanFault};
use change_rules::{Limit, Limits};
use flush_plan::plan_change;
use id_groups::{Id, Name};
use payload_tables::{PendingRows, Tables};
use rebase_pending::rebase;
use std::alloc::{AllocError, Global};
use std::test::Fail;

/// A commit: the last byte of its name, and its parents by their places in the list.
type Commit = (u8, &'static [u32]);

/// Two commits in a chain.
const CHAIN: &[Commit] = &[(0xa1, &[]), (0xb1, &[0])];

/// A commit with two children.
const FORK: &[Commit] = &[(0xa1, &[]), (0xb1, &[0]), (0xc1, &[0])];

/// A commit with two children that are merged.
const MERGE: &[Commit] = &[(0xa1, &[]), (0xb1, &[0]), (0xc1, &[0]), (0xd1, &[1, 2])];

/// The payload that stores the chain outside master.
const STORED_CHAIN: [u8; 100] = [
    2, 1, 0, 0, 0, 0, 0, 0, 0, 0, 0, 0, 0, 0, 0, 0, 0, 0, 0, 0, 0, 0, 0, 0, 0, 0, 0, 0, 0, 0, 0, 0,
    0, 0, 0, 0, 0, 0, 0, 0, 0, 0, 0, 2, 0, 0, 0, 1, 1, 0, 1, 0, 0, 0, 0, 0, 0, 1, 1, 0, 0, 0, 0, 0,
    0, 0, 0, 0, 0, 0, 0, 0, 0, 0, 0, 0, 0, 0, 0, 0xa1, 0, 0, 0, 0, 0, 0, 0, 0, 0, 0, 0, 0, 0, 0, 0,
    0, 0, 0, 0, 0xb1,
];

/// The payload that stores the fork, its second child in master.
const STORED_FORK: [u8; 149] = [
    2, 1, 0, 0, 0, 0, 0, 0, 0, 0, 0, 0, 0, 0, 0, 0, 0, 2, 0, 0, 0, 0, 0, 0, 0, 0, 0, 0, 0, 1, 1, 0,
    0, 0, 0, 0, 0, 0, 0, 1, 1, 0, 0, 0, 0, 0, 0, 0, 0, 2, 0, 0, 0, 0, 0, 0, 0, 0, 0, 0, 0, 0, 0, 0,
    0, 0, 0, 0, 0, 0, 0, 0, 0, 0, 0, 0, 0, 0xa1, 0, 0, 0, 0, 0, 0, 0, 1, 0, 0, 0, 0, 0, 0, 0, 0, 0,
    0, 0, 0, 0, 0, 0, 0, 0, 0, 0, 0xc1, 0, 0, 0, 0, 0, 1, 0, 0, 0, 1, 0, 0, 1, 0, 0, 0, 0, 0, 0, 0,
    0, 1, 0, 0, 0, 0, 0, 0, 0, 0, 0, 0, 0, 0, 0, 0, 0, 0, 0, 0, 0, 0, 0xb1,
];

/// A log without payloads: its one gate, which is closed.
const FRESH: [u8; 1] = [0];

/// The name of 19 zero bytes and this one.
fn short(byte: u8) -> Name {
    let mut bytes = [0; 20];
    bytes[19] = byte;
    Name::from_bytes(bytes)
}

/// The ids of at most two parents, which differ and lie among so many rows; none where another row would be too many.
fn parent_ids(alloc: Global, count: u32, parents: &[u32]) -> Result<Option<Vec<Id>>, AllocError>
    ensures row { IfOk result (λ found. IfSome found (λ ids. MayPushRow 0 count ids.items)) }
    ensures others { IfOk result (λ found. IfSome found (λ ids. AllByRecursion (λ p. 2 ^ 56 ≤ p) ids.items)) }
{
    if count > 65_535 {
        return Ok(None);
    }
    let mut ids = Vec::new(alloc);
    match parents {
        [] => {}
        [only] if *only < count => ids.push(Id::other(u64::from(*only)))?,
        [first, second] if first != second && *first < count && *second < count => {
            ids.push(Id::other(u64::from(*first)))?;
            ids.push(Id::other(u64::from(*second)))?;
        }
        _ => return Ok(None),
    }
    Ok(Some(ids))
}

/// Puts a commit behind these rows, unless it breaks a rule.
fn push(
    alloc: Global,
    pending: &mut PendingRows,
    byte: u8,
    parents: &[u32],
) -> Result<(), AllocError>
    requires { MayStore pending.old [] }
    ensures { OnOk result (MayStore pending.new []) }
{
    let name = short(byte);
    if pending.find(name.lend()).is_some() {
        return Ok(());
    }
    let Some(ids) = parent_ids(alloc, pending.len(), parents)? else {
        return Ok(());
    };
    pending.push(&name, &ids)?;
    Ok(())
}

/// These commits as the pending rows of a fresh log.
fn pending_of(alloc: Global, commits: &[Commit]) -> Result<PendingRows, AllocError>
    ensures { IfOk result (λ pending. MayStore pending []) }
{
    let mut pending = PendingRows::empty(alloc, 0);
    'commits: for (byte, parents) in commits {
        push(alloc, &mut pending, *byte, parents)?;
    }
    Ok(pending)
}

/// The names with these last bytes.
fn names_of(alloc: Global, bytes: &[u8]) -> Result<Vec<Name>, AllocError> {
    let mut names = Vec::with_capacity(alloc, bytes.len())?;
    for byte in bytes {
        names.push(short(*byte))?;
    }
    Ok(names)
}

/// For each of so many names that it isn't stored.
fn none_found(alloc: Global, count: usize) -> Result<Vec<Option<Id>>, AllocError>
    ensures { IfOk result (λ found. found.items ≡ replicate count None) }
{
    let found = vec![in alloc; None; count]?;
    Ok(found)
}

/// The change that a flush of these rows makes, with these heads, onto a fresh log.
fn planned(
    alloc: Global,
    pending: &PendingRows,
    heads: &[Name],
    limits: Limits,
) -> Result<Change, PlanFault>
    requires limits { AreLimits limits }
    requires rows { MayStore pending.now [] }
{
    let mut tables = Tables::empty(alloc);
    let found = none_found(alloc, heads.len())?;
    plan_change(alloc, &mut tables, &FRESH, pending, heads, &found, limits)
}

/// The change that a flush of these commits makes, with the heads of these last bytes.
fn change_of(
    alloc: Global,
    commits: &[Commit],
    heads: &[u8],
    limits: Limits,
) -> Result<Change, PlanFault>
    requires { AreLimits limits }
{
    let pending = pending_of(alloc, commits)?;
    let names = names_of(alloc, heads)?;
    planned(alloc, &pending, &names, limits)
}

/// How many bytes the plan of these rows alone writes.
fn count_written(alloc: Global, pending: &PendingRows) -> Result<usize, PlanFault>
    requires { MayStore pending.now [] }
{
    let mut tables = Tables::empty(alloc);
    let change = plan_change(
        alloc,
        &mut tables,
        &FRESH,
        pending,
        &[],
        &[],
        Limits::standard(),
    )?;
    Ok(change.payload.bytes().len())
}

/// Whether a rebase onto these tables, of a fresh log, leaves all these rows.
fn are_left_on(alloc: Global, tables: &Tables, pending: &PendingRows) -> Result<bool, PlanFault>
    requires tables { AreTablesOf tables.now [] }
    requires rows { MayStore pending.now [] }
{
    let found = none_found(alloc, pending.len() as usize)?;
    let base = tables.newest(&FRESH);
    let left = rebase(alloc, tables, &FRESH, base, pending, &found)?;
    Ok(left.names() == pending.names())
}

/// Whether a rebase onto the fresh log leaves all these rows.
fn are_left(alloc: Global, pending: &PendingRows) -> Result<bool, PlanFault>
    requires { MayStore pending.now [] }
{
    let tables = Tables::empty(alloc);
    are_left_on(alloc, &tables, pending)
}

/// Whether a rebase leaves all these commits, and how many bytes their plan alone writes.
fn left_and_written(alloc: Global, commits: &[Commit]) -> Result<(bool, usize), PlanFault> {
    let pending = pending_of(alloc, commits)?;
    let are_left = are_left(alloc, &pending)?;
    Ok((are_left, count_written(alloc, &pending)?))
}

/// Commits, and how many bytes their plan writes.
const WRITTEN: [(&[Commit], usize); 3] = [(CHAIN, 100), (FORK, 141), (MERGE, 191)];

#[test]
fn rows_are_left_and_written(rt: HostRuntime) -> Result<(), Fail> {
    for (commits, written) in &WRITTEN {
        assert_eq!(rt; left_and_written(rt.alloc(), commits), Ok((true, *written)));
    }
    Ok(())
}

/// Whether the change writes this, and leaves so many rows in both groups.
fn leaves(change: &Change, payload: &[u8], master: u64, others: u64) -> bool {
    change.payload.bytes() == payload
        && change.master == master
        && change.others == others
        && change.same == payload.is_empty()
}

/// Commits, heads by their last bytes, what a flush of them writes, and the rows that it leaves in both groups.
type Planned = (&'static [Commit], &'static [u8], &'static [u8], u64, u64);

/// Flushes that are planned.
const PLANNED: [Planned; 4] = [
    (CHAIN, &[], &STORED_CHAIN, 0, 2),
    (FORK, &[0xc1], &STORED_FORK, 2, 1),
    (FORK, &[0xc1, 0xa1, 0xc1], &STORED_FORK, 2, 1),
    (&[], &[], &[], 0, 0),
];

/// Whether the flush is planned so.
fn is_planned(alloc: Global, case: &Planned) -> Result<bool, PlanFault> {
    let (commits, heads, payload, master, others) = *case;
    let change = change_of(alloc, commits, heads, Limits::standard())?;
    Ok(leaves(&change, payload, master, others))
}

#[test]
fn flushes_are_planned(rt: HostRuntime) -> Result<(), Fail> {
    for case in &PLANNED {
        assert_eq!(rt; is_planned(rt.alloc(), case), Ok(true));
    }
    Ok(())
}

/// The standard limits with these for the others, the master rows and the log's bytes.
fn limits_of(others: u64, master: u64, log: u64) -> Limits
    ensures { AreLimits result }
{
    Limits {
        pending: 1 << 16,
        others: others.clamp(1, 65_536) as u32,
        master: master.clamp(1, 16_777_216) as u32,
        log: log.clamp(98, 1 << 30),
        answer: 1 << 20,
        input: 1 << 30,
    }
}

/// The fault of the plan of a flush, where it is refused.
fn fault_of(alloc: Global, commits: &[Commit], heads: &[u8], limits: Limits) -> Option<PlanFault>
    requires { AreLimits limits }
{
    match change_of(alloc, commits, heads, limits) {
        Ok(_change) => None,
        Err(fault) => Some(fault),
    }
}

/// Commits, heads by their last bytes, the limits of the others, the master rows and the log's bytes, and that which is exceeded.
type Exceeding = (&'static [Commit], [u8; 2], u64, u64, u64, Limit, u64);

/// Flushes that exceed a limit.
const EXCEEDING: [Exceeding; 3] = [
    (CHAIN, [0xb1, 0xb1], 1, 1, 98, Limit::Master, 1),
    (MERGE, [0xb1, 0xa1], 1, 1, 98, Limit::Others, 1),
    (FORK, [0xc1, 0xc1], 1, 2, 146, Limit::Log, 146),
];

#[test]
fn flushes_beyond_a_limit_are_refused(rt: HostRuntime) -> Result<(), Fail> {
    for (commits, heads, others, master, log, limit, most) in &EXCEEDING {
        let limits = limits_of(*others, *master, *log);
        assert_eq!(rt;
            fault_of(rt.alloc(), commits, heads, limits),
            Some(PlanFault::Full(*limit, *most))
        );
    }
    Ok(())
}

#[test]
fn a_head_that_nothing_has_is_refused(rt: HostRuntime) -> Result<(), Fail> {
    let limits = limits_of(65_536, 65_536, 1_000);
    let fault = fault_of(rt.alloc(), CHAIN, &[0xa1, 0xc1], limits);
    assert_eq!(rt; fault, Some(PlanFault::Unknown(short(0xc1))));
    Ok(())
}
