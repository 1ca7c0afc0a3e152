//! The demonstration: command lines that the program makes itself, answered in memory.

ghost use Rattle.std.specs.Prelude.{◌≡◌, ◌≤◌, ℕ, List, [], IfOk, OnOk, Some, length, map};
ghost use Rattle.std.specs.List.{AllByRecursion};
ghost use Rattle.outside.specs.Counts.{Rose};
ghost use Rattle.outside.specs.Told.{WhereTold};
ghost use Rattle.disk_trait.specs.Images.{fresh_disk};
ghost use Rattle.line_io.specs.Lines.{longest_line};
ghost use Rattle.step_rules.specs.Reply.{Reply};
ghost use Rattle.run_rules.specs.Run.{output_of};
ghost use Rattle.demo_input.specs.Lines.{commit_lines};
ghost use Rattle.dag_run.specs.Demo.{AllAnswered, AreLastReplies, DemoMeans, IsAnswered, IsBehind, IsReady, LeadsOn};
ghost use Rattle.dag_run.specs.Stops.{IsDemoStatus};

use crate::Limits;
use crate::execute::execute;
use crate::reach::Reach;
use crate::stops::Stop;
use dag_store::Store;
use demo_input::{CommitLines, last_lines};
use disk_memory::MemoryDisk;
use disk_trait::Disk;
use line_io::{Line, MemorySink, Sink};
use mirror_set::Mirrors;
use remote_trait::Remote;
use std::alloc::Global;

/// The store of a new log.
fn new_store<D: Disk>(alloc: Global, log: &mut D) -> Result<Store, Stop>
    requires { D.told log.old ≡ Some (fresh_disk []) }
    ensures ready { IfOk result (λ store. IsReady store (D.told log.new)) }
    ensures begins { IfOk result (IsBehind [] []) }
{
    match Store::load(alloc, log, Limits::standard(), 1) {
        Ok(store) => Ok(store),
        Err(_) => Err(Stop::Memory),
    }
}

/// Executes a line beside no mirrors, of whatever kind, and keeps its reply.
fn answer<D: Disk, R: Remote>(
    alloc: Global,
    store: Store,
    log: &mut D,
    line: &[u8],
    replies: &mut MemorySink,
) -> Result<Store, Stop>
    requires ready { IsReady store (D.told log.old) }
    requires short { length line.now ≤ longest_line }
    ensures ready { IfOk result (λ next. IsReady next (D.told log.new)) }
    ensures leads { IfOk result (λ next. LeadsOn line.now store next replies.old.taken replies.new.taken) }
{
    let mut mirrors: Mirrors<R> = Mirrors::new(Vec::new(alloc));
    let mut changes = Vec::new(alloc);
    let reach = Reach {
        disk: log,
        mirrors: &mut mirrors,
        changes: &mut changes,
    };
    execute(alloc, store, reach, Line::Text, line, replies)
}

/// Executes all the lines of commits. Nobody hears their replies.
fn answer_commits<D: Disk, R: Remote>(
    alloc: Global,
    store: Store,
    log: &mut D,
    lines: &mut CommitLines,
    unheard: &mut MemorySink,
) -> Result<Store, Stop>
    requires ready { IsReady store (D.told log.old) }
    requires begins { IsBehind [] [] store }
    ensures ready { IfOk result (λ next. IsReady next (D.told log.new)) }
    ensures behind { IfOk result (λ next. (earlier : List Reply) × IsBehind lines.old earlier next) }
{
    let mut store = store;
    'commits: while let Some(line) = lines.next_line(alloc)? {
        store = answer::<D, R>(alloc, store, log, &line, unheard)?;
    }
    Ok(store)
}

/// The store behind the lines that add and flush so many commits, over a new log.
fn add_commits<D: Disk, R: Remote>(
    alloc: Global,
    log: &mut D,
    size: u32,
    start: u64,
) -> Result<Store, Stop>
    requires { D.told log.old ≡ Some (fresh_disk []) }
    ensures ready { IfOk result (λ store. IsReady store (D.told log.new)) }
    ensures behind { IfOk result (λ store. (earlier : List Reply) × IsBehind (commit_lines size start) earlier store) }
{
    let mut unheard = MemorySink::new(alloc, &[])?;
    let mut lines = CommitLines::new(size, start);
    let store = new_store(alloc, log)?;
    answer_commits::<D, R>(alloc, store, log, &mut lines, &mut unheard)
}

/// Executes lines that each get a reply, which goes to this sink.
fn ask_all<D: Disk, R: Remote>(
    alloc: Global,
    store: Store,
    log: &mut D,
    lines: &[Vec<u8>],
    replies: &mut MemorySink,
) -> Result<(), Stop>
    requires ready { IsReady store (D.told log.old) }
    requires answered { AllByRecursion IsAnswered (map (λ line. line.items) lines.now) }
    requires none { replies.old.taken ≡ [] }
    ensures { OnOk result (AllAnswered (map (λ line. line.items) lines.now) store replies.new.taken) }
{
    let mut store = store;
    'lines: for line in lines {
        store = answer::<D, R>(alloc, store, log, line, replies)?;
    }
    Ok(())
}

/// Executes lines that each get a reply, and gives these.
fn ask<D: Disk, R: Remote>(
    alloc: Global,
    store: Store,
    log: &mut D,
    lines: &[Vec<u8>],
) -> Result<MemorySink, Stop>
    requires ready { IsReady store (D.told log.old) }
    requires answered { AllByRecursion IsAnswered (map (λ line. line.items) lines.now) }
    ensures { IfOk result (λ sink. AllAnswered (map (λ line. line.items) lines.now) store sink.taken) }
{
    let mut replies = MemorySink::new(alloc, &[])?;
    ask_all::<D, R>(alloc, store, log, lines, &mut replies)?;
    Ok(replies)
}

/// The replies to the last four lines of a demonstration over a new log.
fn replies_over<D: Disk, R: Remote>(
    alloc: Global,
    log: &mut D,
    size: u32,
    start: u64,
) -> Result<MemorySink, Stop>
    requires size { 1 ≤ size }
    requires new { D.told log.old ≡ Some (fresh_disk []) }
    ensures { IfOk result (λ sink. (replies : List Reply) × AreLastReplies size start replies × (sink.taken ≡ output_of replies)) }
{
    let store = add_commits::<D, R>(alloc, log, size, start)?;
    let lines = last_lines(alloc, size)?;
    ask::<D, R>(alloc, store, log, &lines)
}

/// The replies to the last four lines of a demonstration in memory.
fn last_replies<R: Remote>(alloc: Global, size: u32, start: u64) -> Result<MemorySink, Stop>
    requires { 1 ≤ size }
    ensures { IfOk result (λ sink. (replies : List Reply) × AreLastReplies size start replies × (sink.taken ≡ output_of replies)) }
{
    let mut log = MemoryDisk::new(alloc, &[], &[], None)?;
    replies_over::<MemoryDisk, R>(alloc, &mut log, size, start)
}

/// Answers the lines of so many commits, whose parents are drawn from this number on, in memory, and puts the replies to the last
/// four. The status: 0 where they were put, 6 where the sink failed, and 7 where memory was wanting, with nothing put.
pub(crate) fn demo<O: Sink, R: Remote>(alloc: Global, size: u32, start: u64, output: &mut O) -> u8
    requires { 1 ≤ size }
    ensures known { IsDemoStatus result }
    ensures means { WhereTold (O.taken output.old) (O.taken output.new) (DemoMeans size start result) }
    ensures quiet { result ≡ 7 → output.new ≡ output.old }
    ensures sink { result ≡ 6 → Rose (O.faults output.old) (O.faults output.new) }
{
    let Ok(replies) = last_replies::<R>(alloc, size, start) else {
        return 7;
    };
    match output.put(replies.bytes()) {
        Ok(()) => 0,
        Err(_) => 6,
    }
}
