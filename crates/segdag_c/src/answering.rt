//! Answering a command line over an open log.

ghost use Rattle.std.specs.Prelude.{◌≡◌, ◌++◌, [], Some, None, Err, MatchBool, IfOk, IfErr, IfSome, OnOk, OnErr};
ghost use Rattle.outside.specs.Counts.{Rose};
ghost use Rattle.call_disk.specs.Awaited.{awaited};
ghost use Rattle.call_disk.specs.Performed.{HonestDisk};
ghost use Rattle.change_rules.specs.Standard.{standard};
ghost use Rattle.gated_log.specs.Holding.{IsOnDisk};
ghost use Rattle.dag_run.specs.Stops.{IsLineStop};
ghost use Rattle.line_io.specs.Next.{IsLine};
ghost use Rattle.segdag_c.specs.Answers.{LineCame, LineNotes, stop_failure};
ghost use Rattle.segdag_c.specs.Line.{LineDoesOn};
ghost use Rattle.segdag_c.specs.Mirrors.{shown_all};

use crate::codes::Failure;
use crate::held::Held;
use crate::mirror::Mirror;
use call_disk::{Beneath, NotedCalls, NotedDisk};
use dag_run::{Reach, Stop, execute_line};
use dag_store::Store;
use line_io::{Line, MemorySink};
use mirror_set::Mirrors;
use std::alloc::Global;
use std::marker::Brand;

/// How many bytes a line has at most.
const LONGEST_LINE: usize = 16_384;

/// Whether the line is one that is read, or longer than that.
fn kind_of(line: &[u8]) -> Line
    ensures { IsLine result line.now line.now }
{
    if line.len() > LONGEST_LINE {
        Line::TooLong
    } else {
        Line::Text
    }
}

/// Executes a line over a store beside these mirrors. What is to be performed of it is noted, for a disk that has the store's log.
fn answer_on<B: Beneath>(
    alloc: Global,
    store: Store,
    mirrors: &mut Mirrors<Mirror>,
    line: &[u8],
    reply: &mut MemorySink,
) -> (Result<Store, Stop>, NotedCalls)
    requires limits { store.limits ≡ standard }
    requires on_disk { IfSome B.disk (λ disk. IsOnDisk store.log disk.told) }
    ensures does { LineDoesOn (shown_all mirrors.old.list.items) store line.now (shown_all mirrors.new.list.items) reply.old.faults reply.old.taken reply.new (awaited result.1) B.disk result.0 }
    ensures limits { IfOk result.0 (λ next. next.limits ≡ standard) }
    ensures stop { IfErr result.0 IsLineStop }
    ensures sink { result.0 ≡ Err Stop.Sink → Rose reply.old.faults reply.new.faults }
{
    let mut changes = Vec::new(alloc);
    let mut log = NotedDisk::<B>::new(alloc);
    let kind = kind_of(line);
    let reach = Reach {
        disk: &mut log,
        mirrors,
        changes: &mut changes,
    };
    let answered = execute_line(alloc, store, reach, kind, line, reply);
    (answered, log.into_noted())
}

/// Whether there are none of these calls.
fn are_none(calls: &NotedCalls) -> bool
    ensures { MatchBool result (awaited calls.now ≡ []) (awaited calls.now ≡ [] → ⊥) }
{
    calls.next().is_none()
}

/// Puts calls behind those that are to be performed.
pub(crate) fn note_behind(
    log: &mut NotedCalls,
    calls: NotedCalls,
    store: Store,
) -> Result<Store, Stop>
    requires { store.limits ≡ standard }
    ensures store { IfOk result (λ same. same ≡ store) }
    ensures calls { OnOk result (awaited log.new ≡ awaited log.old ++ awaited calls) }
    ensures none { OnErr result (awaited log.new ≡ awaited log.old) }
    ensures some { OnErr result (awaited calls ≡ [] → ⊥) }
    ensures limits { IfOk result (λ same. same.limits ≡ standard) }
    ensures stop { IfErr result (λ stop. stop ≡ Stop.NotStored) }
{
    if are_none(&calls) {
        return Ok(store);
    }
    match log.append(calls) {
        Ok(()) => Ok(store),
        Err(_) => Err(Stop::NotStored),
    }
}

/// Executes a line over a store beside these mirrors, and notes what is to be performed.
fn answer_over(
    alloc: Global,
    store: Store,
    log: &mut NotedCalls,
    mirrors: &mut Mirrors<Mirror>,
    line: &[u8],
    reply: &mut MemorySink,
) -> Result<Store, Stop>
    ghost disk: { HonestDisk }
    requires limits { store.limits ≡ standard }
    ensures does { LineNotes (shown_all mirrors.old.list.items) store (awaited log.old) line.now (shown_all mirrors.new.list.items) (awaited log.new) reply.old.faults reply.old.taken reply.new disk.told result }
    ensures limits { IfOk result (λ next. next.limits ≡ standard) }
    ensures stop { IfErr result IsLineStop }
    ensures sink { result ≡ Err Stop.Sink → Rose reply.old.faults reply.new.faults }
{
    let (answered, calls) = answer_on::<Brand>(alloc, store, mirrors, line, reply);
    match answered {
        Ok(next) => note_behind(log, calls, next),
        Err(stop) => Err(stop),
    }
}

/// Takes the store out, if it is there.
pub(crate) fn take_store(held: &mut Held) -> Option<Store>
    ensures store { result ≡ held.old.store }
    ensures none { held.new.store ≡ None }
    ensures limits { IfSome result (λ store. store.limits ≡ standard) }
    ensures log { held.new.log ≡ held.old.log }
    ensures mirrors { held.new.mirrors ≡ held.old.mirrors }
    ensures reply { held.new.reply ≡ held.old.reply }
    ensures names { held.new.names ≡ held.old.names }
{
    held.store.take()
}

/// Keeps a store and a reply.
fn keep(held: &mut Held, store: Store, reply: MemorySink)
    requires { store.limits ≡ standard }
    ensures store { held.new.store ≡ Some store }
    ensures log { held.new.log ≡ held.old.log }
    ensures mirrors { held.new.mirrors ≡ held.old.mirrors }
    ensures reply { held.new.reply ≡ reply }
    ensures names { held.new.names ≡ held.old.names }
{
    held.store = Some(store);
    held.reply = reply;
}

/// Keeps a reply.
fn keep_reply(held: &mut Held, reply: MemorySink)
    ensures store { held.new.store ≡ held.old.store }
    ensures log { held.new.log ≡ held.old.log }
    ensures mirrors { held.new.mirrors ≡ held.old.mirrors }
    ensures reply { held.new.reply ≡ reply }
    ensures names { held.new.names ≡ held.old.names }
{
    held.reply = reply;
}

/// Why C is told that a line stopped.
fn failure_of(stop: Stop) -> Failure
    ensures { result ≡ stop_failure stop }
{
    match stop {
        Stop::Memory => Failure::Memory,
        Stop::NoLog => Failure::NoLog,
        Stop::NotLoaded | Stop::NotStored => Failure::Disk,
        Stop::Sink => Failure::Reply,
        Stop::Source | Stop::Limit => Failure::Argument,
    }
}

/// Answers a command line: the reply stands in `reply`, which has none yet. Where the sink or the disk fails the store is gone.
fn answer_into(
    alloc: Global,
    held: &mut Held,
    line: &[u8],
    reply: MemorySink,
) -> Result<(), Failure>
    ghost disk: { HonestDisk }
    requires faults { reply.faults ≡ 0 }
    requires taken { reply.taken ≡ [] }
    ensures { LineCame line.now disk.told held.old held.new result }
{
    let mut reply = reply;
    let Some(store) = take_store(held) else {
        return Err(Failure::Disk);
    };
    match answer_over(
        alloc,
        store,
        &mut held.log,
        &mut held.mirrors,
        line,
        &mut reply,
    ) {
        Ok(next) => {
            keep(held, next, reply);
            Ok(())
        }
        Err(stop) => {
            keep_reply(held, reply);
            Err(failure_of(stop))
        }
    }
}

/// Answers a command line: the reply stands in `reply`. Where the sink or the disk fails the store is gone.
pub(crate) fn answer_line(alloc: Global, held: &mut Held, line: &[u8]) -> Result<(), Failure>
    ghost disk: { HonestDisk }
    ensures { LineCame line.now disk.told held.old held.new result }
{
    match MemorySink::new(alloc, &[]) {
        Ok(reply) => answer_into(alloc, held, line, reply),
        Err(_) => Err(Failure::Memory),
    }
}
