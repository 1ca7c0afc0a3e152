//! What one line does.

ghost use Rattle.std.specs.Prelude.{◌≡◌, ◌<◌, [], None, Option, Err, length, IfErr, IfOk, IfSome, false, map, vec_capacity};
ghost use Rattle.outside.specs.Counts.{HasCause, Rose};
ghost use Rattle.outside.specs.Told.{WhereTold};
ghost use Rattle.gated_log.specs.Holding.{IsOnDisk};
ghost use Rattle.line_io.specs.Lines.{is_empty_or_comment};
ghost use Rattle.store_plans.specs.Changes.{HasRoom};
ghost use Rattle.dag_store.specs.Asks.{MayBeAsked, verb_of};
ghost use Rattle.command_lines.specs.Meant.{meant, HasRightCount};
ghost use Rattle.command_lines.specs.Told.{told};
ghost use Rattle.dag_run.specs.Lines.{changes_with, CommandReplies, DoesBeside, DropsAt, IsBrief, MayStore, DoesLine, line_sides, TellsCommand, TellsRead};
ghost use Rattle.dag_run.specs.Replies.{TellsParsed, TellsShort};

use crate::reach::Reach;
use crate::replies::{
    list, reply_of_add, reply_of_count, reply_of_id, reply_of_reload, tell, tell_done, tell_fault,
    tell_refused, tell_unread,
};
use crate::stops::Stop;
use command_lines::{Command, CommandFault, Reply, Verb};
use dag_store::{Ask, Changed, Refusal, Store};
use disk_trait::Disk;
use line_io::{Line, Sink};
use mirror_set::Mirrors;
use remote_trait::Remote;
use std::alloc::Global;

/// Whether a line that isn't too long gets no reply.
fn is_comment(line: &[u8]) -> bool
    ensures { result ≡ is_empty_or_comment line.now }
{
    match line.first() {
        None => true,
        Some(first) => *first == b'#',
    }
}

/// Notes the moment of a change, for which there is room.
fn note(changes: &mut Vec<u64>, clock: Option<u64>)
    requires { length changes.old.items < vec_capacity changes.old }
    ensures { changes.new.items ≡ changes_with changes.old.items clock }
{
    if let Some(clock) = clock {
        match changes.push(clock) {
            Ok(()) => {}
            Err(_) => unreachable!(),
        }
    }
}

/// What a command asks of the store that may change what is stored.
fn ask_of(verb: &Verb) -> Ask<'_>
    requires { MayStore (meant verb.now) }
    ensures { verb_of result ≡ meant verb.now }
{
    match verb {
        Verb::Flush(heads) => Ask::Flush(heads.names()),
        Verb::Strip(names) => Ask::Strip(names.names()),
        Verb::Clone => Ask::Clone,
        Verb::Pull => Ask::Pull,
        _ => unreachable!(),
    }
}

/// Drops the mirror at this place, and gives the reply.
fn drop_mirror<R: Remote>(mirrors: &mut Mirrors<R>, place: u64) -> Reply
    ensures { DropsAt place (map R.shown mirrors.old.list.items) (map R.shown mirrors.new.list.items) (told result) }
{
    if place >= u64::from(mirrors.len()) {
        return Reply::Refused(Refusal::NoRemote);
    }
    mirrors.drop_at(place as u32);
    Reply::Dropped(u64::from(mirrors.len()))
}

/// Does what a command asks for that neither stores nor lists, and gives the reply.
fn reply_of<R: Remote>(store: &mut Store, mirrors: &mut Mirrors<R>, s: u8, verb: &Verb) -> Reply
    requires session { s < 16 }
    requires counted { HasRightCount (meant verb.now) }
    requires brief { IsBrief (meant verb.now) }
    ensures does { DoesBeside (map R.shown mirrors.old.list.items) (map R.shown mirrors.new.list.items) store.old store.new s (meant verb.now) (told result) }
    ensures room { HasRoom store.old.log store.new.log }
    ensures limits { store.new.limits ≡ store.old.limits }
{
    match verb {
        Verb::Add(name, parents) => reply_of_add(store.add(s, mirrors, name, parents.names())),
        Verb::Reload => reply_of_reload(store.reload(s, mirrors)),
        Verb::Discard => Reply::Discarded(store.discard(s)),
        Verb::Count(expr) => reply_of_count(store.count(s, mirrors, expr)),
        Verb::Id(name) => reply_of_id(store.id(s, mirrors, name)),
        Verb::Status => Reply::Sizes(store.status(s)),
        Verb::Levels => Reply::LevelSizes(store.levels()),
        Verb::Mirrors => Reply::Counted(u64::from(mirrors.len())),
        Verb::DropAt(place) => drop_mirror(mirrors, *place),
        Verb::Flush(_) | Verb::Strip(_) | Verb::Clone | Verb::Pull | Verb::Query(_) => {
            unreachable!()
        }
    }
}

/// Does what a command asks for that neither stores nor lists, and puts the reply.
fn tell_brief<O: Sink, R: Remote>(
    store: Store,
    mirrors: &mut Mirrors<R>,
    s: u8,
    verb: &Verb,
    output: &mut O,
) -> Result<Store, Stop>
    requires session { s < 16 }
    requires counted { HasRightCount (meant verb.now) }
    requires brief { IsBrief (meant verb.now) }
    ensures told { let first = map R.shown mirrors.old.list.items in let left = map R.shown mirrors.new.list.items in
        WhereTold (O.taken output.old) (O.taken output.new) (CommandReplies first left (Rose (O.faults output.old) (O.faults output.new)) store s (meant verb.now) [] None result) }
    ensures room { IfOk result (λ next. HasRoom store.log next.log) }
    ensures limits { IfOk result (λ next. next.limits ≡ store.limits) }
    ensures stop { IfErr result (λ stop. stop ≡ Stop.Sink) }
    ensures cause { HasCause (O.faults output.old) (O.faults output.new) result }
{
    let mut store = store;
    let reply = reply_of(&mut store, mirrors, s, verb);
    tell(store, &reply, output)
}

/// Does what is asked for that may store, notes its moment, for which there is room, and puts the reply.
fn change_and_tell<D: Disk, O: Sink, R: Remote>(
    store: Store,
    reach: Reach<'_, '_, '_, D, R>,
    s: u8,
    ask: Ask<'_>,
    output: &mut O,
) -> Result<Store, Stop>
    requires session { s < 16 }
    requires asked { MayBeAsked (verb_of ask) }
    requires room { length reach.changes.now.items < vec_capacity reach.changes.now }
    requires begins { IfSome (D.told reach.disk.now) (IsOnDisk store.log) }
    ensures { DoesLine store (line_sides D.told D.faults R.shown O.taken O.faults reach.entry.disk.now reach.exit.0.now reach.entry.mirrors.now.list.items reach.exit.1.0.now.list.items
        output.old output.new reach.entry.changes.now.items reach.exit.1.1.0.now.items) (TellsCommand store s (verb_of ask.entry)) result }
{
    let Reach {
        disk,
        mirrors,
        changes,
    } = reach;
    let _limit = store.log_limit();
    let (store, counts, clock) = match store.change(disk, s, mirrors, ask) {
        Changed::Done(store, counts, clock) => (store, counts, clock),
        Changed::Refused(store, refusal) => return tell_refused(store, refusal, output),
        Changed::Disk(_) => {
            tell_fault(output);
            return Err(Stop::NotStored);
        }
    };
    note(changes, clock);
    tell_done(store, ask, counts, output)
}

/// Does what is asked for that may store, notes its moment, and puts the reply. The memory for the moment is taken before.
fn tell_change<D: Disk, O: Sink, R: Remote>(
    store: Store,
    reach: Reach<'_, '_, '_, D, R>,
    s: u8,
    ask: Ask<'_>,
    output: &mut O,
) -> Result<Store, Stop>
    requires session { s < 16 }
    requires asked { MayBeAsked (verb_of ask) }
    requires begins { IfSome (D.told reach.disk.now) (IsOnDisk store.log) }
    ensures { DoesLine store (line_sides D.told D.faults R.shown O.taken O.faults reach.entry.disk.now reach.exit.0.now reach.entry.mirrors.now.list.items reach.exit.1.0.now.list.items
        output.old output.new reach.entry.changes.now.items reach.exit.1.1.0.now.items) (TellsCommand store s (verb_of ask.entry)) result }
{
    if reach.changes.try_reserve(1).is_err() {
        return tell_refused(store, Refusal::Memory, output);
    }
    change_and_tell(store, reach, s, ask, output)
}

/// Executes a command and puts its reply.
fn execute_command<D: Disk, O: Sink, R: Remote>(
    store: Store,
    reach: Reach<'_, '_, '_, D, R>,
    command: &Command,
    output: &mut O,
) -> Result<Store, Stop>
    requires session { command.now.session < 16 }
    requires counted { HasRightCount (meant command.now.verb) }
    requires begins { IfSome (D.told reach.disk.now) (IsOnDisk store.log) }
    ensures { DoesLine store (line_sides D.told D.faults R.shown O.taken O.faults reach.entry.disk.now reach.exit.0.now reach.entry.mirrors.now.list.items reach.exit.1.0.now.list.items
        output.old output.new reach.entry.changes.now.items reach.exit.1.1.0.now.items) (TellsCommand store command.now.session (meant command.now.verb)) result }
{
    let s = command.session;
    match &command.verb {
        Verb::Query(expr) => list(store, reach.mirrors, s, expr, output),
        Verb::Flush(_) | Verb::Strip(_) | Verb::Clone | Verb::Pull => {
            let ask = ask_of(&command.verb);
            tell_change(store, reach, s, ask, output)
        }
        verb => tell_brief(store, reach.mirrors, s, verb, output),
    }
}

/// Executes what was read of a line that gets a reply.
fn execute_parsed<D: Disk, O: Sink, R: Remote>(
    store: Store,
    reach: Reach<'_, '_, '_, D, R>,
    parsed: &Result<Command, CommandFault>,
    output: &mut O,
) -> Result<Store, Stop>
    requires session { IfOk parsed.now (λ command. command.session < 16) }
    requires counted { IfOk parsed.now (λ command. HasRightCount (meant command.verb)) }
    requires begins { IfSome (D.told reach.disk.now) (IsOnDisk store.log) }
    ensures { DoesLine store (line_sides D.told D.faults R.shown O.taken O.faults reach.entry.disk.now reach.exit.0.now reach.entry.mirrors.now.list.items reach.exit.1.0.now.list.items
        output.old output.new reach.entry.changes.now.items reach.exit.1.1.0.now.items) (TellsParsed store parsed.now) result }
{
    match parsed {
        Ok(command) => execute_command(store, reach, command, output),
        Err(fault) => tell_unread(store, *fault, output),
    }
}

/// Drops what was read of a line.
fn let_go(_parsed: Result<Command, CommandFault>) {}

/// Executes a line that isn't too long and gets a reply.
fn execute_text<D: Disk, O: Sink, R: Remote>(
    alloc: Global,
    store: Store,
    reach: Reach<'_, '_, '_, D, R>,
    text: &[u8],
    output: &mut O,
) -> Result<Store, Stop>
    requires begins { IfSome (D.told reach.disk.now) (IsOnDisk store.log) }
    requires heard { is_empty_or_comment text.now ≡ false }
    ensures { DoesLine store (line_sides D.told D.faults R.shown O.taken O.faults reach.entry.disk.now reach.exit.0.now reach.entry.mirrors.now.list.items reach.exit.1.0.now.list.items
        output.old output.new reach.entry.changes.now.items reach.exit.1.1.0.now.items) (TellsShort store text.now) result }
{
    let parsed = Command::parse(alloc, text);
    let next = execute_parsed(store, reach, &parsed, output);
    let_go(parsed);
    next
}

/// Executes a line, puts its reply, if it gets one, and hands the store back. Where the disk failed the line that tells of it is put.
pub fn execute<D: Disk, O: Sink, R: Remote>(
    alloc: Global,
    store: Store,
    reach: Reach<'_, '_, '_, D, R>,
    kind: Line,
    text: &[u8],
    output: &mut O,
) -> Result<Store, Stop>
    requires { IfSome (D.told reach.disk.now) (IsOnDisk store.log) }
    ensures { DoesLine store (line_sides D.told D.faults R.shown O.taken O.faults reach.entry.disk.now reach.exit.0.now reach.entry.mirrors.now.list.items reach.exit.1.0.now.list.items
        output.old output.new reach.entry.changes.now.items reach.exit.1.1.0.now.items) (TellsRead store kind text.now) result }
{
    match kind {
        Line::TooLong => tell(store, &Reply::LongLine, output),
        Line::Text if is_comment(text) => Ok(store),
        Line::Text => execute_text(alloc, store, reach, text, output),
    }
}
