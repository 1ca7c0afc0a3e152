//! The replies that the store's answers are, and how they are put.

ghost use Rattle.std.specs.Prelude.{◌≡◌, ◌<◌, ◌≤◌, ℕ, List, [], None, Ok, IfErr, IfOk, map};
ghost use Rattle.outside.specs.Counts.{HasCause, Rose};
ghost use Rattle.outside.specs.Told.{WhereTold};
ghost use Rattle.id_groups.specs.Name.{Name};
ghost use Rattle.span_set.specs.Members.{ids_of};
ghost use Rattle.set_expr.specs.Whole.{tree_of};
ghost use Rattle.step_rules.specs.State.{Stored};
ghost use Rattle.step_rules.specs.Verb.{Query};
ghost use Rattle.step_rules.specs.Reply.{Listed, Refused};
ghost use Rattle.dag_store.specs.Stands.{Stands};
ghost use Rattle.dag_store.specs.Steps.{AreIdsOf, KeepsAll, add_reply, id_reply, reload_reply};
ghost use Rattle.store_queries.specs.Names.{known_name};
ghost use Rattle.command_lines.specs.Told.{told};
ghost use Rattle.dag_run.specs.Lines.{CommandReplies, PutsLine, PutsReply, PutsFault};
ghost use Rattle.dag_run.specs.Replies.{reply_of_change, reply_of_count, reply_of_fault};

use crate::stops::Stop;
use command_lines::{CommandFault, Reply, put_disk_fault, put_names, put_reply};
use dag_store::{Added, Answer, Ask, Counts, Expr, Found, Refusal, Store};
use id_groups::Id;
use line_io::Sink;
use mirror_set::Mirrors;
use remote_trait::Remote;

/// What an add that was done is told.
fn reply_of_added(added: Added) -> Reply
    ensures { told result ≡ add_reply (Ok added) }
{
    match added {
        Added::New(id) => Reply::Added(id),
        Added::Old(id) => Reply::Old(id),
    }
}

/// What an add is told.
pub(crate) fn reply_of_add(answer: Result<Added, Refusal>) -> Reply
    ensures { told result ≡ add_reply answer }
{
    match answer {
        Ok(added) => reply_of_added(added),
        Err(refusal) => Reply::Refused(refusal),
    }
}

/// What a reload is told.
pub(crate) fn reply_of_reload(answer: Result<u32, Refusal>) -> Reply
    ensures { told result ≡ reload_reply answer }
{
    match answer {
        Ok(left) => Reply::Reloaded(left),
        Err(refusal) => Reply::Refused(refusal),
    }
}

/// What a command for an id is told.
pub(crate) fn reply_of_id(answer: Result<Id, Refusal>) -> Reply
    ensures { told result ≡ id_reply answer }
{
    match answer {
        Ok(id) => Reply::Identified(id),
        Err(refusal) => Reply::Refused(refusal),
    }
}

/// What a count is told.
pub(crate) fn reply_of_count(answer: Result<Answer, Refusal>) -> Reply
    ensures { told result ≡ reply_of_count answer }
{
    match answer {
        Ok(answer) => Reply::Counted(answer.count()),
        Err(refusal) => Reply::Refused(refusal),
    }
}

/// What is told of a change that is done.
fn reply_of_change(ask: Ask<'_>, counts: Counts) -> Reply
    ensures { told result ≡ reply_of_change ask.entry counts }
{
    match ask {
        Ask::Flush(_) => Reply::Flushed(counts),
        Ask::Strip(_) => Reply::Stripped(counts),
        Ask::Clone => Reply::Cloned(counts.master),
        Ask::Pull => Reply::Pulled(counts),
    }
}

/// What a line is told that can't be read.
fn reply_of_fault(fault: CommandFault) -> Reply
    ensures { told result ≡ reply_of_fault fault }
{
    match fault {
        CommandFault::Syntax => Reply::NoCommand,
        CommandFault::Memory => Reply::Refused(Refusal::Memory),
    }
}

/// Puts the reply of a line, and hands the store back.
pub(crate) fn tell<O: Sink>(store: Store, reply: &Reply, output: &mut O) -> Result<Store, Stop>
    ensures { PutsLine store (told reply.now) (O.taken output.old) (O.taken output.new) (O.faults output.old) (O.faults output.new) result }
{
    put_reply(reply, output)?;
    Ok(store)
}

/// Puts the reply of a command that is refused, and hands the store back.
pub(crate) fn tell_refused<O: Sink>(
    store: Store,
    refusal: Refusal,
    output: &mut O,
) -> Result<Store, Stop>
    ensures { PutsLine store (Refused refusal) (O.taken output.old) (O.taken output.new) (O.faults output.old) (O.faults output.new) result }
{
    tell(store, &Reply::Refused(refusal), output)
}

/// Puts the reply of a change that is done, and hands the store back.
pub(crate) fn tell_done<O: Sink>(
    store: Store,
    ask: Ask<'_>,
    counts: Counts,
    output: &mut O,
) -> Result<Store, Stop>
    ensures { PutsLine store (reply_of_change ask.entry counts) (O.taken output.old) (O.taken output.new) (O.faults output.old) (O.faults output.new) result }
{
    tell(store, &reply_of_change(ask, counts), output)
}

/// Puts the reply of a line that can't be read, and hands the store back.
pub(crate) fn tell_unread<O: Sink>(
    store: Store,
    fault: CommandFault,
    output: &mut O,
) -> Result<Store, Stop>
    ensures { PutsLine store (reply_of_fault fault) (O.taken output.old) (O.taken output.new) (O.faults output.old) (O.faults output.new) result }
{
    tell(store, &reply_of_fault(fault), output)
}

/// Puts the names of an answer, and hands the store back.
fn list_names<O: Sink>(store: Store, s: u8, found: &Found, output: &mut O) -> Result<Store, Stop>
    requires { s < 16 }
    ensures bytes { WhereTold (O.taken output.old) (O.taken output.new) (λ before now. (began : ℕ) (st : Stored) (names : List Name) → Stands began store st
        → AreIdsOf st s (ids_of found.now.answer.set) (map known_name found.now.fetched) names → PutsReply store (Listed names) result before now) }
    ensures same { IfOk result (λ next. next ≡ store) }
    ensures stop { IfErr result (λ stop. stop ≡ Stop.Sink) }
    ensures cause { HasCause (O.faults output.old) (O.faults output.new) result }
{
    let names = store.names(s, found);
    let count = found.answer().count();
    put_names(output, names, count)?;
    Ok(store)
}

/// Puts the answer of an expression, and hands the store back.
pub(crate) fn list<O: Sink, R: Remote>(
    store: Store,
    mirrors: &mut Mirrors<R>,
    s: u8,
    expr: &Expr,
    output: &mut O,
) -> Result<Store, Stop>
    requires { s < 16 }
    ensures told { let first = map R.shown mirrors.old.list.items in let left = map R.shown mirrors.new.list.items in
        WhereTold (O.taken output.old) (O.taken output.new) (CommandReplies first left (Rose (O.faults output.old) (O.faults output.new)) store s (Query (tree_of expr.now)) [] None result) }
    ensures kept { IfOk result (KeepsAll store) }
    ensures stop { IfErr result (λ stop. stop ≡ Stop.Sink) }
    ensures cause { HasCause (O.faults output.old) (O.faults output.new) result }
{
    let mut store = store;
    match store.query(s, mirrors, expr) {
        Ok(found) => list_names(store, s, &found, output),
        Err(refusal) => tell_refused(store, refusal, output),
    }
}

/// Puts the last line of a run that the disk ended.
pub(crate) fn tell_fault<O: Sink>(output: &mut O)
    ensures bytes { WhereTold (O.taken output.old) (O.taken output.new) (PutsFault (Rose (O.faults output.old) (O.faults output.new))) }
    ensures later { O.faults output.old ≤ O.faults output.new }
{
    let _put = put_disk_fault(output);
}
