//! Lines and texts that are spelled out.

use command_lines::{Command, CommandFault, Reply, Verb, put_disk_fault, put_reply};
use dag_store::{Counts, Limit, Refusal};
use id_groups::{Id, Name};
use line_io::MemorySink;
use std::alloc::{AllocError, Global};

/// The verb's word, and how many names stand in its arguments, or the number that does.
fn shown(verb: &Verb) -> (&'static str, u64) {
    match verb {
        Verb::Add(_, parents) => ("add", parents.names().len() as u64),
        Verb::Flush(heads) => ("flush", heads.names().len() as u64),
        Verb::Reload => ("reload", 0),
        Verb::Discard => ("discard", 0),
        Verb::Query(expr) => ("query", u64::from(expr.name_count())),
        Verb::Count(expr) => ("count", u64::from(expr.name_count())),
        Verb::Id(_) => ("id", 1),
        Verb::Status => ("status", 0),
        Verb::Levels => ("levels", 0),
        Verb::Clone => ("clone", 0),
        Verb::Pull => ("pull", 0),
        Verb::Strip(names) => ("strip", names.names().len() as u64),
        Verb::Mirrors => ("mirrors", 0),
        Verb::DropAt(place) => ("drop", *place),
    }
}

/// Whether the line is read so.
fn reads_as(alloc: Global, line: &[u8], session: u8, word: &str, count: u64) -> bool {
    match Command::parse(alloc, line) {
        Ok(command) => {
            let (verb, number) = shown(&command.verb);
            command.session == session && verb == word && number == count
        }
        Err(_) => false,
    }
}

/// Whether the line is read as no command.
fn is_none(alloc: Global, line: &[u8]) -> bool {
    match Command::parse(alloc, line) {
        Ok(_) => false,
        Err(fault) => fault == CommandFault::Syntax,
    }
}

/// A line that adds a commit with so many parents.
fn add_line(alloc: Global, parents: u32) -> Result<Vec<u8>, AllocError> {
    let mut line = Vec::from_slice(alloc, b"4 add")?;
    for _name in 0..=parents {
        line.extend_from_slice(b" 00000000000000000000000000000000000000a1")?;
    }
    Ok(line)
}

/// A line, its session, its verb's word, and how many names stand in its arguments, or the number that does.
type Read = (&'static str, u8, &'static str, u64);

const READ: [Read; 24] = [
    ("7 clone", 7, "clone", 0),
    ("8 pull", 8, "pull", 0),
    ("0 status", 0, "status", 0),
    ("15 status", 15, "status", 0),
    ("10 levels", 10, "levels", 0),
    ("9 reload", 9, "reload", 0),
    ("3 discard", 3, "discard", 0),
    ("1 mirrors", 1, "mirrors", 0),
    ("1 drop 0", 1, "drop", 0),
    (
        "1 drop 18446744073709551615",
        1,
        "drop",
        18_446_744_073_709_551_615,
    ),
    ("0 flush", 0, "flush", 0),
    (
        "7 flush 00000000000000000000000000000000000000a1",
        7,
        "flush",
        1,
    ),
    (
        "7 flush 00000000000000000000000000000000000000a1 00000000000000000000000000000000000000b1",
        7,
        "flush",
        2,
    ),
    (
        "15 strip 00000000000000000000000000000000000000a1",
        15,
        "strip",
        1,
    ),
    (
        "0 strip 00000000000000000000000000000000000000a1 00000000000000000000000000000000000000A1 00000000000000000000000000000000000000b1",
        0,
        "strip",
        3,
    ),
    (
        "0 add 00000000000000000000000000000000000000A1",
        0,
        "add",
        0,
    ),
    (
        "0 add 00000000000000000000000000000000000000a1 00000000000000000000000000000000000000a1",
        0,
        "add",
        1,
    ),
    ("2 id 00000000000000000000000000000000000000a1", 2, "id", 1),
    ("2 id FFFFFFFFFFFFFFFFFFFFffffffffffffffffffff", 2, "id", 1),
    ("2 query all", 2, "query", 0),
    (
        "2 query top(ancestors(00000000000000000000000000000000000000a1),3)",
        2,
        "query",
        1,
    ),
    ("2 count only(master,others)", 2, "count", 0),
    (
        "14 count range(00000000000000000000000000000000000000a1,all)",
        14,
        "count",
        1,
    ),
    (
        "13 query up(00000000000000000000000000000000000000a1,0)",
        13,
        "query",
        1,
    ),
];

#[test]
fn lines_are_read(rt: HostRuntime) {
    for (line, session, word, count) in &READ {
        let is_read = reads_as(rt.alloc(), line.as_bytes(), *session, word, *count);
        assert!(rt; is_read, "at {line:?}");
    }
}

/// Lines that are no commands.
const REFUSED: [&str; 43] = [
    "",
    " ",
    "0",
    "0 ",
    "status",
    " status",
    " 0 status",
    "0  status",
    "0 status ",
    "0\tstatus",
    "0 Status",
    "16 status",
    "18446744073709551616 status",
    "00 status",
    "01 status",
    "+1 status",
    "-1 status",
    "1a status",
    "0 statuses",
    "0 add",
    "0 add ",
    "0 add 00000000000000000000000000000000000000a",
    "0 add 00000000000000000000000000000000000000g1",
    "0 add  00000000000000000000000000000000000000a1",
    "0 add 00000000000000000000000000000000000000a1 ",
    "0 add 00000000000000000000000000000000000000a1  00000000000000000000000000000000000000b1",
    "0 flush ",
    "0 reload 1",
    "0 drop",
    "0 drop ",
    "0 drop 01",
    "0 drop -1",
    "0 drop 18446744073709551616",
    "0 id",
    "0 id all",
    "0 query",
    "0 query nothing",
    "0 clone all",
    "0 pull all",
    "0 strip",
    "0 strip ",
    "0 strip all",
    "0 strip 00000000000000000000000000000000000000a1 ",
];

#[test]
fn other_lines_are_refused(rt: HostRuntime) {
    for line in &REFUSED {
        assert!(rt; is_none(rt.alloc(), line.as_bytes()), "at {line:?}");
    }
}

#[test]
fn nine_parents_are_too_many(rt: HostRuntime) -> Result<(), AllocError> {
    let alloc = rt.alloc();
    let eight = add_line(alloc, 8)?;
    assert!(rt; reads_as(alloc, &eight, 4, "add", 8));
    let nine = add_line(alloc, 9)?;
    assert!(rt; is_none(alloc, &nine));
    Ok(())
}

/// Whether the reply is put as this text.
fn is_put(alloc: Global, reply: &Reply, text: &str) -> Result<bool, AllocError> {
    let mut sink = MemorySink::new(alloc, &[])?;
    let put = put_reply(reply, &mut sink);
    Ok(put.is_ok() && sink.bytes() == text.as_bytes())
}

/// The text of the first of the replies that is put otherwise.
fn first_wrong(
    alloc: Global,
    replies: &[(Reply, &'static str)],
) -> Result<Option<&'static str>, AllocError> {
    for (reply, text) in replies {
        if !is_put(alloc, reply, text)? {
            return Ok(Some(*text));
        }
    }
    Ok(None)
}

/// The text of the first of these replies that is put otherwise.
fn wrong_reply(alloc: Global) -> Result<Option<&'static str>, AllocError> {
    let name = Name::from_bytes([16; 20]);
    let counts = Counts {
        master: 2,
        others: 0,
        pending: 13,
    };
    let replies = [
        (Reply::Added(Id::other(1)), "ok added N1\n"),
        (Reply::Old(Id::master(0)), "ok old 0\n"),
        (Reply::Flushed(counts), "ok flushed 2 0\n"),
        (Reply::Stripped(counts), "ok stripped 2 0\n"),
        (Reply::Pulled(counts), "ok pulled 2 0\n"),
        (Reply::Cloned(10), "ok cloned 10\n"),
        (Reply::Reloaded(4), "ok reloaded 4\n"),
        (Reply::Discarded(0), "ok discarded 0\n"),
        (
            Reply::Counted(18_446_744_073_709_551_615),
            "ok 18446744073709551615\n",
        ),
        (Reply::Identified(Id::other(0)), "ok N0\n"),
        (Reply::Sizes(counts), "ok 2 0 13\n"),
        (Reply::Dropped(3), "ok dropped 3\n"),
        (
            Reply::Refused(Refusal::Unknown(name)),
            "err unknown 1010101010101010101010101010101010101010\n",
        ),
        (
            Reply::Refused(Refusal::Full(Limit::Pending, 65_536)),
            "err full pending 65536\n",
        ),
        (Reply::NoCommand, "err syntax\n"),
        (Reply::LongLine, "err line 16384\n"),
    ];
    first_wrong(alloc, &replies)
}

#[test]
fn replies_are_put(rt: HostRuntime) -> Result<(), AllocError> {
    assert_eq!(rt; wrong_reply(rt.alloc())?, None);
    Ok(())
}

/// The text of the first of the refusals that is put otherwise.
fn first_wrong_refusal(
    alloc: Global,
    refusals: &[(Refusal, &'static str)],
) -> Result<Option<&'static str>, AllocError> {
    for (refusal, text) in refusals {
        if !is_put(alloc, &Reply::Refused(*refusal), text)? {
            return Ok(Some(*text));
        }
    }
    Ok(None)
}

/// The text of the first of these refusals that is put otherwise.
fn wrong_refusal(alloc: Global) -> Result<Option<&'static str>, AllocError> {
    let name = Name::from_bytes([255; 20]);
    let refusals = [
        (
            Refusal::Twice(name),
            "err twice ffffffffffffffffffffffffffffffffffffffff\n",
        ),
        (
            Refusal::Differs(name),
            "err differs ffffffffffffffffffffffffffffffffffffffff\n",
        ),
        (
            Refusal::Conflict(name),
            "err conflict ffffffffffffffffffffffffffffffffffffffff\n",
        ),
        (
            Refusal::Lost(name),
            "err lost ffffffffffffffffffffffffffffffffffffffff\n",
        ),
        (
            Refusal::InMaster(name),
            "err master ffffffffffffffffffffffffffffffffffffffff\n",
        ),
        (Refusal::Emptied(9), "err empty 9\n"),
        (Refusal::Full(Limit::Others, 7), "err full others 7\n"),
        (Refusal::Answer(1_048_577), "err answer 1048577\n"),
        (Refusal::NotEmpty(5, 6), "err not-empty 5 6\n"),
        (Refusal::Pending(1), "err pending 1\n"),
        (Refusal::NoRemote, "err no-remote\n"),
        (Refusal::Remote(2), "err remote 2\n"),
        (
            Refusal::MismatchPath(name, 18_446_744_073_709_551_615),
            "err mismatch path ffffffffffffffffffffffffffffffffffffffff 18446744073709551615\n",
        ),
        (Refusal::MismatchNames(3, 2), "err mismatch names 3 2\n"),
        (Refusal::MismatchClone(4), "err mismatch clone 4\n"),
        (Refusal::MismatchRow(8), "err mismatch row 8\n"),
        (Refusal::Memory, "err memory\n"),
    ];
    first_wrong_refusal(alloc, &refusals)
}

#[test]
fn refusals_are_put(rt: HostRuntime) -> Result<(), AllocError> {
    assert_eq!(rt; wrong_refusal(rt.alloc())?, None);
    Ok(())
}

/// Whether the disk's fault is put as its text.
fn is_fault_put(alloc: Global) -> Result<bool, AllocError> {
    let mut sink = MemorySink::new(alloc, &[])?;
    let put = put_disk_fault(&mut sink);
    Ok(put.is_ok() && sink.bytes() == b"err disk\n".as_slice())
}

#[test]
fn faults_of_the_disk_are_put(rt: HostRuntime) -> Result<(), AllocError> {
    assert!(rt; is_fault_put(rt.alloc())?);
    Ok(())
}
