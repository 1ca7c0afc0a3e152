#![tactic(auto)]

//! Runs of command lines as data: the standard input holds cases, each behind a line that begins with `==`. The replies to
//! the lines of each case go to the standard output, behind the case's own line and before one of how it ended: the status, the
//! bytes of its log, and the moment of each change. A case whose line begins with `== again` goes over the log that the one before left,
//! with `== same` over the one that it began with, any other over a fresh one. Behind ` with: ` its line has words for limits, for what fails
//! and stops (`setting`), and the end then says how many bytes of lines are left, and the moment of the disk. Behind ` beside: ` it has words
//! for mirrors (`beside`), and else there are none. Where crashes are tried (`crashes`), what they leave follows.
//! Reading a case takes one carriage return off the end of each of its lines, and running it the next.

use crate::beside::mirrors_of;
use crate::crashes::{Worlds, letters, sizes_of};
use crate::setting::{Setting, setting_of};
use dag_run::{Report, run_lines};
use disk_memory::MemoryDisk;
use disk_trait::Disk;
use line_io::{
    Line, LineFault, Lines, MemorySink, MemorySource, Sink, SinkFault, Source, StdSink, StdSource,
};
use mirror_set::Mirrors;
use std::alloc::{AllocError, AllocFailed, Global};
use std::process::ExitCode;
use std::{io, str};

mod beside;
mod crashes;
mod setting;
mod told;

/// Why the cases weren't all run.
#[derive(Clone, Copy)]
enum Stop {
    Memory,
    Source,
    Sink,
}

impl From<AllocError> for Stop {
    fn from(_refused: AllocError) -> Stop {
        Stop::Memory
    }
}

impl<T: Drop> From<AllocFailed<T>> for Stop {
    fn from(_refused: AllocFailed<T>) -> Stop {
        Stop::Memory
    }
}

impl From<LineFault> for Stop {
    fn from(_fault: LineFault) -> Stop {
        Stop::Source
    }
}

impl From<SinkFault> for Stop {
    fn from(_fault: SinkFault) -> Stop {
        Stop::Sink
    }
}

/// The lines of a case, the log that they go over, and the one that the case before began with. Its own line says how it is run.
#[derive(Drop)]
struct Case {
    title: String,
    lines: Vec<u8>,
    log: Vec<u8>,
    start: Vec<u8>,
    begun: bool,
}

/// Answers the lines of an input over a disk, beside the mirrors that the case's line names.
fn run_beside(
    alloc: Global,
    title: &str,
    setting: &Setting,
    disk: &mut MemoryDisk,
    input: &mut MemorySource,
    output: &mut MemorySink,
) -> Result<Report, Stop> {
    let list = mirrors_of(alloc, title)?;
    if list.len() > 8 {
        return Err(Stop::Memory);
    }
    let mut mirrors = Mirrors::new(list);
    let limits = setting.limits();
    Ok(run_lines(
        alloc,
        limits,
        setting.cache(),
        disk,
        &mut mirrors,
        input,
        output,
    ))
}

/// Adds the moment of a change to the line that says how a run ended.
fn add_change(alloc: Global, line: &mut String, change: u64) -> Result<(), AllocError> {
    let word = format!(in alloc; " {change}")?;
    line.push_str(word.as_str())
}

/// What the line of how a run ended has behind its changes, where the case's line says how it is run.
fn rest_of(alloc: Global, title: &str, left: u64, clock: u64) -> Result<String, AllocError> {
    if title.contains(" with: ") {
        format!(in alloc; ", left {left}, clock {clock}\n")
    } else {
        String::from_str(alloc, "\n")
    }
}

/// The line that says how a run ended.
fn end_of(
    alloc: Global,
    report: &Report,
    disk: &MemoryDisk,
    rest: &str,
) -> Result<String, AllocError> {
    let size = disk.bytes().len();
    let mut line = format!(in alloc; "-- {} {size}", report.status)?;
    for i in 0..report.changes.len() {
        add_change(alloc, &mut line, report.changes.at(i))?;
    }
    line.push_str(rest)?;
    Ok(line)
}

/// Runs lines over a disk, and answers how their run ended.
fn run_over(
    alloc: Global,
    title: &str,
    lines: &[u8],
    disk: &mut MemoryDisk,
    output: &mut MemorySink,
) -> Result<String, Stop> {
    let setting = setting_of(title);
    let mut input = MemorySource::new(alloc, lines, setting.piece(), &[setting.source])?;
    let report = run_beside(alloc, title, &setting, disk, &mut input, output)?;
    let rest = rest_of(alloc, title, input.left(), disk.clock())?;
    Ok(end_of(alloc, &report, disk, rest.as_str())?)
}

/// Puts what was told, with a line feed behind a piece of a line, and how the run ended.
fn put_told<O: Sink>(told: &[u8], end: &str, output: &mut O) -> Result<(), SinkFault> {
    output.put(told)?;
    if told.last().is_some_and(|byte| *byte != b'\n') {
        output.put(b"\n")?;
    }
    output.put(end.as_bytes())
}

/// Runs lines over a disk, and puts what was told and how their run ended.
fn run_told<O: Sink>(
    alloc: Global,
    title: &str,
    lines: &[u8],
    disk: &mut MemoryDisk,
    output: &mut O,
) -> Result<(), Stop> {
    let mut told = MemorySink::new(alloc, &[setting_of(title).sink])?;
    let end = run_over(alloc, title, lines, disk, &mut told)?;
    Ok(put_told(told.bytes(), end.as_str(), output)?)
}

/// The disk with the log of a case, which fails as its line says.
fn disk_of(alloc: Global, case: &Case) -> Result<MemoryDisk, AllocError> {
    let setting = setting_of(case.title.as_str());
    MemoryDisk::new(alloc, &case.start, &[setting.fails], setting.stop())
}

/// The same, which doesn't fail, behind the case's lines.
fn whole_of(alloc: Global, case: &Case) -> Result<MemoryDisk, Stop> {
    let mut disk = MemoryDisk::new(alloc, &case.start, &[], None)?;
    let mut unheard = MemorySink::new(alloc, &[])?;
    let _end = run_over(
        alloc,
        case.title.as_str(),
        &case.lines,
        &mut disk,
        &mut unheard,
    )?;
    Ok(disk)
}

/// What crashes of the disk leave of the worlds before and after a case's lines.
fn left_of(
    alloc: Global,
    case: &Case,
    setting: &Setting,
    disk: &MemoryDisk,
) -> Result<Vec<u8>, Stop> {
    let whole = whole_of(alloc, case)?;
    let worlds = Worlds::of(alloc, &case.start, whole.bytes())?;
    let sizes = sizes_of(case.start.len(), setting);
    let first = setting.first_moment(disk.clock());
    Ok(letters(alloc, &worlds, disk, first, &sizes)?)
}

/// Puts what crashes of the disk leave, where the case's line asks for it.
fn put_left<O: Sink>(
    alloc: Global,
    case: &Case,
    disk: &MemoryDisk,
    output: &mut O,
) -> Result<(), Stop> {
    let setting = setting_of(case.title.as_str());
    if setting.crashes == 0 {
        return Ok(());
    }
    let left = left_of(alloc, case, &setting, disk)?;
    output.put(&left)?;
    Ok(output.put(b"\n")?)
}

/// Runs the lines of a case over its log, which is as they leave it then, and empties them.
fn run_case<O: Sink>(alloc: Global, case: &mut Case, output: &mut O) -> Result<(), Stop> {
    let mut disk = disk_of(alloc, case)?;
    run_told(alloc, case.title.as_str(), &case.lines, &mut disk, output)?;
    put_left(alloc, case, &disk, output)?;
    case.lines.clear();
    case.log.clear();
    case.log.extend_from_slice(disk.bytes())?;
    Ok(())
}

/// Sets the log that a case with this line begins with.
fn take_start(case: &mut Case, title: &[u8]) -> Result<(), AllocError> {
    if title.starts_with(b"== same") {
        return Ok(());
    }
    case.start.clear();
    if title.starts_with(b"== again") {
        case.start.extend_from_slice(&case.log)?;
    }
    Ok(())
}

/// Takes a case's own line.
fn take_title(case: &mut Case, title: &[u8]) -> Result<(), Stop> {
    let Ok(text) = str::from_utf8(title) else {
        return Err(Stop::Source);
    };
    case.title.clear();
    case.title.push_str(text)?;
    Ok(())
}

/// Ends the case before, and begins one with this line.
fn begin<O: Sink>(
    alloc: Global,
    case: &mut Case,
    title: &[u8],
    output: &mut O,
) -> Result<(), Stop> {
    if case.begun {
        run_case(alloc, case, output)?;
    }
    case.begun = true;
    take_title(case, title)?;
    take_start(case, title)?;
    output.put(title)?;
    output.put(b"\n")?;
    Ok(())
}

/// Takes one line of the cases.
fn take_line<O: Sink>(
    alloc: Global,
    case: &mut Case,
    line: &[u8],
    output: &mut O,
) -> Result<(), Stop> {
    if line.starts_with(b"==") {
        return begin(alloc, case, line, output);
    }
    case.lines.extend_from_slice(line)?;
    case.lines.push(b'\n')?;
    Ok(())
}

/// Takes the next line of the cases, if there is one. Answers whether there is.
fn take_next<I: Source, O: Sink>(
    alloc: Global,
    case: &mut Case,
    lines: &mut Lines,
    input: &mut I,
    output: &mut O,
) -> Result<bool, Stop> {
    match lines.next(input)? {
        Some(Line::Text) => take_line(alloc, case, lines.text(), output)?,
        Some(Line::TooLong) => return Err(Stop::Source),
        None => return Ok(false),
    }
    Ok(true)
}

/// Takes all lines of the cases.
fn take_lines<I: Source, O: Sink>(
    alloc: Global,
    case: &mut Case,
    input: &mut I,
    output: &mut O,
) -> Result<(), Stop> {
    let mut lines = Lines::new(alloc, 1 << 30)?;
    for _line in 0..u64::MAX {
        if !take_next(alloc, case, &mut lines, input, output)? {
            break;
        }
    }
    Ok(())
}

/// Runs the cases of the input, of which none is begun yet.
fn run_cases<I: Source, O: Sink>(alloc: Global, input: &mut I, output: &mut O) -> Result<(), Stop> {
    let mut case = Case {
        title: String::new(alloc),
        lines: Vec::new(alloc),
        log: Vec::new(alloc),
        start: Vec::new(alloc),
        begun: false,
    };
    take_lines(alloc, &mut case, input, output)?;
    run_case(alloc, &mut case, output)
}

fn run_all(rt: &HostRuntime) -> Result<(), Stop> {
    let mut input = StdSource::new(rt.reader());
    let mut output = StdSink::new(io::writer(rt));
    run_cases(rt.alloc(), &mut input, &mut output)
}

fn main(rt: HostRuntime) -> ExitCode {
    match run_all(&rt) {
        Ok(()) => ExitCode::SUCCESS,
        Err(_) => ExitCode::from(1),
    }
}
