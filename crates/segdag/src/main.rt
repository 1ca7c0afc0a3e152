#![tactic(auto)]

//! The program `segdag`: answers command lines of standard input on standard output, over the log in a file.

ghost use Rattle.std.specs.Prelude.{◌≡◌, ◌<◌, ◌≤◌, ◌^◌, length, map, ℕ, List, MatchResult};
ghost use Rattle.std.specs.Process.{exit_status};
ghost use Rattle.dag_run.specs.Does.{Does, disk_sides, port_sides};
ghost use Rattle.segdag.specs.Files.{EndsLocked, IsAsked, IsNotSixteen};
ghost use Rattle.segdag.specs.declared.files.LogFiles.{LogFiles};

mod files;
mod mirror;
mod remotes;
mod standard;
mod words;

use crate::files::{LogFiles, NOT_OPENED, access_in, files_at, own_status};
use crate::remotes::mirrors_of;
use crate::standard::fill_standard;
use crate::words::{Called, called_by};
use dag_run::run_mode;
use disk_trait::Disk;
use line_io::{Sink, Source, StdSink, StdSource};
use mirror_set::Mirrors;
use program_words::{Mode, Usage};
use remote_trait::Remote;
use std::alloc::{AllocError, Global};
use std::io::ErrorKind;
use std::process::ExitCode;
use std::{env, io};

/// The status of words that aren't a usage.
const NO_USAGE: u8 = 2;

/// The status where the words want memory.
const NO_MEMORY: u8 = 7;

/// The status where another process has the log.
const NOT_OURS: u8 = 16;

/// Does what the usage says over the log, with the spare disk beside it, and gives the status. The mirrors are asked as the lines say, and
/// the caller keeps those that are left.
fn answer<D: Disk, I: Source, O: Sink, R: Remote>(
    alloc: Global,
    usage: Usage,
    log: &mut D,
    spare: &mut D,
    mirrors: &mut Mirrors<R>,
    input: &mut I,
    output: &mut O,
) -> u8
    requires cache { 0 < usage.cache }
    requires size { 1 ≤ usage.size }
    ensures { (changes : List ℕ) × Does usage (record {
      log = disk_sides D.told D.bytes D.faults log.old log.new;
      spare = disk_sides D.told D.bytes D.faults spare.old spare.new;
      mirrors = record { was = mirrors.old; is = mirrors.new; first = map R.shown mirrors.old.list.items; left = map R.shown mirrors.new.list.items };
      input = port_sides I.left I.faults input.old input.new;
      output = port_sides O.taken O.faults output.old output.new;
    }) result changes }
{
    run_mode(alloc, usage, log, spare, mirrors, input, output).status
}

/// The words, the program's own name in front; or the status where memory is wanting, or where one of them isn't UTF-8 text.
fn words_of(rt: &HostRuntime) -> Result<Vec<String>, u8> {
    let args = match env::args(rt) {
        Ok(args) => args,
        Err(error) if error.kind() == ErrorKind::OutOfMemory => return Err(NO_MEMORY),
        Err(_) => return Err(NO_USAGE),
    };
    args.collect::<Vec<String>>(rt.alloc())
        .map_err(|_refused| NO_MEMORY)
}

/// Does what the usage says with standard input and standard output over this log, beside these mirrors, and gives the status. It isn't the
/// one of a log that another process has.
fn run_on<R: Remote>(
    rt: &HostRuntime,
    usage: Usage,
    files: &mut LogFiles,
    mirrors: &mut Mirrors<R>,
) -> u8
    requires cache { 0 < usage.cache }
    requires size { 1 ≤ usage.size }
    ensures { IsNotSixteen result }
{
    let mut input = StdSource::new(rt.reader());
    let mut output = StdSink::new(io::writer(rt));
    answer(
        rt.alloc(),
        usage,
        &mut files.log,
        &mut files.spare,
        mirrors,
        &mut input,
        &mut output,
    )
}

/// The same over the files of a log. Where another process has the lock of it the status says so, nothing is read or written of it, and no
/// mirror is asked.
fn run_locked<R: Remote>(
    rt: &HostRuntime,
    usage: Usage,
    files: &mut LogFiles,
    mirrors: &mut Mirrors<R>,
) -> u8
    requires cache { 0 < usage.cache }
    requires size { 1 ≤ usage.size }
    ensures { (asked : LogFiles) × IsAsked files.old asked × EndsLocked asked.log.lacks_lock asked files.new mirrors.old mirrors.new result }
{
    if files.log.is_anothers() {
        return NOT_OURS;
    }
    let status = run_on(rt, usage, files, mirrors);
    own_status(status, &files.log)
}

/// The same over the log at this path.
fn run_over<R: Remote>(
    rt: &HostRuntime,
    usage: Usage,
    path: &str,
    mirrors: &mut Mirrors<R>,
) -> Result<u8, AllocError>
    requires cache { 0 < usage.cache }
    requires size { 1 ≤ usage.size }
{
    let mut files = files_at(rt, path, access_in(usage.mode, usage.wait))?;
    Ok(run_locked(rt, usage, &mut files, mirrors))
}

/// The same where the program is called so.
fn run_called(rt: &HostRuntime, called: Called<'_>) -> Result<u8, AllocError>
    requires remotes { length called.remotes.now < 2 ^ 32 }
    requires cache { 0 < called.usage.cache }
    requires size { 1 ≤ called.usage.size }
{
    let is_run = called.usage.mode == Mode::Run;
    let mirrors = mirrors_of(rt, called.remotes, is_run)?;
    run_over(rt, called.usage, called.path, &mut Mirrors::new(mirrors))
}

/// The same once standard streams that were closed have their descriptors, so that no file gets one.
fn run_filled(rt: &HostRuntime, called: Called<'_>) -> Result<u8, u8>
    requires remotes { length called.remotes.now < 2 ^ 32 }
    requires cache { 0 < called.usage.cache }
    requires size { 1 ≤ called.usage.size }
{
    let _standard = fill_standard(rt).map_err(|_error| NOT_OPENED)?;
    run_called(rt, called).map_err(|_refused| NO_MEMORY)
}

/// Does what the words of the command line say with standard input and standard output, and gives the status.
fn run(rt: &HostRuntime) -> Result<u8, u8> {
    let words = words_of(rt)?;
    if words.len() >= 1 << 32 {
        return Err(NO_USAGE);
    }
    let called = called_by(rt.alloc(), &words)?;
    run_filled(rt, called)
}

/// Ends with the status that a run gave, or with that for which none began. Where the words were no usage it says on standard error how
/// the program is called, and where another process has the log it says so.
fn end(rt: &HostRuntime, ended: Result<u8, u8>) -> ExitCode
    ensures { MatchResult ended (λ status. exit_status result ≡ status) (λ status. exit_status result ≡ status) }
{
    let status = match ended {
        Ok(status) | Err(status) => status,
    };
    if status == NO_USAGE {
        eprintln!(rt;
            "usage: segdag LOG [REMOTE]... -- MODE [--cache N] [--size N] [--start N] [--wait]"
        ).ok();
    }
    if status == NOT_OURS {
        eprintln!(rt;
            "segdag: another process has the log; with --wait this one waits for it"
        ).ok();
    }
    ExitCode::from(status)
}

fn main(rt: HostRuntime) -> ExitCode {
    end(&rt, run(&rt))
}
