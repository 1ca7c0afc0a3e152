//! The run: from the log, the source and the sink to the status.

ghost use Rattle.std.specs.Prelude.{◌≡◌, ◌<◌, ◌≤◌, ℕ, List, [], None, Ok, Err, IfErr, IfOk, IfSome, MatchResult, map, string_bytes};
ghost use Rattle.disk_trait.specs.Since.{IsUntouched};
ghost use Rattle.outside.specs.Counts.{Rose};
ghost use Rattle.outside.specs.Told.{WhereTold};
ghost use Rattle.line_io.specs.Reading.{budget, is_over, new_reading};
ghost use Rattle.id_groups.specs.Name.{Name};
ghost use Rattle.commit_graph.specs.World.{World};
ghost use Rattle.disk_trait.specs.Calls.{Goes};
ghost use Rattle.gated_log.specs.Load.{IsSureOf, IsSureBehind, LoadCalls};
ghost use Rattle.gated_log.specs.Holding.{IsOnDisk};
ghost use Rattle.batch_codec.specs.Payload.{Payload};
ghost use Rattle.change_rules.specs.Holding.{HoldAs, KeepsHolding};
ghost use Rattle.change_rules.specs.Standard.{AreLimits};
ghost use Rattle.run_rules.specs.Ends.{status_of as end_status};
ghost use Rattle.run_rules.specs.Means.{Means};
ghost use Rattle.dag_store.specs.Loading.{IsLoadedStore};
ghost use Rattle.program_words.specs.Usage.{IsUsage};
ghost use Rattle.dag_run.specs.Modes.{EndsAtOnce};
ghost use Rattle.dag_run.specs.Seen.{streams};
ghost use Rattle.dag_run.specs.Stops.{end_of, GoesOver, IsAnswerStop, IsLoadStop, IsOverAt, IsRunStatus, stop_of};
ghost use Rattle.dag_run.specs.Ends.{HasCauses, OpensRun, LoadPuts, LoadRefuses};
ghost use Rattle.dag_run.specs.Does.{Does, DoesRun, DoesWords, EndsRun, disk_sides, port_sides};
ghost use Rattle.dag_run.specs.Between.{FromGoing, TurnMeans};

use crate::bundling::put_bundle;
use crate::compacting::compact_log;
use crate::demo::demo;
use crate::execute::execute;
use crate::reach::Reach;
use crate::replies::tell_fault;
use crate::serving::serve_mirror;
use crate::stops::Stop;
use crate::{Limits, Moments, Report};
use dag_store::{LoadFault, Store};
use disk_trait::Disk;
use line_io::{LineFault, Lines, Sink, Source};
use mirror_set::Mirrors;
use program_words::{Mode, Usage, WordsFault, read_words};
use remote_trait::Remote;
use std::alloc::Global;

/// Loads the store of the log. Where the disk fails the line that tells of it is put.
fn load<D: Disk, O: Sink>(
    alloc: Global,
    limits: Limits,
    cache: u32,
    log: &mut D,
    output: &mut O,
) -> Result<Store, Stop>
    requires limits { AreLimits limits }
    requires cache { 0 < cache }
    ensures cache { IfOk result (λ store. store.cache ≡ record { entries = []; capacity = cache }) }
    ensures limits { IfOk result (λ store. store.limits ≡ limits) }
    ensures opens { (payloads : List Payload) (w : World Name) → IfSome (D.bytes log.old) (λ bytes. HoldAs limits.log bytes payloads w → OpensRun payloads w result) }
    ensures images { (w : World Name) → Goes (KeepsHolding limits.log w) (D.told log.old) (D.told log.new) }
    ensures sure { (result ≡ Err Stop.NotLoaded → ⊥) → (payloads : List (List ℕ)) → Goes (IsSureOf limits.log payloads) (D.told log.old) (D.told log.new) }
    ensures behind { (payloads : List (List ℕ)) → Goes (IsSureBehind limits.log payloads) (D.told log.old) (D.told log.new) }
    ensures done { IfOk result (λ store. Goes (IsLoadedStore store) (D.told log.old) (D.told log.new)) }
    ensures calls { Goes LoadCalls (D.told log.old) (D.told log.new) }
    ensures puts { WhereTold (O.taken output.old) (O.taken output.new) (LoadPuts (Rose (O.faults output.old) (O.faults output.new)) result) }
    ensures quiet { (result ≡ Err Stop.NotLoaded → ⊥) → output.new ≡ output.old }
    ensures lawful { IfSome (D.bytes log.old) (λ bytes. LoadRefuses limits.log bytes result) }
    ensures unwritten { result ≡ Err Stop.NoLog → Goes IsUntouched (D.told log.old) (D.told log.new) }
    ensures stop { IfErr result IsLoadStop }
    ensures cause { result ≡ Err Stop.NotLoaded → Rose (D.faults log.old) (D.faults log.new) }
    ensures later { D.faults log.old ≤ D.faults log.new }
    ensures sink_later { O.faults output.old ≤ O.faults output.new }
{
    match Store::load(alloc, log, limits, cache) {
        Ok(store) => Ok(store),
        Err(LoadFault::Disk(_)) => {
            tell_fault(output);
            Err(Stop::NotLoaded)
        }
        Err(LoadFault::Memory) => Err(Stop::Memory),
        Err(LoadFault::Frame(_)) => Err(Stop::NoLog),
        Err(LoadFault::TooLarge(_)) => Err(Stop::NoLog),
        Err(LoadFault::Batch(_)) => Err(Stop::NoLog),
    }
}

/// Drops the store where the input is at its end.
fn end_run(_store: Store) -> Result<Option<Store>, Stop>
    ensures { result ≡ Ok None }
{
    Ok(None)
}

/// Drops the store where no line could be read.
fn fail_run(_store: Store, fault: LineFault) -> Result<Option<Store>, Stop>
    ensures { result ≡ Err (stop_of fault) }
{
    Err(Stop::from(fault))
}

/// Reads a line, answers it and hands the store back; or `None` where the input is at its end.
fn answer_next<D: Disk, I: Source, O: Sink, R: Remote>(
    alloc: Global,
    store: Store,
    reach: Reach<'_, '_, '_, D, R>,
    lines: &mut Lines,
    input: &mut I,
    output: &mut O,
) -> Result<Option<Store>, Stop>
    requires ready { IfSome (D.told reach.disk.now) (IsOnDisk store.log) }
    ensures means { FromGoing (disk_sides D.told D.bytes D.faults reach.entry.disk.now reach.exit.0.now)
        (record { was = reach.entry.mirrors.now; is = reach.exit.1.0.now; first = map R.shown reach.entry.mirrors.now.list.items; left = map R.shown reach.exit.1.0.now.list.items })
        (port_sides I.left I.faults input.old input.new) (port_sides O.taken O.faults output.old output.new) store reach.entry.changes.now.items lines.old
        (λ limits w payloads room first Failed before after. TurnMeans limits w payloads room first (map R.shown reach.exit.1.0.now.list.items) reach.exit.1.1.0.now.items lines.new Failed result before after) }
    ensures over { WhereTold (I.left input.old) (I.left input.new) (λ before after. GoesOver result (is_over lines.old before) (is_over lines.new after)) }
    ensures limits { IfOk result (λ next. IfSome next (λ kept. kept.limits ≡ store.limits)) }
    ensures ready { IfOk result (λ next. IfSome next (λ kept. IfSome (D.told reach.exit.0.now) (IsOnDisk kept.log))) }
    ensures less { IfOk result (λ next. IfSome next (λ kept. budget lines.new < budget lines.old)) }
    ensures stop { IfErr result IsAnswerStop }
    ensures causes { HasCauses (D.faults reach.entry.disk.now) (D.faults reach.exit.0.now) (I.faults input.old) (I.faults input.new) (O.faults output.old) (O.faults output.new) result }
{
    match lines.next(input) {
        Ok(Some(kind)) => {
            match execute(alloc, store, reach, kind, lines.text(), output) {
                Ok(next) => Ok(Some(next)),
                Err(stop) => Err(stop),
            }
        }
        Ok(None) => end_run(store),
        Err(fault) => fail_run(store, fault),
    }
}

/// Answers all lines over the store. The reply to each is put before the next is read.
fn answer_lines<D: Disk, I: Source, O: Sink, R: Remote>(
    alloc: Global,
    store: Store,
    reach: Reach<'_, '_, '_, D, R>,
    lines: &mut Lines,
    input: &mut I,
    output: &mut O,
) -> Result<(), Stop>
    requires ready { IfSome (D.told reach.disk.now) (IsOnDisk store.log) }
    ensures means { FromGoing (disk_sides D.told D.bytes D.faults reach.entry.disk.now reach.exit.0.now)
        (record { was = reach.entry.mirrors.now; is = reach.exit.1.0.now; first = map R.shown reach.entry.mirrors.now.list.items; left = map R.shown reach.exit.1.0.now.list.items })
        (port_sides I.left I.faults input.old input.new) (port_sides O.taken O.faults output.old output.new) store reach.entry.changes.now.items lines.old
        (λ limits w payloads room first Failed before after. Means limits w payloads room first (map R.shown reach.exit.1.0.now.list.items) (streams before after) Failed before.disk after.disk (end_of result) reach.exit.1.1.0.now.items) }
    ensures over { WhereTold (I.left input.old) (I.left input.new) (λ before after. IsOverAt result (is_over lines.old before)) }
    ensures stop { IfErr result IsAnswerStop }
    ensures causes { HasCauses (D.faults reach.entry.disk.now) (D.faults reach.exit.0.now) (I.faults input.old) (I.faults input.new) (O.faults output.old) (O.faults output.new) result }
{
    let Reach {
        disk,
        mirrors,
        changes,
    } = reach;
    let mut store = store;
    'lines: while let Some(next) = answer_next(
        alloc,
        store,
        Reach {
            disk,
            mirrors,
            changes,
        },
        lines,
        input,
        output,
    )? {
        store = next;
    }
    Ok(())
}

/// Loads the store, and answers all lines.
fn answer_all<D: Disk, I: Source, O: Sink, R: Remote>(
    alloc: Global,
    limits: Limits,
    cache: u32,
    reach: Reach<'_, '_, '_, D, R>,
    lines: &mut Lines,
    input: &mut I,
    output: &mut O,
) -> Result<(), Stop>
    requires limits { AreLimits limits }
    requires cache { 0 < cache }
    requires none { reach.changes.now.items ≡ [] }
    requires new { lines.old ≡ new_reading limits.input }
    ensures { EndsRun limits cache (disk_sides D.told D.bytes D.faults reach.entry.disk.now reach.exit.0.now)
        (record { was = reach.entry.mirrors.now; is = reach.exit.1.0.now; first = map R.shown reach.entry.mirrors.now.list.items; left = map R.shown reach.exit.1.0.now.list.items })
        (port_sides I.left I.faults input.old input.new) (port_sides O.taken O.faults output.old output.new) result reach.exit.1.1.0.now.items }
{
    let store = load(alloc, limits, cache, reach.disk, output)?;
    answer_lines(alloc, store, reach, lines, input, output)
}

/// Answers the lines of the input, with room to read them.
fn run<D: Disk, I: Source, O: Sink, R: Remote>(
    alloc: Global,
    limits: Limits,
    cache: u32,
    reach: Reach<'_, '_, '_, D, R>,
    input: &mut I,
    output: &mut O,
) -> Result<(), Stop>
    requires limits { AreLimits limits }
    requires cache { 0 < cache }
    requires none { reach.changes.now.items ≡ [] }
    ensures { EndsRun limits cache (disk_sides D.told D.bytes D.faults reach.entry.disk.now reach.exit.0.now)
        (record { was = reach.entry.mirrors.now; is = reach.exit.1.0.now; first = map R.shown reach.entry.mirrors.now.list.items; left = map R.shown reach.exit.1.0.now.list.items })
        (port_sides I.left I.faults input.old input.new) (port_sides O.taken O.faults output.old output.new) result reach.exit.1.1.0.now.items }
{
    let mut lines = Lines::new(alloc, limits.input)?;
    answer_all(alloc, limits, cache, reach, &mut lines, input, output)
}

/// The status of an end.
fn status(end: Result<(), Stop>) -> u8
    ensures { result ≡ end_status (end_of end) }
{
    match end {
        Ok(()) => 0,
        Err(Stop::NotLoaded) => 3,
        Err(Stop::NotStored) => 3,
        Err(Stop::NoLog) => 4,
        Err(Stop::Source) => 5,
        Err(Stop::Sink) => 6,
        Err(Stop::Memory) => 7,
        Err(Stop::Limit) => 8,
    }
}

/// Answers the lines of the input over the log, within these limits and with room for so many names that mirrors gave. A reply is put
/// before the next line is read. The mirrors are asked, counted and dropped as the lines say, and the caller keeps those that are left.
pub fn run_lines<D: Disk, I: Source, O: Sink, R: Remote>(
    alloc: Global,
    limits: Limits,
    cache: u32,
    log: &mut D,
    mirrors: &mut Mirrors<R>,
    input: &mut I,
    output: &mut O,
) -> Report
    requires limits { AreLimits limits }
    requires cache { 0 < cache }
    ensures known { IsRunStatus result.status }
    ensures does { DoesRun limits cache (disk_sides D.told D.bytes D.faults log.old log.new)
        (record { was = mirrors.old; is = mirrors.new; first = map R.shown mirrors.old.list.items; left = map R.shown mirrors.new.list.items })
        (port_sides I.left I.faults input.old input.new) (port_sides O.taken O.faults output.old output.new) result.status result.changes }
    ensures unwritten { result.status ≡ 4 → Goes IsUntouched (D.told log.old) (D.told log.new) × (input.new ≡ input.old) × (output.new ≡ output.old) × (mirrors.new ≡ mirrors.old) }
    ensures quiet { result.status ≡ 7 → (input.new ≡ input.old) × (output.new ≡ output.old) × (mirrors.new ≡ mirrors.old) }
    ensures disk { result.status ≡ 3 → Rose (D.faults log.old) (D.faults log.new) }
    ensures source { result.status ≡ 5 → Rose (I.faults input.old) (I.faults input.new) }
    ensures sink { result.status ≡ 6 → Rose (O.faults output.old) (O.faults output.new) }
{
    let mut changes = Vec::new(alloc);
    let reach = Reach {
        disk: log,
        mirrors,
        changes: &mut changes,
    };
    let end = run(alloc, limits, cache, reach, input, output);
    Report {
        status: status(end),
        changes: Moments::of(changes),
    }
}

/// The usage that the words are; or the status of a program that ends at once.
pub fn usage_of(alloc: Global, words: &[String]) -> Result<Usage, u8>
    ensures { MatchResult result (IsUsage (map string_bytes words.now)) (EndsAtOnce (map string_bytes words.now)) }
{
    match read_words(alloc, words) {
        Ok(usage) => Ok(usage),
        Err(WordsFault::Usage) => Err(2),
        Err(WordsFault::Memory) => Err(7),
    }
}

/// Does what the usage's mode says, within the program's limits.
pub fn run_mode<D: Disk, I: Source, O: Sink, R: Remote>(
    alloc: Global,
    usage: Usage,
    log: &mut D,
    spare: &mut D,
    mirrors: &mut Mirrors<R>,
    input: &mut I,
    output: &mut O,
) -> Report
    requires cache { 0 < usage.cache }
    requires size { 1 ≤ usage.size }
    ensures { Does usage (record {
      log = disk_sides D.told D.bytes D.faults log.old log.new;
      spare = disk_sides D.told D.bytes D.faults spare.old spare.new;
      mirrors = record { was = mirrors.old; is = mirrors.new; first = map R.shown mirrors.old.list.items; left = map R.shown mirrors.new.list.items };
      input = port_sides I.left I.faults input.old input.new;
      output = port_sides O.taken O.faults output.old output.new;
    }) result.status result.changes }
{
    let limits = Limits::standard();
    match usage.mode {
        Mode::Run => run_lines(alloc, limits, usage.cache, log, mirrors, input, output),
        Mode::Demo => Report::idle(alloc, demo::<O, R>(alloc, usage.size, usage.start, output)),
        Mode::Serve => {
            Report::idle(
                alloc,
                serve_mirror(alloc, limits.input, mirrors, input, output),
            )
        }
        Mode::Bundle => Report::idle(alloc, put_bundle(alloc, limits, log, output)),
        Mode::Compact => { Report::idle(alloc, compact_log(alloc, limits.log, log, spare, output)) }
    }
}

/// Runs the program over the words behind the `--`: answers the lines of the input over the log, within the program's limits, or
/// those of a demonstration in memory, of which the last four replies are put, or the framed requests of the input over the one
/// mirror; or puts the bundle of the log's master; or writes the log anew to the spare disk. The mirrors are asked as the lines say, and
/// as many of the names that they give are kept as the words say. Only writing a log anew touches the spare disk: no run does. A
/// demonstration and serving don't touch the log, and all but the run and serving leave the mirrors and the input alone. Only a run tells
/// changes.
pub fn top<D: Disk, I: Source, O: Sink, R: Remote>(
    alloc: Global,
    words: &[String],
    log: &mut D,
    spare: &mut D,
    mirrors: &mut Mirrors<R>,
    input: &mut I,
    output: &mut O,
) -> Report
    ensures { DoesWords (map string_bytes words.now) (record {
      log = disk_sides D.told D.bytes D.faults log.old log.new;
      spare = disk_sides D.told D.bytes D.faults spare.old spare.new;
      mirrors = record { was = mirrors.old; is = mirrors.new; first = map R.shown mirrors.old.list.items; left = map R.shown mirrors.new.list.items };
      input = port_sides I.left I.faults input.old input.new;
      output = port_sides O.taken O.faults output.old output.new;
    }) result.status result.changes }
{
    match usage_of(alloc, words) {
        Ok(usage) => run_mode(alloc, usage, log, spare, mirrors, input, output),
        Err(status) => Report::idle(alloc, status),
    }
}
