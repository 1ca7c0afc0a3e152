//! The remotes that the words of the command line name.

ghost use Rattle.std.specs.Prelude.{◌≡◌, ◌<◌, ◌≤◌, ◌+◌, ◌-◌, ◌^◌, ◌++◌, ◌∷◌, ℕ, Bool, List, [], codes, length, map, take, drop, string_bytes, IfOk, IfSome, IfNone};
ghost use Rattle.change_rules.specs.Standard.{standard};
ghost use Rattle.outside.specs.Parts.{HasNone};
ghost use Rattle.segdag.specs.Mirrors.{IsMadeOf, AreMadeOf};
ghost use Rattle.segdag.specs.Remotes.{IsBundleWord, IsPipeWord, NamesSo};

use crate::mirror::Mirror;
use file_disk::{Access, FileDisk};
use pipe_files::{PipeSink, PipeSource};
use remote_bundle::BundleRemote;
use remote_pipe::{Ends, PipeRemote};
use remote_store::{Limits, StoreRemote};
use std::alloc::AllocError;

/// How many bytes a bundle may have.
const BUNDLE_LIMIT: u64 = 1 << 30;

/// The file at this path, for reading alone. It has to be there when it is read, and nothing is opened yet.
fn file_at(rt: &HostRuntime, path: &str) -> Result<FileDisk<HostRuntime>, AllocError>
    ensures access { IfOk result (λ disk. disk.access ≡ Access.Read) }
    ensures path { IfOk result (λ disk. string_bytes disk.path ≡ path.now) }
{
    let path = format!(in rt.alloc(); "{path}")?;
    Ok(FileDisk::new(rt.clone()?, path, Access::Read))
}

/// The log at this path as a remote. It may have as many bytes as the program's own log.
fn log_at(rt: &HostRuntime, path: &str) -> Result<StoreRemote<FileDisk<HostRuntime>>, AllocError>
    ensures { IfOk result (λ remote. remote.log.limit ≡ standard.log) }
{
    let disk = file_at(rt, path)?;
    Ok(StoreRemote::new(disk, Limits::standard()))
}

/// The bundle at this path as a remote. It may have 2^30 bytes.
fn bundle_at(
    rt: &HostRuntime,
    path: &str,
) -> Result<BundleRemote<FileDisk<HostRuntime>>, AllocError>
    ensures { IfOk result (λ remote. remote.limit ≡ 2 ^ 30) }
{
    let disk = file_at(rt, path)?;
    Ok(BundleRemote::new(disk, BUNDLE_LIMIT))
}

/// The mirror behind the pipe of which the first path is written and the second read. Neither is opened yet.
fn pipe_at(
    rt: &HostRuntime,
    to: &str,
    from: &str,
) -> Result<PipeRemote<Ends<PipeSource, PipeSink>>, AllocError> {
    Ok(PipeRemote::new(rt.alloc(), ends_at(rt, to, from)?))
}

/// The two ends of the pipe of which the first path is written and the second read.
fn ends_at(rt: &HostRuntime, to: &str, from: &str) -> Result<Ends<PipeSource, PipeSink>, AllocError>
    ensures read { IfOk result (λ ends. string_bytes ends.input.path ≡ from.now) }
    ensures written { IfOk result (λ ends. string_bytes ends.output.path ≡ to.now) }
{
    let input = source_at(rt, from)?;
    let output = sink_at(rt, to)?;
    Ok(Ends::new(input, output))
}

/// The mirror of which the word speaks; none where it is a pipe that isn't asked.
fn mirror_of(rt: &HostRuntime, named: Named) -> Result<Option<Mirror>, AllocError>
    ensures { IfOk result (λ made. IsMadeOf named.entry made) }
{
    match named {
        Named::Log(path) => Ok(Some(Mirror::Log(log_at(rt, path)?))),
        Named::Bundle(path) => Ok(Some(Mirror::Bundle(bundle_at(rt, path)?))),
        Named::Pipe(to, from) => Ok(Some(Mirror::Pipe(pipe_at(rt, to, from)?))),
        Named::Unasked => Ok(None),
    }
}

/// Puts the mirror that the word names behind the others; none where it is a pipe that isn't asked.
fn add_mirror(
    rt: &HostRuntime,
    word: &str,
    is_run: bool,
    list: &mut Vec<Mirror>,
) -> Result<(), AllocError>
    ensures few { IfOk result (λ _. length list.new.items ≤ length list.old.items + 1) }
    ensures added { IfOk result (λ _. (words : List (List ℕ)) → AreMadeOf is_run words list.old.items → AreMadeOf is_run (words ++ word.now ∷ []) list.new.items) }
{
    match mirror_of(rt, named_by(word, is_run))? {
        Some(mirror) => {
            list.push(mirror)?;
            Ok(())
        }
        None => Ok(()),
    }
}

/// The mirrors that the words of remotes name, in their order: bundles, where `bundle:` stands in front of the path, mirrors behind pipes,
/// where `pipe:` does, and else logs. A pipe is none where this isn't a run, which alone asks who is behind it.
pub fn mirrors_of(
    rt: &HostRuntime,
    remotes: &[String],
    is_run: bool,
) -> Result<Vec<Mirror>, AllocError>
    requires { length remotes.now < 2 ^ 32 }
    ensures few { IfOk result (λ list. length list.items < 2 ^ 32) }
    ensures made { IfOk result (λ list. AreMadeOf is_run (map string_bytes remotes.now) list.items) }
{
    let mut list = Vec::new(rt.alloc());
    'remotes: for word in remotes {
        add_mirror(rt, word.as_str(), is_run, &mut list)?;
    }
    Ok(list)
}

/// The end at this path that is read.
fn source_at(rt: &HostRuntime, path: &str) -> Result<PipeSource, AllocError>
    ensures { IfOk result (λ source. string_bytes source.path ≡ path.now) }
{
    let path = format!(in rt.alloc(); "{path}")?;
    Ok(PipeSource::new(rt.clone()?, path))
}

/// The end at this path that is written.
fn sink_at(rt: &HostRuntime, path: &str) -> Result<PipeSink, AllocError>
    ensures { IfOk result (λ sink. string_bytes sink.path ≡ path.now) }
{
    let path = format!(in rt.alloc(); "{path}")?;
    Ok(PipeSink::new(rt.clone()?, path))
}

/// What the word of a remote names.
#[derive(Clone, Copy)]
pub enum Named<'a> {
    /// The log at this path.
    Log(&'a str),
    /// The bundle at this path.
    Bundle(&'a str),
    /// The mirror behind a pipe, of which the first path is written and the second read.
    Pipe(&'a str, &'a str),
    /// A mirror behind a pipe, which only a run asks.
    Unasked,
}

/// What the word names.
fn named_by<'a>(word: &'a str, is_run: bool) -> Named<'a>
    ensures { NamesSo is_run word.now result }
{
    match pipe_paths(word) {
        Some((to, from)) if is_run => Named::Pipe(to, from),
        Some(_) => Named::Unasked,
        None => kept_by(word),
    }
}

/// What a word names that names no pipe.
fn kept_by<'a>(word: &'a str) -> Named<'a>
    requires { (to from : List ℕ) → IsPipeWord to from word.now → ⊥ }
    ensures { (is_run : Bool) → NamesSo is_run word.now result }
{
    match bundle_path(word) {
        Some(path) => Named::Bundle(path),
        None => Named::Log(word),
    }
}

/// The paths of the pipe that the word of a remote names: what stands behind `pipe:`, up to the next colon and behind it. `None` where it
/// names no pipe.
fn pipe_paths<'a>(word: &'a str) -> Option<(&'a str, &'a str)>
    ensures some { IfSome result (λ paths. IsPipeWord paths.0.now paths.1.now word.now) }
    ensures none { IfNone result ((to from : List ℕ) → IsPipeWord to from word.now → ⊥) }
{
    let paths = behind_pipe(word)?;
    split_at_colon(paths)
}

/// What stands behind `pipe:`.
fn behind_pipe<'a>(word: &'a str) -> Option<&'a str>
    ensures some { IfSome result (λ paths. word.now ≡ codes "pipe:" ++ paths.now) }
    ensures none { IfNone result ((paths : List ℕ) → word.now ≡ codes "pipe:" ++ paths → ⊥) }
{
    word.strip_prefix("pipe:")
}

/// What stands before the first colon, and behind it. `None` where there is none.
fn split_at_colon<'a>(text: &'a str) -> Option<(&'a str, &'a str)>
    ensures some { IfSome result (λ parts. (text.now ≡ parts.0.now ++ 58 ∷ parts.1.now) × HasNone 58 parts.0.now) }
    ensures none { IfNone result ((to from : List ℕ) → text.now ≡ to ++ 58 ∷ from → ⊥) }
{
    text.split_once(':')
}

/// The path of the bundle that the word of a remote names: what stands behind `bundle:`. `None` where it names a log.
fn bundle_path<'a>(word: &'a str) -> Option<&'a str>
    ensures some { IfSome result (λ path. IsBundleWord path.now word.now) }
    ensures none { IfNone result ((path : List ℕ) → IsBundleWord path word.now → ⊥) }
{
    word.strip_prefix("bundle:")
}

/// The words from one place on up to the one before the last of the first, so many; none where there are no such.
pub fn between<'a>(words: &'a [String], from: usize, end: usize) -> &'a [String]
    requires { end ≤ length words.now }
    ensures words { result.now ≡ drop from (take (end - 1) words.now) }
    ensures few { length result.now ≤ length words.now }
{
    let last = end.saturating_sub(1);
    if last < from {
        return &words[..0];
    }
    &words[from..last]
}
