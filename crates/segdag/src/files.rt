//! The files of the log.

ghost use Rattle.std.specs.Prelude.{◌≡◌, ◌++◌, string_bytes, is_some, codes, IfOk, if◌then◌else◌};
ghost use Rattle.segdag.specs.Files.{access_by, own_status_of};

use file_disk::{Access, FileDisk};
use program_words::Mode;
use std::alloc::AllocError;

/// The status where the disk failed.
const DISK_FAILED: u8 = 3;

/// The status where the log was never opened.
pub const NOT_OPENED: u8 = 9;

/// The files of a log: its own, and the one to which it is written anew. Neither is opened yet.
#[derive(Drop)]
pub struct LogFiles {
    pub log: FileDisk<HostRuntime>,
    pub spare: FileDisk<HostRuntime>,
}

/// How a mode uses the log, which may be waited for.
pub fn access_in(mode: Mode, wait: bool) -> Access
    ensures { result ≡ access_by mode wait }
{
    match mode {
        Mode::Demo | Mode::Serve => Access::Read,
        Mode::Bundle => Access::Fill,
        Mode::Run | Mode::Compact => keeping(wait),
    }
}

/// The access of who keeps the log for himself, and may wait for it.
fn keeping(wait: bool) -> Access
    ensures { result ≡ if wait then Access.Await else Access.Own }
{
    if wait {
        return Access::Await;
    }
    Access::Own
}

/// The file at this path, used so.
fn file_at(
    rt: &HostRuntime,
    path: String,
    access: Access,
) -> Result<FileDisk<HostRuntime>, AllocError>
    ensures path { IfOk result (λ disk. disk.path ≡ path) }
    ensures access { IfOk result (λ disk. disk.access ≡ access) }
{
    Ok(FileDisk::new(rt.clone()?, path, access))
}

/// The files of the log at this path: the log is used so, and its spare file has `.new` behind the path and is made where
/// it is written to.
pub fn files_at(rt: &HostRuntime, path: &str, access: Access) -> Result<LogFiles, AllocError>
    ensures log { IfOk result (λ files. (string_bytes files.log.path ≡ path.now) × (files.log.access ≡ access)) }
    ensures spare { IfOk result (λ files. (string_bytes files.spare.path ≡ path.now ++ codes ".new") × (files.spare.access ≡ Access.Write)) }
{
    let log = format!(in rt.alloc(); "{path}")?;
    let spare = format!(in rt.alloc(); "{path}.new")?;
    Ok(LogFiles {
        log: file_at(rt, log, access)?,
        spare: file_at(rt, spare, Access::Write)?,
    })
}

/// The program's own status: where the disk failed and the log was never opened it is another one.
pub fn own_status(status: u8, log: &FileDisk<HostRuntime>) -> u8
    ensures { result ≡ own_status_of status (is_some log.now.file) }
{
    if status == DISK_FAILED && !log.opened() {
        return NOT_OPENED;
    }
    status
}
