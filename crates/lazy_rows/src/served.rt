//! A log that grows while it is served by the program's words: a request behind a refresh finds what came.

ghost use Rattle.std.specs.Prelude.{◌≤◌, length};

use dag_run::{Limits, run_lines, top};
use disk_memory::MemoryDisk;
use disk_trait::{Disk, DiskFault};
use line_io::{MemorySink, MemorySource};
use mirror_set::Mirrors;
use remote_store::StoreRemote;
use std::alloc::{AllocError, Global};

/// A disk of which nothing is told. From its second measuring on it has other bytes.
#[derive(Drop)]
struct GrowingDisk {
    first: Vec<u8>,
    later: Vec<u8>,
    sizes: u64,
}

impl GrowingDisk {
    /// The bytes that it has now.
    fn bytes(&self) -> &[u8] {
        if self.sizes < 2 {
            &self.first
        } else {
            &self.later
        }
    }
}

/// Copies the front of the bytes, as many as there is room for, and answers how many.
fn copy(bytes: &[u8], out: &mut [u8]) -> usize
    ensures { result ≤ length out.old }
{
    let count = bytes.len().min(out.len());
    for k in 0..count {
        out[k] = bytes[k];
    }
    count
}

impl Disk for GrowingDisk {
    ghost use Rattle.std.specs.Prelude.{None};

    ghost bytes = { λ _. None };

    ghost told = { λ _. None };

    ghost meanwhile = { λ _. None };

    ghost faults = { λ _. 0 };

    ghost tells = { λ _. tt };

    ghost sound = { λ _. tt };

    fn size(&mut self) -> Result<u64, DiskFault> {
        self.sizes = self.sizes.saturating_add(1);
        Ok(self.bytes().len() as u64)
    }

    fn read(&mut self, _at: u64, out: &mut [u8]) -> Result<usize, DiskFault> {
        Ok(copy(self.bytes(), out))
    }

    fn write(&mut self, _at: u64, _piece: &[u8]) -> Result<(), DiskFault> {
        Ok(())
    }

    fn sync(&mut self) -> Result<(), DiskFault> {
        Ok(())
    }

    fn clock(&self) -> u64 {
        0
    }
}

/// The lines behind the log that is served first.
const ONE: &str = "0 add 00000000000000000000000000000000000000a1
0 flush 00000000000000000000000000000000000000a1
";

/// Those behind the log that it is later: a commit more.
const TWO: &str = "0 add 00000000000000000000000000000000000000a1
0 flush 00000000000000000000000000000000000000a1
0 add 00000000000000000000000000000000000000b1 00000000000000000000000000000000000000a1
0 flush 00000000000000000000000000000000000000b1
";

/// A request for one name, that of the later commit; a refresh; and the same request once more.
const REQUESTS: [u8; 79] = [
    0, 0, 0, 33, 3, 0, 0, 0, 0, 0, 0, 0, 0, 0, 0, 0, 0, 0, 0, 0, 0, 0, 0, 0, 177, 0, 0, 0, 0, 0, 0,
    0, 0, 0, 0, 0, 1, 0, 0, 0, 1, 1, 0, 0, 0, 33, 3, 0, 0, 0, 0, 0, 0, 0, 0, 0, 0, 0, 0, 0, 0, 0,
    0, 0, 0, 0, 177, 0, 0, 0, 0, 0, 0, 0, 0, 0, 0, 0, 1,
];

/// No name, a refresh that was done, and the name.
const ANSWERS: [u8; 43] = [
    0, 0, 0, 5, 131, 0, 0, 0, 0, 0, 0, 0, 1, 129, 0, 0, 0, 25, 131, 0, 0, 0, 1, 0, 0, 0, 0, 0, 0,
    0, 0, 0, 0, 0, 0, 0, 0, 0, 0, 0, 0, 0, 177,
];

/// A mirror of a log that grows.
type Growing = StoreRemote<GrowingDisk>;

/// Answers lines over a disk, beside nobody.
fn run_alone(alloc: Global, lines: &str, disk: &mut MemoryDisk) -> Result<(), AllocError> {
    let mut input = MemorySource::new(alloc, lines.as_bytes(), 100, &[])?;
    let mut unheard = MemorySink::new(alloc, &[])?;
    let mut nobody: Mirrors<Growing> = Mirrors::new(Vec::new(alloc));
    let limits = Limits::standard();
    let _ended = run_lines(
        alloc,
        limits,
        1,
        disk,
        &mut nobody,
        &mut input,
        &mut unheard,
    );
    Ok(())
}

/// The log behind lines.
fn log_of(alloc: Global, lines: &str) -> Result<Vec<u8>, AllocError> {
    let mut disk = MemoryDisk::new(alloc, &[], &[], None)?;
    run_alone(alloc, lines, &mut disk)?;
    let mut bytes = Vec::new(alloc);
    bytes.extend_from_slice(disk.bytes())?;
    Ok(bytes)
}

/// The mirror of these two logs.
fn growing(alloc: Global) -> Result<Growing, AllocError> {
    let disk = GrowingDisk {
        first: log_of(alloc, ONE)?,
        later: log_of(alloc, TWO)?,
        sizes: 0,
    };
    Ok(StoreRemote::new(disk, Limits::standard()))
}

/// That mirror alone.
fn alone(alloc: Global) -> Result<Mirrors<Growing>, AllocError> {
    let mut list = Vec::new(alloc);
    list.push(growing(alloc)?)?;
    if list.len() > 1 {
        return Err(AllocError);
    }
    Ok(Mirrors::new(list))
}

/// The program's word for serving.
fn words(alloc: Global) -> Result<Vec<String>, AllocError> {
    let mut words = Vec::new(alloc);
    words.push(String::from_str(alloc, "serve")?)?;
    Ok(words)
}

/// The status of serving the mirror.
fn served(
    alloc: Global,
    mirrors: &mut Mirrors<Growing>,
    output: &mut MemorySink,
) -> Result<u8, AllocError> {
    let words = words(alloc)?;
    let mut log = MemoryDisk::new(alloc, &[], &[], None)?;
    let mut spare = MemoryDisk::new(alloc, &[], &[], None)?;
    let mut input = MemorySource::new(alloc, &REQUESTS, 100, &[])?;
    let report = top(
        alloc, &words, &mut log, &mut spare, mirrors, &mut input, output,
    );
    Ok(report.status)
}

/// Whether the requests are answered so.
fn are_answered(alloc: Global) -> Result<bool, AllocError> {
    let mut output = MemorySink::new(alloc, &[])?;
    let mut mirrors = alone(alloc)?;
    let status = served(alloc, &mut mirrors, &mut output)?;
    Ok(status == 0 && output.bytes() == ANSWERS.as_slice())
}

#[test]
fn a_served_log_that_grew_is_seen_behind_a_refresh(rt: HostRuntime) -> Result<(), AllocError> {
    assert!(rt; are_answered(rt.alloc())?);
    Ok(())
}
