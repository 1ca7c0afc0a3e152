//! The three standard descriptors.

use std::fs::File;
use std::{fs, io};

/// What stands where a standard stream was closed.
const NOTHING: &str = "/dev/null";

/// The files that keep the descriptors of standard input, output and error, where those were closed.
#[derive(Drop)]
pub struct Standard {
    _input: File,
    _output: File,
    _error: File,
}

/// Takes the descriptors of standard streams that were closed, before any file is opened: a log that got one of them would be written over
/// by replies. A new file has the lowest descriptor that is free, so three of them fill what is closed. They are for reading alone: a closed
/// standard input is at its end, and what is put to a closed standard output fails.
pub fn fill_standard(rt: &HostRuntime) -> io::Result<Standard> {
    Ok(Standard {
        _input: fs::open(rt, NOTHING)?,
        _output: fs::open(rt, NOTHING)?,
        _error: fs::open(rt, NOTHING)?,
    })
}
