//! How a disk uses its file.

/// How a disk uses its file, and whom it keeps out. The lock is the system's advisory one on the whole file (`flock`): it
/// keeps out whoever asks for it, ends with the process that has it, and hinders nobody who reads.
#[derive(Clone, Copy, Debug, PartialEq, Eq)]
pub enum Access {
    /// It is read, whoever else has it. Each call fails where there is none.
    Read,
    /// It is read and written, whoever else has it. It is made where there is none.
    Write,
    /// The same, but one of at most a byte, in which nothing is stored yet, is for this disk alone: each call fails where another
    /// one has its lock. So two don't write its first byte.
    Fill,
    /// The same, for this disk alone: each call fails where another one has the lock.
    Own,
    /// The same, and the first call waits until no other has the lock.
    Await,
}
