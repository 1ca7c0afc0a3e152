//! The codes that C is told.

ghost use Rattle.std.specs.Prelude.{◌≡◌};
ghost use Rattle.segdag_c.specs.Codes.{failure_code, refusal_code};

use step_rules::Refusal;

/// What C is told of a call that did what it is for.
pub(crate) const DONE: u32 = 0;

/// Why a call didn't do what it is for.
#[derive(Clone, Copy)]
pub enum Failure {
    /// The log's disk failed, now or before, or there was no memory to note a write.
    Disk,
    /// The bytes are no log.
    NoLog,
    /// There was no memory for the reply of a line that was executed.
    Reply,
    /// There was no memory, and nothing was done.
    Memory,
    /// No log is open.
    Closed,
    /// A log is open.
    AlreadyOpen,
    /// An argument is none: a session, a number of bytes or a size of a cache.
    Argument,
    /// The text is no expression.
    Syntax,
    /// The store refuses.
    Refused(Refusal),
}

/// The code of a refusal.
fn code_of_refusal(refusal: Refusal) -> u32
    ensures { result ≡ refusal_code refusal }
{
    match refusal {
        Refusal::Memory => 7,
        Refusal::Unknown(_) => 33,
        Refusal::Twice(_) => 34,
        Refusal::Differs(_) => 35,
        Refusal::Conflict(_) => 36,
        Refusal::Lost(_) => 37,
        Refusal::InMaster(_) => 38,
        Refusal::Emptied(_) => 39,
        Refusal::Full(_, _) => 40,
        Refusal::Answer(_) => 41,
        Refusal::NotEmpty(_, _) => 42,
        Refusal::Pending(_) => 43,
        Refusal::NoRemote => 44,
        Refusal::Remote(_) => 45,
        Refusal::MismatchPath(_, _) => 46,
        Refusal::MismatchNames(_, _) => 47,
        Refusal::MismatchClone(_) => 48,
        Refusal::MismatchRow(_) => 49,
    }
}

/// The code of a failure.
pub(crate) fn code_of(failure: Failure) -> u32
    ensures { result ≡ failure_code failure }
{
    match failure {
        Failure::Disk => 3,
        Failure::NoLog => 4,
        Failure::Reply => 6,
        Failure::Memory => 7,
        Failure::Closed => 17,
        Failure::AlreadyOpen => 18,
        Failure::Argument => 19,
        Failure::Syntax => 32,
        Failure::Refused(refusal) => code_of_refusal(refusal),
    }
}
