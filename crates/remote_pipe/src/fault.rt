//! Why a link or a mirror behind it didn't answer.

/// A call of the link failed.
#[derive(Clone, Copy, PartialEq, Eq, Debug)]
pub struct LinkFault;

/// Why no more is asked over a link.
#[derive(Clone, Copy, PartialEq, Eq, Debug)]
pub enum PipeFault {
    /// A request wasn't put whole.
    NotPut,
    /// The link failed before an answer was whole.
    NotTaken,
    /// The bytes ended before an answer was whole.
    Ended,
    /// A length came that no answer has.
    BadLength,
    /// The body in a frame was no answer to the request.
    NoAnswer,
    /// There was no memory for the body in a frame.
    Memory,
}
