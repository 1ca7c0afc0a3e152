//! What may be wrong about an answer on its way.

ghost use Rattle.std.specs.Prelude.{◌≡◌, IfSome, is_some, true, None};

use std::alloc::AllocError;

/// What is wrong about an answer.
#[derive(Clone, Copy)]
pub enum Wrong {
    /// The link fails where the request is put.
    NotPut,
    /// The link fails where the answer is taken, and nothing comes from then on.
    NotTaken,
    /// So many of its bytes come, and then they end, and nothing comes from then on.
    Stops(usize),
    /// The byte at this place of its frame is another one. Its length ends at place 3, its tag stands at 4, and the count of what is told
    /// ends at 8.
    Differs(usize),
    /// One byte more stands in its frame.
    Longer,
    /// These bytes come in its place.
    Instead(&'static [u8]),
}

/// How answers come.
#[derive(Clone, Copy)]
pub struct Way {
    /// The most bytes that are taken at once, or 1.
    pub piece: u32,
    /// The number of the request, from 1, about whose answer something is wrong, and what.
    pub wrong: Option<(u64, Wrong)>,
}

impl Way {
    /// Answers come as they are, at most so many bytes at once.
    pub fn whole(piece: u32) -> Way
        ensures { result.wrong ≡ None }
    {
        Way { piece, wrong: None }
    }

    /// The same, but the answer to the request with this number.
    pub fn broken(piece: u32, request: u64, wrong: Wrong) -> Way {
        Way {
            piece,
            wrong: Some((request, wrong)),
        }
    }

    /// What is wrong about the answer to the request with this number.
    pub(crate) fn wrong_at(&self, request: u64) -> Option<Wrong>
        ensures { IfSome result (λ _. is_some self.now.wrong ≡ true) }
    {
        match self.wrong {
            Some((number, wrong)) => wrong.at(request, number),
            None => None,
        }
    }
}

impl Wrong {
    /// What is wrong about the answer to a request, where this is about that to another one.
    fn at(self, request: u64, number: u64) -> Option<Wrong> {
        if request == number {
            return Some(self);
        }
        match self {
            Wrong::NotTaken | Wrong::Stops(_) if number < request => Some(Wrong::Stops(0)),
            _ => None,
        }
    }
}

/// Makes the frame one byte longer.
fn lengthen(frame: &mut Vec<u8>) -> Result<(), AllocError> {
    let len = frame.len();
    if len < 4 || len >= 1 << 31 {
        return Err(AllocError);
    }
    frame.push(0)?;
    let size = (len - 3) as u32;
    frame[..4].copy_from_slice(&size.to_be_bytes());
    Ok(())
}

/// Makes the frame what is wrong about it.
pub(crate) fn spoil(frame: &mut Vec<u8>, wrong: Wrong) -> Result<(), AllocError> {
    match wrong {
        Wrong::NotPut => Ok(()),
        Wrong::NotTaken => {
            frame.clear();
            Ok(())
        }
        Wrong::Stops(count) => {
            frame.truncate(count);
            Ok(())
        }
        Wrong::Differs(place) => {
            if place < frame.len() {
                frame[place] ^= 0x40;
            }
            Ok(())
        }
        Wrong::Longer => lengthen(frame),
        Wrong::Instead(bytes) => {
            frame.clear();
            frame.extend_from_slice(bytes)
        }
    }
}
