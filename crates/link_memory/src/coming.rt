//! Bytes that are to come.

ghost use Rattle.std.specs.Prelude.{◌≡◌, ◌≤◌, ◌<◌, ◌+◌, [], length, take, drop, ◌++◌, OnOk, OnErr};
ghost use Rattle.remote_serve.specs.Answers.{IsAnswerTo, Answer, frame_of};
ghost use Rattle.link_memory.specs.Over.{coming_of};

use crate::wrong::{Wrong, spoil};
use remote_serve::answer_frame;
use remote_trait::Remote;
use std::alloc::{AllocError, Global};
use std::collections::VecDeque;
use std::marker::Model;

/// The frames of answers that are still to come, of the first of which so many bytes came already.
#[derive(Drop)]
pub(crate) struct Coming {
    first: Vec<u8>,
    at: usize,
    later: VecDeque<Vec<u8>>,
}

impl Model for Coming {
    ghost use Rattle.std.specs.Prelude.{List, ℕ, ◌≤◌, length};
    ghost use Rattle.link_memory.specs.Over.{coming_of};

    ghost Value = { List ℕ };

    ghost view = { λ c. coming_of c.at c.first.items c.later.items };

    ghost invariant = { λ c. c.at ≤ length c.first.items };
}

impl Coming {
    /// None are.
    pub(crate) fn none(alloc: Global) -> Coming
        ensures { result ≡ [] }
    {
        Coming {
            first: Vec::new(alloc),
            at: 0,
            later: VecDeque::new(alloc),
        }
    }

    /// Puts the frame of the answer to a request behind the others.
    pub(crate) fn add_answer<R: Remote>(
        &mut self,
        alloc: Global,
        remote: &mut R,
        body: &[u8],
    ) -> Result<(), AllocError>
        ensures added { OnOk result ((answer : Answer) × IsAnswerTo body.now (R.shown remote.old) (R.shown remote.new) answer × (self.new ≡ self.old ++ frame_of answer)) }
        ensures same { OnErr result (self.new ≡ self.old) }
        ensures quiet { OnErr result (remote.new ≡ remote.old) }
    {
        self.later.reserve(1)?;
        let frame = answer_frame(alloc, remote, body)?;
        self.later.push_back_reserved(frame);
        Ok(())
    }

    /// Makes of the newest answer what is wrong about it.
    pub(crate) fn spoil(&mut self, wrong: Wrong) -> Result<(), AllocError> {
        match self.later.back_mut() {
            Some(frame) => spoil(frame, wrong),
            None => Ok(()),
        }
    }

    /// Whether some are.
    pub(crate) fn has_some(&mut self) -> bool
        ensures { self.new ≡ self.old }
    {
        move_on(&mut self.first, &mut self.at, &mut self.later);
        self.at < self.first.len()
    }

    /// Takes as many of one answer as fit, and at most so many, to the front of `out`.
    pub(crate) fn take(&mut self, out: &mut [u8], most: usize) -> usize
        requires some { 0 < most }
        requires room { 0 < length out.old }
        ensures len { length out.new ≡ length out.old }
        ensures bound { result ≤ length out.new }
        ensures parts { self.old ≡ take result out.new ++ self.new }
        ensures end { result ≡ 0 → self.new ≡ [] }
    {
        move_on(&mut self.first, &mut self.at, &mut self.later);
        take_part(&self.first, &mut self.at, out, most)
    }
}

/// Moves on to the next frame while all of the first one came.
fn move_on(first: &mut Vec<u8>, at: &mut usize, later: &mut VecDeque<Vec<u8>>)
    requires { at.old ≤ length first.old.items }
    ensures within { at.new ≤ length first.new.items }
    ensures same { coming_of at.new first.new.items later.new.items ≡ coming_of at.old first.old.items later.old.items }
    ensures end { length first.new.items ≤ at.new → later.new.items ≡ [] }
{
    'frames: while *at >= first.len() {
        match later.pop_front() {
            Some(frame) => {
                *first = frame;
                *at = 0;
            }
            None => return,
        }
    }
}

/// Takes as many bytes of a frame, behind those that came, as fit, and at most so many.
fn take_part(frame: &[u8], at: &mut usize, out: &mut [u8], most: usize) -> usize
    requires some { 0 < most }
    requires room { 0 < length out.old }
    requires within { at.old ≤ length frame.now }
    ensures within { at.new ≤ length frame.now }
    ensures len { length out.new ≡ length out.old }
    ensures bound { result ≤ length out.new }
    ensures parts { drop at.old frame.now ≡ take result out.new ++ drop at.new frame.now }
    ensures moved { at.new ≡ at.old + result }
    ensures end { result ≡ 0 → length frame.now ≤ at.old }
{
    let left = frame.len() - *at;
    let count = left.min(out.len()).min(most);
    out[..count].copy_from_slice(&frame[*at..*at + count]);
    *at += count;
    count
}
