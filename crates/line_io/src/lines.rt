//! The lines of a source.

ghost use Rattle.std.specs.Prelude.{◌≡◌, ◌<◌, ◌≤◌, ◌+◌, ◌-◌, ◌↔◌, [], length, take, drop, MatchResult, MatchOption, position, ◌==◌, IfOk, OnOk, ◌≢◌, IsTrue, IsOk, false, true};
ghost use Rattle.std.specs.Str.Lines.{strip_carriage_return};
ghost use Rattle.std.specs.Io.KnownBytes.{Keeps};
ghost use Rattle.outside.specs.Counts.{Rose, HasCause};
ghost use Rattle.outside.specs.Parts.{HasNone};
ghost use Rattle.outside.specs.Told.{WhereTold};
ghost use Rattle.line_io.specs.Reading.{Reading, new_reading, is_over, budget};
ghost use Rattle.line_io.specs.Next.{NextLine, IsDone, IsReadOut};
ghost use Rattle.line_io.specs.Steps.{EndsAt, LendsLine, LendsRest, Fills, MakesSpace, turns, capacity};
ghost use Rattle.line_io.specs.declared.lines.Line.{Line};

use crate::{Source, SourceFault};
use memchr::memchr;
use std::alloc::{AllocError, Global};
use std::marker::Model;

/// How many bytes a line has at most, without its end.
const LINE_LIMIT: usize = 16_384;

/// The length of the buffer: room for several lines and their ends.
const CAPACITY: usize = 65_536;

/// The next line of an input.
#[derive(Clone, Copy, PartialEq, Eq, Debug)]
pub enum Line {
    /// The line is lent by `Lines::text`.
    Text,
    /// The line is longer than 16,384 bytes, its end not counted.
    TooLong,
}

/// Why there is no next line.
#[derive(Clone, Copy, PartialEq, Eq, Debug)]
pub enum LineFault {
    /// The source failed, and no whole line was left among the bytes that it gave.
    Read,
    /// The source gave more bytes than the limit, and no whole line is left within it.
    Limit,
}

impl From<SourceFault> for LineFault {
    ghost use Rattle.std.specs.Prelude.{◌≡◌};
    ghost use Rattle.line_io.specs.declared.lines.LineFault.TheVariants.{Read};

    ghost from_gives = { λ _ fault. fault ≡ Read };

    fn from(_fault: SourceFault) -> LineFault {
        LineFault::Read
    }
}

/// The lines of a source: a buffer with the bytes that were read and are not yet part of a line.
#[derive(Drop)]
pub struct Lines {
    buffer: Vec<u8>,
    held_start: usize,
    held_end: usize,
    /// Among the first so many held bytes there is no line feed.
    scanned: usize,
    text_start: usize,
    text_end: usize,
    room: u64,
    over: bool,
    ended: bool,
}

impl Model for Lines {
    ghost use Rattle.std.specs.Prelude.{◌≡◌, ◌-◌, ◌≤◌, take, drop, length, true};
    ghost use Rattle.outside.specs.Parts.{HasNone};
    ghost use Rattle.line_io.specs.Reading.{Reading};

    ghost Value = { Reading };

    ghost view = { λ l. record {
      held = take (l.held_end - l.held_start) (drop l.held_start l.buffer.items);
      text = take (l.text_end - l.text_start) (drop l.text_start l.buffer.items);
      room = l.room;
      over = l.over;
      ended = l.ended;
    } };

    ghost invariant = { λ l. (length l.buffer.items ≡ 65536)
        × (l.held_start ≤ l.held_end) × (l.held_end ≤ 65536)
        × (l.text_start ≤ l.text_end) × (l.text_end ≤ 65536)
        × (l.over ≡ true → l.room ≡ 0)
        × (l.scanned ≤ l.held_end - l.held_start)
        × HasNone 10 (take l.scanned (take (l.held_end - l.held_start) (drop l.held_start l.buffer.items))) };
}

/// Moves the held bytes to the front where none are held or the space behind them is used up, and answers where they
/// start.
fn make_free(buffer: &mut [u8], start: usize, end: usize) -> usize
    requires within { start ≤ end }
    requires bound { end ≤ length buffer.old }
    ensures len { length buffer.new ≡ length buffer.old }
    ensures moved { take (end - start) (drop result buffer.new) ≡ take (end - start) (drop start buffer.old) }
    ensures bound { result + (end - start) ≤ length buffer.old }
    ensures free { end - start < length buffer.old → result + (end - start) < length buffer.old }
{
    if start < end && end < buffer.len() {
        return start;
    }
    buffer.copy_within(start..end, 0);
    0
}

/// The place of the first line feed.
fn first_line_feed(bytes: &[u8]) -> Option<usize>
    ensures { result ≡ position (λ b. b == 10) bytes.now }
{
    memchr(b'\n', bytes)
}

impl Lines {
    /// No line yet, of an input of which `limit` bytes count. The buffer is taken here.
    pub fn new(alloc: Global, limit: u64) -> Result<Lines, AllocError>
        ensures { IfOk result (λ lines. lines ≡ new_reading limit) }
    {
        Ok(Lines {
            buffer: vec![in alloc; 0; CAPACITY]?,
            held_start: 0,
            held_end: 0,
            scanned: 0,
            text_start: 0,
            text_end: 0,
            room: limit,
            over: false,
            ended: false,
        })
    }

    /// The line that the last `next` went to, without its end; empty where that was no text.
    pub fn text<'a>(&'a self) -> &'a [u8]
        ensures { result.now ≡ self.now.text }
    {
        &self.buffer[self.text_start..self.text_end]
    }

    /// How long the line at the front of the held bytes is, if they have its line feed. No byte is looked at twice.
    fn line_length(&mut self) -> Option<usize>
        ensures found { MatchOption result (HasNone 10 self.old.held) (EndsAt self.old.held) }
        ensures same { self.new ≡ self.old }
    {
        match first_line_feed(&self.buffer[self.held_start + self.scanned..self.held_end]) {
            Some(ahead) => Some(self.scanned + ahead),
            None => {
                self.scanned = self.held_end - self.held_start;
                None
            }
        }
    }

    fn is_over(&self) -> bool
        ensures over { result ≡ self.now.over }
        ensures no_room { IsTrue result → self.now.room ≡ 0 }
    {
        self.over
    }

    fn is_ended(&self) -> bool
        ensures { result ≡ self.now.ended }
    {
        self.ended
    }

    fn is_full(&self) -> bool
        ensures full { IsTrue result ↔ (length self.now.held ≡ capacity) }
        ensures within { length self.now.held ≤ capacity }
    {
        self.held_end - self.held_start == CAPACITY
    }

    fn clear_text(&mut self)
        ensures { self.new ≡ record self.old { text = [] } }
    {
        self.text_start = 0;
        self.text_end = 0;
    }

    fn drop_held(&mut self)
        ensures { self.new ≡ record self.old { held = [] } }
    {
        self.held_end = self.held_start;
        self.scanned = 0;
    }

    /// Lends the first `len` held bytes, unless they are too long for a line.
    fn lend(&mut self, len: usize, is_skipping: bool) -> Line
        requires { len ≤ length self.old.held }
        ensures lent { LendsLine result is_skipping (take len self.old.held) self.new.text }
        ensures rest { self.new ≡ record self.old { text = self.new.text } }
        ensures kept { result ≢ Line.Text → self.new.text ≡ self.old.text }
    {
        if is_skipping || len > LINE_LIMIT {
            return Line::TooLong;
        }
        self.text_start = self.held_start;
        self.text_end = self.held_start + len;
        Line::Text
    }

    /// Goes behind the line of this length at the front of the held bytes, whose line feed is held too.
    fn take_line(&mut self, len: usize, is_skipping: bool) -> Line
        requires { len < length self.old.held }
        ensures lent { LendsLine result is_skipping (strip_carriage_return (take len self.old.held)) self.new.text }
        ensures rest { self.new ≡ record self.old { held = drop (len + 1) self.old.held; text = self.new.text } }
        ensures kept { result ≢ Line.Text → self.new.text ≡ self.old.text }
    {
        let ends_in_return = len > 0 && self.buffer[self.held_start + len - 1] == b'\r';
        let text_len = if ends_in_return { len - 1 } else { len };
        let line = self.lend(text_len, is_skipping);
        self.held_start += len + 1;
        self.scanned = 0;
        line
    }

    /// Goes behind the last line, which no line feed ends.
    fn take_rest(&mut self, is_skipping: bool) -> Option<Line>
        ensures lent { LendsRest result is_skipping self.old.held self.new.text }
        ensures rest { self.new ≡ record self.old { held = []; text = self.new.text } }
        ensures kept { result ≢ Some Line.Text → self.new.text ≡ self.old.text }
    {
        let len = self.held_end - self.held_start;
        if len == 0 && !is_skipping {
            return None;
        }
        let line = self.lend(len, is_skipping);
        self.drop_held();
        Some(line)
    }

    /// Drops the held bytes where they fill the buffer, and says whether they did.
    fn make_space(&mut self) -> bool
        ensures { MakesSpace result self.old self.new }
    {
        let is_full = self.is_full();
        if is_full {
            self.drop_held();
        }
        is_full
    }

    /// Moves bytes of the source behind the held ones, as far as they have room, or comes to its end.
    fn fill<S: Source>(&mut self, source: &mut S) -> Result<(), SourceFault>
        requires space { length self.old.held < capacity }
        // the source isn't called while a whole line is held
        requires no_line { HasNone 10 self.old.held }
        requires no_text { self.old.text ≡ [] }
        requires below_limit { self.old.over ≡ false }
        requires going_on { self.old.ended ≡ false }
        ensures bytes { MatchResult result
            (λ _. WhereTold (S.left source.old) (S.left source.new) (Fills self.old self.new))
            (λ _. Keeps (S.left source.old) (S.left source.new)) }
        ensures no_text { self.new.text ≡ [] }
        ensures less { IsOk result → turns self.new < turns self.old }
        ensures budget { OnOk result (budget self.new ≤ budget self.old) }
        ensures cause { HasCause (S.faults source.old) (S.faults source.new) result }
    {
        let start = make_free(&mut self.buffer, self.held_start, self.held_end);
        self.held_end = start + (self.held_end - self.held_start);
        self.held_start = start;
        let count = source.fill(&mut self.buffer[self.held_end..])?;
        let kept = self.room.min(count as u64);
        self.held_end += kept as usize;
        self.room -= kept;
        self.over = kept < count as u64;
        self.ended = count == 0;
        Ok(())
    }

    /// Goes to the next line of the bytes that are held and of those that the source has left; `None` is the end of
    /// the input, and of each further call. The source is called only while no whole line is held, and not again once
    /// it came to its end.
    pub fn next<S: Source>(&mut self, source: &mut S) -> Result<Option<Line>, LineFault>
        ensures line { WhereTold (S.left source.old) (S.left source.new)
            (λ before after. NextLine result self.old before self.new after) }
        ensures later { S.faults source.old ≤ S.faults source.new }
        ensures less { (kind : Line) → result ≡ Ok (Some kind) → budget self.new < budget self.old }
        ensures untouched { ¬ (HasNone 10 self.old.held) → source.new ≡ source.old }
        ensures silent { self.old.ended ≡ true → source.new ≡ source.old }
        ensures no_text { result ≢ Ok (Some Line.Text) → self.new.text ≡ [] }
        ensures done { result ≡ Ok None → IsDone self.new }
        ensures end { OnOk result (WhereTold (S.left source.old) (S.left source.new)
            (λ before after. IsReadOut self.old before → IsReadOut self.new after)) }
        ensures read { result ≡ Err LineFault.Read → Rose (S.faults source.old) (S.faults source.new) }
    {
        self.clear_text();
        let mut is_skipping = false;
        'turns: loop {
            if let Some(len) = self.line_length() {
                return Ok(Some(self.take_line(len, is_skipping)));
            }
            if self.is_over() {
                return Err(LineFault::Limit);
            }
            if self.is_ended() {
                return Ok(self.take_rest(is_skipping));
            }
            if self.make_space() {
                is_skipping = true;
            }
            self.fill(source)?;
        }
    }
}
