//! The lines, one behind the other.

ghost use Rattle.std.specs.Prelude.{◌≡◌, ◌<◌, ◌≤◌, ◌++◌, [], ◌∷◌, length, map, IfOk, IfSome, OnOk, OnErr, MatchOption};
ghost use Rattle.demo_input.specs.Lines.{ancestors_text, is_flushed, commit_lines, last_lines};

use crate::drawing::number_for;
use crate::text::{add_line, ancestors_line, flush_line, line_of};
use std::alloc::{AllocError, Global};
use std::marker::Model;

/// The lines of a demonstration's commits. Contracts see the list of those that are left.
#[derive(Drop)]
pub struct CommitLines {
    size: u32,
    start: u64,
    /// The commit that is added next.
    commit: u32,
    /// The number that was reached for the commit before.
    number: u64,
    /// Whether the commit before is flushed next.
    is_flush_due: bool,
}

impl Model for CommitLines {
    ghost use Rattle.std.specs.Prelude.{◌≡◌, ◌≤◌, ◌-◌, ◌++◌, List, ℕ, true};
    ghost use Rattle.demo_input.specs.Drawing.{after_draws};
    ghost use Rattle.demo_input.specs.Lines.{flush_lines, lines_from};

    ghost Value = { List (List ℕ) };

    ghost view = { λ c. flush_lines c.is_flush_due (c.commit - 1) ++ lines_from c.size c.start c.commit };

    ghost invariant = { λ c. (c.commit ≤ c.size) × (c.number ≡ after_draws c.start (c.commit - 2))
        × (c.is_flush_due ≡ true → 1 ≤ c.commit) };
}

/// Whether a flush follows this commit.
fn is_flushed(size: u32, commit: u32) -> bool
    requires { commit < size }
    ensures { result ≡ is_flushed size commit }
{
    (commit + 1) % 1000 == 0 || commit + 1 == size
}

impl CommitLines {
    /// The lines of so many commits, whose parents are drawn from this number on.
    pub fn new(size: u32, start: u64) -> CommitLines
        ensures { result ≡ commit_lines size start }
    {
        CommitLines {
            size,
            start,
            commit: 0,
            number: start,
            is_flush_due: false,
        }
    }

    /// Makes the next line, if there is one; where memory is wanting it is still the next one.
    pub fn next_line(&mut self, alloc: Global) -> Result<Option<Vec<u8>>, AllocError>
        ensures ok { IfOk result (λ next. MatchOption next ((self.old ≡ []) × (self.new ≡ [])) (λ line. self.old ≡ line.items ∷ self.new)) }
        ensures short { IfOk result (λ next. IfSome next (λ line. length line.items ≤ 128)) }
        ensures err { OnErr result (self.new ≡ self.old) }
    {
        if self.is_flush_due {
            let line = flush_line(alloc, self.commit - 1)?;
            self.is_flush_due = false;
            return Ok(Some(line));
        }
        if self.commit == self.size {
            return Ok(None);
        }
        let number = number_for(self.commit, self.number);
        let line = add_line(alloc, self.commit, number)?;
        self.number = number;
        self.is_flush_due = is_flushed(self.size, self.commit);
        self.commit += 1;
        Ok(Some(line))
    }
}

/// Adds a line that has this text.
fn push_text(alloc: Global, lines: &mut Vec<Vec<u8>>, text: &[u8]) -> Result<(), AllocError>
    ensures { OnOk result (map (λ line. line.items) lines.new.items ≡ map (λ line. line.items) lines.old.items ++ text.now ∷ []) }
{
    lines.push(line_of(alloc, text)?)?;
    Ok(())
}

/// Adds the line that counts the ancestors of a commit.
fn push_ancestors(alloc: Global, lines: &mut Vec<Vec<u8>>, commit: u32) -> Result<(), AllocError>
    ensures { OnOk result (map (λ line. line.items) lines.new.items ≡ map (λ line. line.items) lines.old.items ++ ancestors_text commit ∷ []) }
{
    lines.push(ancestors_line(alloc, commit)?)?;
    Ok(())
}

/// The last four lines, whose replies are printed.
pub fn last_lines(alloc: Global, size: u32) -> Result<Vec<Vec<u8>>, AllocError>
    requires { 1 ≤ size }
    ensures { IfOk result (λ lines. map (λ line. line.items) lines.items ≡ last_lines size) }
{
    let mut lines = Vec::new(alloc);
    push_text(alloc, &mut lines, b"0 status")?;
    push_ancestors(alloc, &mut lines, size - 1)?;
    push_text(alloc, &mut lines, b"0 count merges(all)")?;
    push_text(alloc, &mut lines, b"0 count heads(all)")?;
    Ok(lines)
}
