//! The texts of lines.

ghost use Rattle.std.specs.Prelude.{◌≡◌, ◌≤◌, ◌++◌, ◌∷◌, [], OnOk, IfOk};
ghost use Rattle.demo_input.specs.Drawing.{drawn_parents, parents_at};
ghost use Rattle.demo_input.specs.Lines.{commit_name, names_text, add_text, flush_text, ancestors_text};

use crate::drawing::{distance, drawn};
use id_groups::Name;
use std::alloc::{AllocError, Global};

/// The name of a commit.
pub fn commit_name(commit: u32) -> Name
    ensures { result ≡ commit_name commit }
{
    let mut bytes = [0; 20];
    bytes[12..].copy_from_slice(&(u64::from(commit) + 1).to_be_bytes());
    Name::from_bytes(bytes)
}

/// Appends a blank and the name of a commit.
fn push_name(line: &mut Vec<u8>, commit: u32) -> Result<(), AllocError>
    ensures { OnOk result (line.new.items ≡ line.old.items ++ names_text (commit ∷ [])) }
{
    line.push(b' ')?;
    line.extend_from_slice(&commit_name(commit).to_hex())
}

/// Appends the parents of a commit that is neither the first nor the second.
fn push_drawn(line: &mut Vec<u8>, commit: u32, drawn: u64) -> Result<(), AllocError>
    requires { 2 ≤ commit }
    ensures { OnOk result (line.new.items ≡ line.old.items ++ names_text (drawn_parents commit drawn)) }
{
    let far = commit - 1 - distance(commit, drawn);
    match drawn % 16 {
        0 => {
            push_name(line, commit - 1)?;
            push_name(line, far)
        }
        1 => push_name(line, far),
        _ => push_name(line, commit - 1),
    }
}

/// Appends the parents of a commit where this number is reached.
fn push_parents(line: &mut Vec<u8>, commit: u32, number: u64) -> Result<(), AllocError>
    ensures { OnOk result (line.new.items ≡ line.old.items ++ names_text (parents_at commit number)) }
{
    match commit {
        0 => Ok(()),
        1 => push_name(line, 0),
        _ => push_drawn(line, commit, drawn(number)),
    }
}

/// A line that begins with this text.
pub fn line_of(alloc: Global, text: &[u8]) -> Result<Vec<u8>, AllocError>
    ensures { IfOk result (λ line. line.items ≡ text.now) }
{
    let mut line = Vec::new(alloc);
    line.extend_from_slice(text)?;
    Ok(line)
}

/// The line that adds a commit where this number is reached.
pub fn add_line(alloc: Global, commit: u32, number: u64) -> Result<Vec<u8>, AllocError>
    ensures { IfOk result (λ line. line.items ≡ add_text commit number) }
{
    let mut line = line_of(alloc, b"0 add")?;
    push_name(&mut line, commit)?;
    push_parents(&mut line, commit, number)?;
    Ok(line)
}

/// The line that flushes a commit.
pub fn flush_line(alloc: Global, commit: u32) -> Result<Vec<u8>, AllocError>
    ensures { IfOk result (λ line. line.items ≡ flush_text commit) }
{
    let mut line = line_of(alloc, b"0 flush")?;
    push_name(&mut line, commit)?;
    Ok(line)
}

/// The line that counts the ancestors of a commit.
pub fn ancestors_line(alloc: Global, commit: u32) -> Result<Vec<u8>, AllocError>
    ensures { IfOk result (λ line. line.items ≡ ancestors_text commit) }
{
    let mut line = line_of(alloc, b"0 count ancestors(")?;
    line.extend_from_slice(&commit_name(commit).to_hex())?;
    line.push(b')')?;
    Ok(line)
}
