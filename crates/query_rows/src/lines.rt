//! Graphs as command lines, and the replies that these have to get.

use crate::cases::Graph;
use crate::names::{name_at, name_of, spelled};
use std::alloc::{AllocError, Global};

fn put_name(text: &mut Vec<u8>, name: u8) -> Result<(), AllocError> {
    text.extend_from_slice(&name_of(name).to_hex())?;
    Ok(())
}

/// The line that adds a commit.
fn put_add(text: &mut Vec<u8>, name: u8, parents: &[u8]) -> Result<(), AllocError> {
    text.extend_from_slice(b"0 add ")?;
    put_name(text, name)?;
    for parent in parents {
        text.push(b' ')?;
        put_name(text, *parent)?;
    }
    text.push(b'\n')?;
    Ok(())
}

/// The line that moves a commit, which all before it are in already, to master.
fn put_move(text: &mut Vec<u8>, name: u8) -> Result<(), AllocError> {
    text.extend_from_slice(b"0 flush ")?;
    put_name(text, name)?;
    text.push(b'\n')?;
    Ok(())
}

/// Whether the commits up to this place are stored among the others once it was added.
fn is_stored(graph: &Graph, place: usize) -> bool {
    graph.stored > 0 && place.saturating_add(1) == graph.masters.saturating_add(graph.stored)
}

/// The lines that add the graph's commits: each of master is moved there at once, so that the ids are the places.
fn put_commits(text: &mut Vec<u8>, graph: &Graph) -> Result<(), AllocError> {
    for place in 0..graph.parents.len() {
        let name = name_at(place.saturating_add(1));
        let parents = graph.parents.get(place).copied().unwrap_or_default();
        put_add(text, name, parents)?;
        if place < graph.masters {
            put_move(text, name)?;
        } else if is_stored(graph, place) {
            text.extend_from_slice(b"0 flush\n")?;
        }
    }
    Ok(())
}

fn put_text(text: &mut Vec<u8>, words: &str) -> Result<(), AllocError> {
    text.extend_from_slice(words.as_bytes())?;
    Ok(())
}

/// The lines that query the expression and count it.
fn put_asked(alloc: Global, text: &mut Vec<u8>, asked: &str) -> Result<(), AllocError> {
    let expr = spelled(alloc, asked.as_bytes())?;
    for verb in ["0 query ", "0 count "] {
        put_text(text, verb)?;
        text.extend_from_slice(&expr)?;
        text.push(b'\n')?;
    }
    Ok(())
}

/// The lines that add the graph's commits and ask its expressions.
pub fn lines_of(alloc: Global, graph: &Graph) -> Result<Vec<u8>, AllocError> {
    let mut text = Vec::new(alloc);
    put_commits(&mut text, graph)?;
    for (asked, _) in graph.cases {
        put_asked(alloc, &mut text, asked)?;
    }
    Ok(text)
}

/// The reply to a flush behind which so many are of master and of the others.
fn put_flushed(
    alloc: Global,
    text: &mut Vec<u8>,
    masters: usize,
    others: usize,
) -> Result<(), AllocError> {
    let reply = format!(in alloc; "ok flushed {masters} {others}\n")?;
    put_text(text, reply.as_str())
}

/// The replies to the lines of a commit.
fn put_added(
    alloc: Global,
    text: &mut Vec<u8>,
    graph: &Graph,
    place: usize,
) -> Result<(), AllocError> {
    let other = place.saturating_sub(graph.masters);
    let reply = format!(in alloc; "ok added N{other}\n")?;
    put_text(text, reply.as_str())?;
    if place < graph.masters {
        return put_flushed(alloc, text, place.saturating_add(1), 0);
    }
    if is_stored(graph, place) {
        return put_flushed(alloc, text, graph.masters, graph.stored);
    }
    Ok(())
}

/// The replies to a query with these members, and to a count of them.
fn put_answer(alloc: Global, text: &mut Vec<u8>, members: &[u8]) -> Result<(), AllocError> {
    for name in members {
        put_name(text, *name)?;
        text.push(b'\n')?;
    }
    let count = members.len();
    put_text(
        text,
        format!(in alloc; "ok {count}\nok {count}\n")?.as_str(),
    )
}

/// The replies to those lines.
pub fn replies_of(alloc: Global, graph: &Graph) -> Result<Vec<u8>, AllocError> {
    let mut text = Vec::new(alloc);
    for place in 0..graph.parents.len() {
        put_added(alloc, &mut text, graph, place)?;
    }
    for (_, members) in graph.cases {
        put_answer(alloc, &mut text, members)?;
    }
    Ok(text)
}
