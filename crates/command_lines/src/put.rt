//! Replies as they are written: a reply of one line by one `put`, and what may be long in blocks.

ghost use Rattle.std.specs.Prelude.{◌≡◌, ◌≤◌, ◌+◌, ◌++◌, [], ◌∷◌, ℕ, List, length, decimal, MatchResult, OnOk};
ghost use Rattle.outside.specs.Counts.{HasCause};
ghost use Rattle.outside.specs.Told.{WhereTold, TookFront, Puts};
ghost use Rattle.id_groups.specs.Id.{id_text};
ghost use Rattle.run_rules.specs.Ends.{disk_text};
ghost use Rattle.step_rules.specs.Reply.{LevelSizes, reply_text, words_text};
ghost use Rattle.store_queries.specs.Names.{names_left};
ghost use Rattle.command_lines.specs.Sending.{Sends, lines_text, listed_text, shrunk_text};
ghost use Rattle.command_lines.specs.Told.{reply_head, told};

use crate::Reply;
use crate::reply_line::{
    LINE, id_line, line_of, number_line, pair_line, push_number, push_piece, refusal_line,
    shrunk_line, sizes_line,
};
use arrayvec::ArrayVec;
use dag_store::{Counts, LevelCounts, Names};
use id_groups::Id;
use line_io::{Sink, SinkFault};

/// How many bytes of a long answer are put at once.
const BLOCK: usize = 8192;

/// How much of a block a line of an answer, or a number, may take.
const PIECE: usize = 64;

/// Puts the line.
fn put_line<O: Sink>(output: &mut O, line: &ArrayVec<u8, LINE>) -> Result<(), SinkFault>
    ensures bytes { Puts (O.taken output.old) (O.taken output.new) result line.now.items }
    ensures cause { HasCause (O.faults output.old) (O.faults output.new) result }
{
    output.put(line.as_slice())
}

/// Puts the block where there is no room for a piece more, and empties it.
fn make_room<O: Sink>(block: &mut ArrayVec<u8, BLOCK>, output: &mut O) -> Result<(), SinkFault>
    ensures room { OnOk result (length block.new.items + 64 ≤ 8192) }
    ensures bytes { MatchResult result
        (λ _. WhereTold (O.taken output.old) (O.taken output.new) (Sends block.old.items block.new.items))
        (λ _. WhereTold (O.taken output.old) (O.taken output.new) (TookFront block.old.items)) }
    ensures cause { HasCause (O.faults output.old) (O.faults output.new) result }
{
    if block.len() > BLOCK - PIECE {
        output.put(block.as_slice())?;
        block.clear();
    }
    Ok(())
}

/// Puts the line behind those that wait in the block.
fn put_behind<O: Sink>(
    block: &mut ArrayVec<u8, BLOCK>,
    line: &ArrayVec<u8, LINE>,
    output: &mut O,
) -> Result<(), SinkFault>
    requires { length line.now.items ≤ 64 }
    ensures bytes { MatchResult result
        (λ _. (waits : List ℕ) × (block.new.items ≡ waits ++ line.now.items) × WhereTold (O.taken output.old) (O.taken output.new) (Sends block.old.items waits))
        (λ _. WhereTold (O.taken output.old) (O.taken output.new) (TookFront block.old.items)) }
    ensures cause { HasCause (O.faults output.old) (O.faults output.new) result }
{
    make_room(block, output)?;
    push_piece(block, line.as_slice());
    Ok(())
}

/// Puts the sizes of levels.
fn put_levels<O: Sink>(output: &mut O, counts: &LevelCounts) -> Result<(), SinkFault>
    ensures bytes { Puts (O.taken output.old) (O.taken output.new) result (reply_text (LevelSizes counts.now)) }
    ensures cause { HasCause (O.faults output.old) (O.faults output.new) result }
{
    let mut block = ArrayVec::new();
    push_piece(&mut block, b"ok");
    for k in 0..counts.len() {
        make_room(&mut block, output)?;
        push_number(&mut block, u64::from(counts.at(k)));
    }
    make_room(&mut block, output)?;
    push_piece(&mut block, b"\n");
    output.put(block.as_slice())
}

/// Puts names as they are lent, one a line, and this number of them, which is told to be how many they are.
pub fn put_names<O: Sink>(output: &mut O, names: Names<'_>, count: u64) -> Result<(), SinkFault>
    ensures bytes { Puts (O.taken output.old) (O.taken output.new) result (listed_text (names_left names.entry) count) }
    ensures cause { HasCause (O.faults output.old) (O.faults output.new) result }
{
    let mut block = ArrayVec::new();
    for name in names {
        put_behind(&mut block, &line_of(&name.to_name().to_hex()), output)?;
    }
    put_behind(&mut block, &number_line(b"ok", count), output)?;
    output.put(block.as_slice())
}

/// Puts the line of these words alone.
fn put_words<O: Sink>(output: &mut O, words: &[u8]) -> Result<(), SinkFault>
    requires { length words.now ≤ 40 }
    ensures bytes { Puts (O.taken output.old) (O.taken output.new) result (lines_text (words.now ∷ [])) }
    ensures cause { HasCause (O.faults output.old) (O.faults output.new) result }
{
    put_line(output, &line_of(words))
}

/// Puts the line with a number behind the words.
fn put_number<O: Sink>(output: &mut O, head: &[u8], number: u64) -> Result<(), SinkFault>
    requires { length head.now ≤ 40 }
    ensures bytes { Puts (O.taken output.old) (O.taken output.new) result (lines_text (words_text head.now (decimal number ∷ []) ∷ [])) }
    ensures cause { HasCause (O.faults output.old) (O.faults output.new) result }
{
    put_line(output, &number_line(head, number))
}

/// Puts the line with an id behind the words.
fn put_id<O: Sink>(output: &mut O, head: &[u8], id: Id) -> Result<(), SinkFault>
    requires { length head.now ≤ 40 }
    ensures bytes { Puts (O.taken output.old) (O.taken output.new) result (lines_text (words_text head.now (id_text id ∷ []) ∷ [])) }
    ensures cause { HasCause (O.faults output.old) (O.faults output.new) result }
{
    put_line(output, &id_line(head, id))
}

/// Puts the line with the sizes of a world that was stored behind the words.
fn put_stored<O: Sink>(output: &mut O, head: &[u8], counts: &Counts) -> Result<(), SinkFault>
    requires { length head.now ≤ 40 }
    ensures bytes { Puts (O.taken output.old) (O.taken output.new) result (lines_text (words_text head.now (decimal counts.now.master ∷ decimal counts.now.others ∷ []) ∷ [])) }
    ensures cause { HasCause (O.faults output.old) (O.faults output.new) result }
{
    put_line(output, &pair_line(head, counts.master, counts.others))
}

/// The words in front of a reply's line.
fn reply_words(reply: &Reply) -> &'static [u8]
    ensures text { result.now ≡ reply_head reply.now }
    ensures short { length result.now ≤ 40 }
{
    match reply {
        Reply::Added(_) => b"ok added",
        Reply::Old(_) => b"ok old",
        Reply::Flushed(_) => b"ok flushed",
        Reply::Stripped(_) => b"ok stripped",
        Reply::Pulled(_) => b"ok pulled",
        Reply::Cloned(_) => b"ok cloned",
        Reply::Reloaded(_) => b"ok reloaded",
        Reply::Discarded(_) => b"ok discarded",
        Reply::Dropped(_) => b"ok dropped",
        Reply::Refused(_) => b"err",
        Reply::NoCommand => b"err syntax",
        Reply::LongLine => b"err line 16384",
        _ => b"ok",
    }
}

/// Puts the reply, one that isn't an answer of names.
pub fn put_reply<O: Sink>(reply: &Reply, output: &mut O) -> Result<(), SinkFault>
    ensures bytes { Puts (O.taken output.old) (O.taken output.new) result (reply_text (told reply.now)) }
    ensures cause { HasCause (O.faults output.old) (O.faults output.new) result }
{
    let words = reply_words(reply);
    match reply {
        Reply::Added(id) | Reply::Old(id) | Reply::Identified(id) => put_id(output, words, *id),
        Reply::Flushed(counts) | Reply::Stripped(counts) | Reply::Pulled(counts) => {
            put_stored(output, words, counts)
        }
        Reply::Reloaded(rows) | Reply::Discarded(rows) => {
            put_number(output, words, u64::from(*rows))
        }
        Reply::Cloned(number) | Reply::Counted(number) | Reply::Dropped(number) => {
            put_number(output, words, *number)
        }
        Reply::Sizes(counts) => put_line(output, &sizes_line(counts)),
        Reply::LevelSizes(counts) => put_levels(output, counts),
        Reply::Refused(refusal) => put_line(output, &refusal_line(refusal)),
        Reply::NoCommand | Reply::LongLine => put_words(output, words),
    }
}

/// Puts the last line of a run whose disk failed.
pub fn put_disk_fault<O: Sink>(output: &mut O) -> Result<(), SinkFault>
    ensures bytes { Puts (O.taken output.old) (O.taken output.new) result disk_text }
    ensures cause { HasCause (O.faults output.old) (O.faults output.new) result }
{
    output.put(b"err disk\n")
}

/// Puts the line that tells of a log written anew: the sizes of its world, and how long the log was that was read and the one that was
/// written.
pub fn put_shrunk<O: Sink>(
    output: &mut O,
    master: u64,
    others: u64,
    length_from: u64,
    length_to: u64,
) -> Result<(), SinkFault>
    ensures bytes { Puts (O.taken output.old) (O.taken output.new) result (shrunk_text master others length_from length_to) }
    ensures cause { HasCause (O.faults output.old) (O.faults output.new) result }
{
    put_line(output, &shrunk_line(master, others, length_from, length_to))
}
