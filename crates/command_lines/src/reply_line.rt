//! Lines of replies, each in a buffer of its own.

ghost use Rattle.std.specs.Prelude.{◌≡◌, ◌≤◌, ◌+◌, ◌++◌, [], ◌∷◌, length, decimal, codes};
ghost use Rattle.id_groups.specs.Id.{id_text};
ghost use Rattle.id_groups.specs.Name.{hex_text};
ghost use Rattle.step_rules.specs.Reply.{limit_text, refusal_text, words_text};
ghost use Rattle.command_lines.specs.Sending.{lines_text, refusal_head, shrunk_text};

use arrayvec::ArrayVec;
use dag_store::{Counts, Limit, Refusal};
use id_groups::{Id, Name};

/// Room for the longest reply of one line.
pub(crate) const LINE: usize = 128;

/// Appends a piece for which there is room.
pub(crate) fn push_piece<const N: usize>(text: &mut ArrayVec<u8, N>, piece: &[u8])
    requires { length text.old.items + length piece.now ≤ N }
    ensures { text.new.items ≡ text.old.items ++ piece.now }
{
    let _fits = text.try_extend_from_slice(piece);
}

/// Lends the decimal of a number.
pub(crate) fn decimal_text<'a>(n: u64, out: &'a mut [u8; 24]) -> &'a [u8]
    ensures text { result.now ≡ decimal n }
    ensures short { length result.now ≤ 20 }
{
    let digits = itoa::write_digits(n, out, 24);
    &out[digits..]
}

/// Lends the printed id.
fn printed<'a>(id: Id, out: &'a mut [u8; 24]) -> &'a [u8]
    ensures text { result.now ≡ id_text id }
    ensures short { length result.now ≤ 24 }
{
    let _small = id.number();
    id.print(out)
}

/// Appends a blank and a word.
fn push_word<const N: usize>(line: &mut ArrayVec<u8, N>, word: &[u8])
    requires { length line.old.items + length word.now + 1 ≤ N }
    ensures { line.new.items ≡ line.old.items ++ 32 ∷ word.now }
{
    push_piece(line, b" ");
    push_piece(line, word);
}

/// Appends a blank and the decimal of a number.
pub(crate) fn push_number<const N: usize>(line: &mut ArrayVec<u8, N>, number: u64)
    requires { length line.old.items + 21 ≤ N }
    ensures text { line.new.items ≡ line.old.items ++ 32 ∷ decimal number }
    ensures short { length line.new.items ≤ length line.old.items + 21 }
{
    push_word(line, decimal_text(number, &mut [0; 24]));
}

/// The line of these words alone.
pub(crate) fn line_of(head: &[u8]) -> ArrayVec<u8, LINE>
    requires { length head.now ≤ 40 }
    ensures { result.items ≡ lines_text (head.now ∷ []) }
{
    let mut line = ArrayVec::new();
    push_piece(&mut line, head);
    push_piece(&mut line, b"\n");
    line
}

/// The line with one word more.
fn word_line(head: &[u8], word: &[u8]) -> ArrayVec<u8, LINE>
    requires head { length head.now ≤ 40 }
    requires word { length word.now ≤ 60 }
    ensures { result.items ≡ lines_text (words_text head.now (word.now ∷ []) ∷ []) }
{
    let mut line = ArrayVec::new();
    push_piece(&mut line, head);
    push_word(&mut line, word);
    push_piece(&mut line, b"\n");
    line
}

/// The line with a number behind the words.
pub(crate) fn number_line(head: &[u8], number: u64) -> ArrayVec<u8, LINE>
    requires { length head.now ≤ 40 }
    ensures { result.items ≡ lines_text (words_text head.now (decimal number ∷ []) ∷ []) }
{
    word_line(head, decimal_text(number, &mut [0; 24]))
}

/// The line with an id behind the words.
pub(crate) fn id_line(head: &[u8], id: Id) -> ArrayVec<u8, LINE>
    requires { length head.now ≤ 40 }
    ensures { result.items ≡ lines_text (words_text head.now (id_text id ∷ []) ∷ []) }
{
    word_line(head, printed(id, &mut [0; 24]))
}

/// The line with a name behind the words.
fn name_line(head: &[u8], name: &Name) -> ArrayVec<u8, LINE>
    requires { length head.now ≤ 40 }
    ensures { result.items ≡ lines_text (words_text head.now (hex_text name.now ∷ []) ∷ []) }
{
    word_line(head, &name.to_hex())
}

/// The line with a word and a number behind the words.
fn counted_line(head: &[u8], word: &[u8], number: u64) -> ArrayVec<u8, LINE>
    requires head { length head.now ≤ 40 }
    requires word { length word.now ≤ 60 }
    ensures { result.items ≡ lines_text (words_text head.now (word.now ∷ decimal number ∷ []) ∷ []) }
{
    let mut line = ArrayVec::new();
    push_piece(&mut line, head);
    push_word(&mut line, word);
    push_number(&mut line, number);
    push_piece(&mut line, b"\n");
    line
}

/// The line with two numbers behind the words.
pub(crate) fn pair_line(head: &[u8], first: u64, second: u64) -> ArrayVec<u8, LINE>
    requires { length head.now ≤ 40 }
    ensures { result.items ≡ lines_text (words_text head.now (decimal first ∷ decimal second ∷ []) ∷ []) }
{
    counted_line(head, decimal_text(first, &mut [0; 24]), second)
}

/// The line of the three sizes.
pub(crate) fn sizes_line(counts: &Counts) -> ArrayVec<u8, LINE>
    ensures { result.items ≡ lines_text (words_text (codes "ok") (decimal counts.now.master ∷ decimal counts.now.others ∷ decimal counts.now.pending ∷ []) ∷ []) }
{
    let mut line = ArrayVec::new();
    push_piece(&mut line, b"ok");
    push_number(&mut line, counts.master);
    push_number(&mut line, counts.others);
    push_number(&mut line, counts.pending);
    push_piece(&mut line, b"\n");
    line
}

/// The line of a log that was written anew.
pub(crate) fn shrunk_line(
    master: u64,
    others: u64,
    length_from: u64,
    length_to: u64,
) -> ArrayVec<u8, LINE>
    ensures { result.items ≡ shrunk_text master others length_from length_to }
{
    let mut line = ArrayVec::new();
    push_piece(&mut line, b"ok compacted");
    push_number(&mut line, master);
    push_number(&mut line, others);
    push_number(&mut line, length_from);
    push_number(&mut line, length_to);
    push_piece(&mut line, b"\n");
    line
}

/// The word for what is limited.
fn limit_word(limit: Limit) -> &'static [u8]
    ensures text { result.now ≡ limit_text limit }
    ensures short { length result.now ≤ 60 }
{
    match limit {
        Limit::Pending => b"pending",
        Limit::Others => b"others",
        Limit::Heads => b"heads",
        Limit::Master => b"master",
        Limit::Log => b"log",
    }
}

/// The words in front of a refusal's line.
fn refusal_words(refusal: &Refusal) -> &'static [u8]
    ensures text { result.now ≡ refusal_head refusal.now }
    ensures short { length result.now ≤ 40 }
{
    match refusal {
        Refusal::Unknown(_) => b"err unknown",
        Refusal::Twice(_) => b"err twice",
        Refusal::Differs(_) => b"err differs",
        Refusal::Conflict(_) => b"err conflict",
        Refusal::Lost(_) => b"err lost",
        Refusal::InMaster(_) => b"err master",
        Refusal::Emptied(_) => b"err empty",
        Refusal::Full(_, _) => b"err full",
        Refusal::Answer(_) => b"err answer",
        Refusal::NotEmpty(_, _) => b"err not-empty",
        Refusal::Pending(_) => b"err pending",
        Refusal::NoRemote => b"err no-remote",
        Refusal::Remote(_) => b"err remote",
        Refusal::MismatchPath(_, _) => b"err mismatch path",
        Refusal::MismatchNames(_, _) => b"err mismatch names",
        Refusal::MismatchClone(_) => b"err mismatch clone",
        Refusal::MismatchRow(_) => b"err mismatch row",
        Refusal::Memory => b"err memory",
    }
}

/// The line of a refusal.
pub(crate) fn refusal_line(refusal: &Refusal) -> ArrayVec<u8, LINE>
    ensures { result.items ≡ lines_text (refusal_text refusal.now ∷ []) }
{
    let words = refusal_words(refusal);
    match refusal {
        Refusal::Unknown(name)
        | Refusal::Twice(name)
        | Refusal::Differs(name)
        | Refusal::Conflict(name)
        | Refusal::Lost(name)
        | Refusal::InMaster(name) => name_line(words, name),
        Refusal::Emptied(count)
        | Refusal::Answer(count)
        | Refusal::MismatchClone(count)
        | Refusal::MismatchRow(count) => number_line(words, *count),
        Refusal::Pending(count) | Refusal::Remote(count) => number_line(words, u64::from(*count)),
        Refusal::Full(limit, most) => counted_line(words, limit_word(*limit), *most),
        Refusal::NotEmpty(master, others) => pair_line(words, *master, *others),
        Refusal::MismatchPath(from, back) => counted_line(words, &from.to_hex(), *back),
        Refusal::MismatchNames(asked, got) => {
            pair_line(words, u64::from(*asked), u64::from(*got))
        }
        Refusal::NoRemote | Refusal::Memory => line_of(words),
    }
}
