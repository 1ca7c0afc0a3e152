//! The words of a line: a verb's word, numbers, and where the blanks stand.

ghost use Rattle.std.specs.Prelude.{◌≡◌, ◌==◌, ◌^◌, ◌<◌, ℕ, position, IfSome, IfNone};
ghost use Rattle.set_expr.specs.Spelling.{SpellsNumber};
ghost use Rattle.command_lines.specs.Parts.{IsChange, word_text};

use itoa::Buffer;
use memchr::memchr;
use std::str;

/// The word that a command's text begins with.
#[derive(Clone, Copy, Debug, PartialEq, Eq)]
pub enum Word {
    /// A commit to be added.
    Add,
    /// What is pending to be stored.
    Flush,
    /// The newest world to be seen.
    Reload,
    /// What is pending to be let go.
    Discard,
    /// The members of an expression.
    Query,
    /// How many they are.
    Count,
    /// The id of a commit.
    Id,
    /// The sizes of what the session works on.
    Status,
    /// The sizes of the levels.
    Levels,
    /// A mirror's master to be stored.
    Clone,
    /// A mirror's new rows to be stored.
    Pull,
    /// Commits to be taken out of what is stored.
    Strip,
    /// How many mirrors there are.
    Mirrors,
    /// A mirror to be dropped.
    DropAt,
}

/// The place of the first blank.
pub(crate) fn blank(text: &[u8]) -> Option<usize>
    ensures { result ≡ position (λ b. b == 32) text.now }
{
    memchr(b' ', text)
}

/// The number whose decimal the text is: the one that is printed so.
pub(crate) fn number_of(text: &[u8]) -> Option<u64>
    ensures some { IfSome result (SpellsNumber text.now) }
    ensures none { IfNone result ((n : ℕ) → ¬ (SpellsNumber text.now n)) }
{
    match text {
        [digit] if digit.is_ascii_digit() => Some(u64::from(*digit - b'0')),
        _ => printed_number(text),
    }
}

/// The same for a text of any length, by printing what is read.
fn printed_number(text: &[u8]) -> Option<u64>
    ensures some { IfSome result (SpellsNumber text.now) }
    ensures none { IfNone result ((n : ℕ) → ¬ (SpellsNumber text.now n)) }
{
    let Ok(digits) = str::from_utf8(text) else {
        return None;
    };
    let Ok(n) = digits.parse::<u64>() else {
        return None;
    };
    let mut buffer = Buffer::new();
    if buffer.format(n).as_bytes() == text {
        Some(n)
    } else {
        None
    }
}

/// The word of a change that the text is.
fn change_of(text: &[u8]) -> Option<Word>
    ensures some { IfSome result (λ word. text.now ≡ word_text word) }
    ensures none { IfNone result ((word : Word) → IsChange word → ¬ (text.now ≡ word_text word)) }
{
    if text == b"add".as_slice() {
        Some(Word::Add)
    } else if text == b"flush".as_slice() {
        Some(Word::Flush)
    } else if text == b"reload".as_slice() {
        Some(Word::Reload)
    } else if text == b"discard".as_slice() {
        Some(Word::Discard)
    } else if text == b"clone".as_slice() {
        Some(Word::Clone)
    } else if text == b"pull".as_slice() {
        Some(Word::Pull)
    } else if text == b"strip".as_slice() {
        Some(Word::Strip)
    } else if text == b"drop".as_slice() {
        Some(Word::DropAt)
    } else {
        None
    }
}

/// The word of a question that the text is.
fn question_of(text: &[u8]) -> Option<Word>
    ensures some { IfSome result (λ word. text.now ≡ word_text word) }
    ensures none { IfNone result ((word : Word) → ¬ (IsChange word) → ¬ (text.now ≡ word_text word)) }
{
    if text == b"query".as_slice() {
        Some(Word::Query)
    } else if text == b"count".as_slice() {
        Some(Word::Count)
    } else if text == b"id".as_slice() {
        Some(Word::Id)
    } else if text == b"status".as_slice() {
        Some(Word::Status)
    } else if text == b"levels".as_slice() {
        Some(Word::Levels)
    } else if text == b"mirrors".as_slice() {
        Some(Word::Mirrors)
    } else {
        None
    }
}

/// The verb's word that the text is.
pub(crate) fn word_of(text: &[u8]) -> Option<Word>
    ensures some { IfSome result (λ word. text.now ≡ word_text word) }
    ensures none { IfNone result ((word : Word) → ¬ (text.now ≡ word_text word)) }
{
    match change_of(text) {
        Some(word) => Some(word),
        None => question_of(text),
    }
}
