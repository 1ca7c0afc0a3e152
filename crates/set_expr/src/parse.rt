//! Expressions read from their texts.

ghost use Rattle.std.specs.Prelude.{◌≡◌, ◌≤◌, ◌⊎◌, ◌↔◌, ◌+◌, ◌++◌, ◌∷◌, ℕ, List, length, take, drop, IsTrue, IfOk, IfSome, IfNone, OnOk, OnErr};
ghost use Rattle.id_groups.specs.Name.{Name as NameBytes};
ghost use Rattle.set_expr.specs.Expr.{Expr as Meant, Of, OfTwo, Up, Top, commits_in, node_count};
ghost use Rattle.set_expr.specs.Fronts.{IsFront, IsLeaf, IsLast, IsUp, Unmarked, Ends, Breaks};
ghost use Rattle.set_expr.specs.Spelling.{SpellsNumber};
ghost use Rattle.set_expr.specs.Tree.{tree_in};
ghost use Rattle.set_expr.specs.declared.parse.ExprFault.TheVariants.{Memory};

use crate::words::{Head, head_of, word_of};
use crate::{Call, PairCall, Tree};
use id_groups::Name;
use itoa::Buffer;
use std::alloc::{AllocError, AllocFailed, Global};
use std::str;

/// Why a text gives no expression.
#[derive(Clone, Copy, Debug, PartialEq, Eq)]
pub enum ExprFault {
    /// The text spells none.
    Syntax,
    /// Memory ran out.
    Memory,
}

impl From<AllocError> for ExprFault {
    ghost from_gives = { λ _ e. e ≡ Memory };

    fn from(_error: AllocError) -> ExprFault {
        ExprFault::Memory
    }
}

impl<T: Drop> From<AllocFailed<T>> for ExprFault {
    ghost from_gives = { λ _ e. e ≡ Memory };

    fn from(_error: AllocFailed<T>) -> ExprFault {
        ExprFault::Memory
    }
}

/// How far an expression is read.
#[derive(Drop)]
pub(crate) struct Reading {
    /// How many nodes more it may have.
    pub(crate) nodes: u32,
    /// The commits that it named so far, in text order.
    pub(crate) names: Vec<Name>,
}

/// A tree that the front of a text spells, and the text behind it.
#[derive(Drop)]
pub(crate) struct Front<'a> {
    pub(crate) tree: Tree,
    pub(crate) rest: &'a [u8],
}

impl Reading {
    /// One node more.
    fn take_node(&mut self) -> Result<(), ExprFault>
        ensures ok { OnOk result (self.new.nodes + 1 ≡ self.old.nodes) }
        ensures names { self.new.names ≡ self.old.names }
        ensures err { OnErr result (self.old.nodes ≡ 0) }
    {
        if self.nodes == 0 {
            return Err(ExprFault::Syntax);
        }
        self.nodes -= 1;
        Ok(())
    }
}

/// Whether the byte is a bracket or a comma.
fn is_mark(byte: u8) -> bool
    ensures { IsTrue result ↔ ((byte ≡ 40) ⊎ ((byte ≡ 41) ⊎ (byte ≡ 44))) }
{
    byte == b'(' || byte == b')' || byte == b','
}

/// How many bytes stand in front of the first bracket or comma.
fn word_len(text: &[u8]) -> usize
    ensures within { result ≤ length text.now }
    ensures word { Unmarked (take result text.now) }
    ensures rest { Breaks (drop result text.now) }
{
    let mut len = 0;
    'word: while len < text.len() {
        if is_mark(text[len]) {
            return len;
        }
        len += 1;
    }
    len
}

/// The bytes in front of the first bracket or comma, and the text from there on.
fn split_word<'a>(text: &'a [u8]) -> (&'a [u8], &'a [u8])
    ensures whole { text.now ≡ result.0.now ++ result.1.now }
    ensures word { Unmarked result.0.now }
    ensures rest { Breaks result.1.now }
{
    text.split_at(word_len(text))
}

/// The text behind a closing bracket, which nothing follows but what may follow an expression.
fn closed<'a>(text: &'a [u8]) -> Option<&'a [u8]>
    ensures some { IfSome result (λ rest. (text.now ≡ 41 ∷ rest.now) × Ends rest.now) }
    ensures none { IfNone result ((rest : List ℕ) → text.now ≡ 41 ∷ rest → ¬ (Ends rest)) }
{
    let rest = text.strip_prefix(b")")?;
    match rest.first() {
        None | Some(b')') | Some(b',') => Some(rest),
        Some(_) => None,
    }
}

/// The number whose decimal the text is: the one that is printed so.
fn number_of(text: &[u8]) -> Option<u64>
    ensures some { IfSome result (SpellsNumber text.now) }
    ensures none { IfNone result ((n : ℕ) → ¬ (SpellsNumber text.now n)) }
{
    let Ok(digits) = str::from_utf8(text) else {
        return None;
    };
    let Ok(n) = digits.parse::<u64>() else {
        return None;
    };
    let mut buffer = Buffer::new();
    if buffer.format(n).as_bytes() == text {
        Some(n)
    } else {
        None
    }
}

/// The number behind a comma and before a closing bracket, and the text behind this.
fn read_number<'a>(text: &'a [u8]) -> Option<(u64, &'a [u8])>
    ensures some { IfSome result (λ r. IsLast text.now r.0 r.1.now) }
    ensures none { IfNone result ((n : ℕ) (rest : List ℕ) → ¬ (IsLast text.now n rest)) }
{
    let Some(behind) = text.strip_prefix(b",") else {
        return None;
    };
    let (digits, closing) = split_word(behind);
    match (number_of(digits), closed(closing)) {
        (Some(n), Some(rest)) => Some((n, rest)),
        _ => None,
    }
}

/// The tree with no call that the text spells.
fn read_leaf(text: &[u8], names: &mut Vec<Name>) -> Result<Tree, ExprFault>
    ensures tree { IfOk result (λ tree. IsLeaf text.now (tree_in tree)) }
    ensures names { IfOk result (λ tree. names.new.items ≡ names.old.items ++ commits_in (tree_in tree)) }
    ensures syntax { result ≡ Err ExprFault.Syntax → (e : Meant NameBytes) → ¬ (IsLeaf text.now e) }
{
    match Name::from_hex(text) {
        Some(name) => {
            names.push(name)?;
            Ok(Tree::One(name))
        }
        None => match word_of(text) {
            Some(word) => Ok(Tree::Named(word)),
            None => Err(ExprFault::Syntax),
        },
    }
}

/// The tree of an ancestor by its number, of which the text stands behind the bracket.
fn read_up<'a>(text: &'a [u8], names: &mut Vec<Name>) -> Result<Front<'a>, ExprFault>
    ensures ok { IfOk result (λ r. (x : NameBytes) × (n : ℕ) × (tree_in r.tree ≡ Up x n) × IsUp text.now x n r.rest.now) }
    ensures names { IfOk result (λ r. names.new.items ≡ names.old.items ++ commits_in (tree_in r.tree)) }
    ensures syntax { result ≡ Err ExprFault.Syntax → (x : NameBytes) (n : ℕ) (rest : List ℕ) → ¬ (IsUp text.now x n rest) }
{
    let (hex, behind) = split_word(text);
    let Some(name) = Name::from_hex(hex) else {
        return Err(ExprFault::Syntax);
    };
    let Some((n, rest)) = read_number(behind) else {
        return Err(ExprFault::Syntax);
    };
    names.push(name)?;
    Ok(Front {
        tree: Tree::Up(name, n),
        rest,
    })
}

/// The call of the set, which its closing bracket ends.
fn close_call<'a>(alloc: Global, call: Call, set: Front<'a>) -> Result<Front<'a>, ExprFault>
    ensures ok { IfOk result (λ r. (tree_in r.tree ≡ Of call (tree_in set.entry.tree)) × (set.entry.rest.now ≡ 41 ∷ r.rest.now) × Ends r.rest.now) }
    ensures syntax { result ≡ Err ExprFault.Syntax → (rest : List ℕ) → set.entry.rest.now ≡ 41 ∷ rest → ¬ (Ends rest) }
{
    let Some(rest) = closed(set.rest) else {
        return Err(ExprFault::Syntax);
    };
    let tree = Tree::Of(call, Box::new(alloc, set.tree)?);
    Ok(Front { tree, rest })
}

/// The call of the two sets, which its closing bracket ends.
fn close_pair<'a>(
    alloc: Global,
    call: PairCall,
    first: Tree,
    second: Front<'a>,
) -> Result<Front<'a>, ExprFault>
    ensures ok { IfOk result (λ r. (tree_in r.tree ≡ OfTwo call (tree_in first) (tree_in second.entry.tree)) × (second.entry.rest.now ≡ 41 ∷ r.rest.now) × Ends r.rest.now) }
    ensures syntax { result ≡ Err ExprFault.Syntax → (rest : List ℕ) → second.entry.rest.now ≡ 41 ∷ rest → ¬ (Ends rest) }
{
    let Some(rest) = closed(second.rest) else {
        return Err(ExprFault::Syntax);
    };
    let one = Box::new(alloc, first)?;
    let tree = Tree::OfTwo(call, one, Box::new(alloc, second.tree)?);
    Ok(Front { tree, rest })
}

/// The greatest of the set, as many as the number behind it says.
fn close_top<'a>(alloc: Global, set: Front<'a>) -> Result<Front<'a>, ExprFault>
    ensures ok { IfOk result (λ r. (n : ℕ) × (tree_in r.tree ≡ Top (tree_in set.entry.tree) n) × IsLast set.entry.rest.now n r.rest.now) }
    ensures syntax { result ≡ Err ExprFault.Syntax → (n : ℕ) (rest : List ℕ) → ¬ (IsLast set.entry.rest.now n rest) }
{
    let Some((n, rest)) = read_number(set.rest) else {
        return Err(ExprFault::Syntax);
    };
    let tree = Tree::Top(Box::new(alloc, set.tree)?, n);
    Ok(Front { tree, rest })
}

/// The tree of at most so many levels that the front of the text spells, where an expression may end. The names that stand in
/// it go behind those that were read.
pub(crate) fn read_tree<'a>(
    alloc: Global,
    text: &'a [u8],
    levels: u32,
    reading: &mut Reading,
) -> Result<Front<'a>, ExprFault>
    ensures tree { IfOk result (λ r. IsFront text.now levels reading.old.nodes (tree_in r.tree) r.rest.now) }
    ensures names { IfOk result (λ r. reading.new.names.items ≡ reading.old.names.items ++ commits_in (tree_in r.tree)) }
    ensures nodes { IfOk result (λ r. reading.new.nodes + node_count (tree_in r.tree) ≡ reading.old.nodes) }
    ensures syntax { result ≡ Err ExprFault.Syntax
        → (e : Meant NameBytes) (rest : List ℕ) → ¬ (IsFront text.now levels reading.old.nodes e rest) }
{
    if levels == 0 {
        return Err(ExprFault::Syntax);
    }
    reading.take_node()?;
    let (word, behind) = split_word(text);
    let Some(inner) = behind.strip_prefix(b"(") else {
        let tree = read_leaf(word, &mut reading.names)?;
        return Ok(Front { tree, rest: behind });
    };
    let Some(head) = head_of(word) else {
        return Err(ExprFault::Syntax);
    };
    match head {
        Head::Of(call) => {
            let set = read_tree(alloc, inner, levels - 1, reading)?;
            close_call(alloc, call, set)
        }
        Head::OfTwo(call) => {
            let first = read_tree(alloc, inner, levels - 1, reading)?;
            let Some(more) = first.rest.strip_prefix(b",") else {
                return Err(ExprFault::Syntax);
            };
            let second = read_tree(alloc, more, levels - 1, reading)?;
            close_pair(alloc, call, first.tree, second)
        }
        Head::Up => read_up(inner, &mut reading.names),
        Head::Top => {
            let set = read_tree(alloc, inner, levels - 1, reading)?;
            close_top(alloc, set)
        }
    }
}
