//! Commands, and the lines that spell them.

ghost use Rattle.std.specs.Prelude.{◌≡◌, ◌==◌, ◌++◌, ◌∷◌, ◌<◌, ◌≤◌, length, List, ℕ, Some, None, decimal, position, IfOk, IfSome, IfNone, IsTrue};
ghost use Rattle.std.specs.List.{AllZip};
ghost use Rattle.outside.specs.Parts.{split_at};
ghost use Rattle.id_groups.specs.Name.{Name as NameBytes, SpellsName};
ghost use Rattle.step_rules.specs.Step.{MayWantMemory};
ghost use Rattle.step_rules.specs.Verb.{Verb as Asked};
ghost use Rattle.run_rules.specs.Built.{is_built};
ghost use Rattle.run_rules.specs.Grammar.{SpellsCommand, SpellsVerb};
ghost use Rattle.command_lines.specs.Meant.{meant, HasRightCount, TakesMemory};
ghost use Rattle.command_lines.specs.Parts.{FitsNone, HasWord, MayWant, SpellsParts};

use crate::NameList;
use crate::words::{Word, blank, number_of, word_of};
use id_groups::Name;
use set_expr::{Expr, ExprFault};
use std::alloc::{AllocError, Global};

/// How many parents a row has at most.
const MAX_PARENTS: usize = 8;

/// The length of a name's digits and the blank behind them.
const NAME_AND_BLANK: usize = 41;

/// How many sessions there are.
const SESSIONS: u64 = 16;

/// What a command asks for.
#[derive(Drop)]
pub enum Verb {
    /// Adds a commit with these parents.
    Add(Name, NameList),
    /// Stores what is pending, with these heads and their ancestors in master.
    Flush(NameList),
    /// Goes to the newest world.
    Reload,
    /// Lets go what is pending.
    Discard,
    /// Prints the members of an expression.
    Query(Expr),
    /// Counts the members of an expression.
    Count(Expr),
    /// Prints the id of a commit.
    Id(Name),
    /// Prints the sizes of what the session works on.
    Status,
    /// Prints how many segments the stored master has, level by level.
    Levels,
    /// Stores the master of a mirror, where nothing is stored yet.
    Clone,
    /// Stores the new master rows of a mirror behind those that are stored.
    Pull,
    /// Takes these commits out of what is stored, with their descendants.
    Strip(NameList),
    /// Counts the mirrors.
    Mirrors,
    /// Drops the mirror at this place.
    DropAt(u64),
}

/// One command of one session.
#[derive(Drop)]
pub struct Command {
    /// The session's number.
    pub session: u8,
    /// What it asks for.
    pub verb: Verb,
}

/// Why a line is read as no command.
#[derive(Clone, Copy, PartialEq, Eq, Debug)]
pub enum CommandFault {
    /// The line isn't in the grammar.
    Syntax,
    /// Want of memory.
    Memory,
}

impl From<AllocError> for CommandFault {
    ghost use Rattle.std.specs.Prelude.{◌≡◌};
    ghost use Rattle.command_lines.specs.declared.command.CommandFault.TheVariants.{Memory};

    ghost from_gives = { λ _ fault. fault ≡ Memory };

    fn from(_refused: AllocError) -> CommandFault {
        CommandFault::Memory
    }
}

impl From<ExprFault> for CommandFault {
    ghost use Rattle.std.specs.Prelude.{◌≡◌};
    ghost use Rattle.command_lines.specs.Meant.{fault_of};

    ghost from_gives = { λ fault gives. gives ≡ fault_of fault };

    fn from(fault: ExprFault) -> CommandFault {
        match fault {
            ExprFault::Syntax => CommandFault::Syntax,
            ExprFault::Memory => CommandFault::Memory,
        }
    }
}

/// The names that the words of a text spell, one blank between two words.
fn parse_names(alloc: Global, text: &[u8]) -> Result<Vec<Name>, CommandFault>
    ensures ok { IfOk result (λ names. AllZip SpellsName (split_at 32 text.now) names.items) }
    ensures syntax { result ≡ Err CommandFault.Syntax
        → (names : List NameBytes) → ¬ (AllZip SpellsName (split_at 32 text.now) names) }
{
    let mut names = Vec::with_capacity(alloc, text.len() / NAME_AND_BLANK + 1)?;
    let mut rest = text;
    'words: while let Some(len) = blank(rest) {
        let Some(name) = Name::from_hex(&rest[..len]) else {
            return Err(CommandFault::Syntax);
        };
        names.push_reserved(name);
        rest = &rest[len + 1..];
    }
    let Some(name) = Name::from_hex(rest) else {
        return Err(CommandFault::Syntax);
    };
    names.push_reserved(name);
    Ok(names)
}

/// The row without parents that the one argument of an `add` spells.
fn parse_root(alloc: Global, text: &[u8]) -> Result<Verb, CommandFault>
    requires { position (λ b. b == 32) text.now ≡ None }
    ensures ok { IfOk result (λ verb. HasWord Word.Add (Some text.now) (meant verb)) }
    ensures syntax { result ≡ Err CommandFault.Syntax → FitsNone Word.Add (Some text.now) }
{
    match Name::from_hex(text) {
        Some(name) => Ok(Verb::Add(name, NameList::new(Vec::new(alloc)))),
        None => Err(CommandFault::Syntax),
    }
}

/// The row that the arguments of `add` spell.
fn parse_add(alloc: Global, args: &[u8]) -> Result<Verb, CommandFault>
    ensures ok { IfOk result (λ verb. HasWord Word.Add (Some args.now) (meant verb)) }
    ensures syntax { result ≡ Err CommandFault.Syntax → FitsNone Word.Add (Some args.now) }
{
    let Some(len) = blank(args) else {
        return parse_root(alloc, args);
    };
    let Some(name) = Name::from_hex(&args[..len]) else {
        return Err(CommandFault::Syntax);
    };
    let parents = parse_names(alloc, &args[len + 1..])?;
    if parents.len() > MAX_PARENTS {
        return Err(CommandFault::Syntax);
    }
    Ok(Verb::Add(name, NameList::new(parents)))
}

/// The verb that the word and its arguments spell.
fn parse_args(alloc: Global, word: Word, args: &[u8]) -> Result<Verb, CommandFault>
    ensures ok { IfOk result (λ verb. HasWord word (Some args.now) (meant verb)) }
    ensures syntax { result ≡ Err CommandFault.Syntax → FitsNone word (Some args.now) }
    ensures memory { result ≡ Err CommandFault.Memory → MayWant word }
{
    match word {
        Word::Add => parse_add(alloc, args),
        Word::Flush => Ok(Verb::Flush(NameList::new(parse_names(alloc, args)?))),
        Word::Strip => Ok(Verb::Strip(NameList::new(parse_names(alloc, args)?))),
        Word::Query => Ok(Verb::Query(Expr::parse(alloc, args)?)),
        Word::Count => Ok(Verb::Count(Expr::parse(alloc, args)?)),
        Word::Id => match Name::from_hex(args) {
            Some(name) => Ok(Verb::Id(name)),
            None => Err(CommandFault::Syntax),
        },
        Word::DropAt => match number_of(args) {
            Some(place) => Ok(Verb::DropAt(place)),
            None => Err(CommandFault::Syntax),
        },
        _ => Err(CommandFault::Syntax),
    }
}

/// The verb that the word spells where nothing stands behind it.
fn parse_bare(alloc: Global, word: Word) -> Result<Verb, CommandFault>
    ensures ok { IfOk result (λ verb. HasWord word None (meant verb)) }
    ensures syntax { result ≡ Err CommandFault.Syntax → FitsNone word None }
    ensures memory { result ≡ Err CommandFault.Memory → ⊥ }
{
    match word {
        Word::Flush => Ok(Verb::Flush(NameList::new(Vec::new(alloc)))),
        Word::Reload => Ok(Verb::Reload),
        Word::Discard => Ok(Verb::Discard),
        Word::Status => Ok(Verb::Status),
        Word::Levels => Ok(Verb::Levels),
        Word::Clone => Ok(Verb::Clone),
        Word::Pull => Ok(Verb::Pull),
        Word::Mirrors => Ok(Verb::Mirrors),
        _ => Err(CommandFault::Syntax),
    }
}

/// The verb that the text in front of a blank and the one behind it spell.
fn parse_two(alloc: Global, head: &[u8], args: &[u8]) -> Result<Verb, CommandFault>
    ensures ok { IfOk result (λ verb. SpellsParts head.now (Some args.now) (meant verb)) }
    ensures syntax { result ≡ Err CommandFault.Syntax → (verb : Asked) → ¬ (SpellsParts head.now (Some args.now) verb) }
    ensures memory { result ≡ Err CommandFault.Memory → (verb : Asked) → SpellsParts head.now (Some args.now) verb → TakesMemory verb }
{
    match word_of(head) {
        Some(word) => parse_args(alloc, word, args),
        None => Err(CommandFault::Syntax),
    }
}

/// The verb that a text without a blank spells.
fn parse_one(alloc: Global, text: &[u8]) -> Result<Verb, CommandFault>
    ensures ok { IfOk result (λ verb. SpellsParts text.now None (meant verb)) }
    ensures syntax { result ≡ Err CommandFault.Syntax → (verb : Asked) → ¬ (SpellsParts text.now None verb) }
    ensures memory { result ≡ Err CommandFault.Memory → ⊥ }
{
    match word_of(text) {
        Some(word) => parse_bare(alloc, word),
        None => Err(CommandFault::Syntax),
    }
}

/// The verb and its arguments that a text spells.
fn parse_verb(alloc: Global, text: &[u8]) -> Result<Verb, CommandFault>
    ensures ok { IfOk result (λ verb. IsTrue (is_built (meant verb)) × SpellsVerb text.now (meant verb)) }
    ensures syntax { result ≡ Err CommandFault.Syntax → (verb : Asked) → IsTrue (is_built verb) → ¬ (SpellsVerb text.now verb) }
    ensures memory { result ≡ Err CommandFault.Memory → (verb : Asked) → IsTrue (is_built verb) → SpellsVerb text.now verb → TakesMemory verb }
{
    match blank(text) {
        Some(len) => parse_two(alloc, &text[..len], &text[len + 1..]),
        None => parse_one(alloc, text),
    }
}

/// The session's number before the first blank, and the text behind it.
fn split_session<'a>(line: &'a [u8]) -> Option<(u8, &'a [u8])>
    ensures some { IfSome result (λ r. (r.0 < 16) × (line.now ≡ decimal r.0 ++ 32 ∷ r.1.now)) }
    ensures none { IfNone result ((s : ℕ) (text : List ℕ) → s < 16 → ¬ (line.now ≡ decimal s ++ 32 ∷ text)) }
{
    let Some(len) = blank(line) else {
        return None;
    };
    let Some(number) = number_of(&line[..len]) else {
        return None;
    };
    if number < SESSIONS {
        Some((number as u8, &line[len + 1..]))
    } else {
        None
    }
}

impl Command {
    /// The command that a line spells. `Syntax` exactly where the line isn't in the grammar; `Memory` never comes for a
    /// line whose command has neither a list of names nor an expression, nor for one whose command takes no memory.
    pub fn parse(alloc: Global, line: &[u8]) -> Result<Command, CommandFault>
        ensures ok { IfOk result (λ command. SpellsCommand line.now command.session (meant command.verb)) }
        ensures session { IfOk result (λ command. command.session < 16) }
        ensures counted { IfOk result (λ command. HasRightCount (meant command.verb)) }
        ensures syntax { result ≡ Err CommandFault.Syntax → (s : ℕ) (verb : Asked) → ¬ (SpellsCommand line.now s verb) }
        ensures memory { result ≡ Err CommandFault.Memory
            → (s : ℕ) (verb : Asked) → SpellsCommand line.now s verb → MayWantMemory verb }
        ensures taken { result ≡ Err CommandFault.Memory
            → (s : ℕ) (verb : Asked) → SpellsCommand line.now s verb → TakesMemory verb }
    {
        let Some((session, text)) = split_session(line) else {
            return Err(CommandFault::Syntax);
        };
        let verb = parse_verb(alloc, text)?;
        Ok(Command { session, verb })
    }
}
