//! How the words of the command line call the program.

ghost use Rattle.std.specs.Prelude.{◌≡◌, ◌<◌, ◌≤◌, ◌^◌, length, map, string_bytes, IfOk, IfSome, MatchOption, MatchResult, None};
ghost use Rattle.segdag.specs.Usage.{ArePartsOf, EndsUncalled, IsCalledBy, mode_words};

use crate::remotes::between;
use dag_run::{split_words, usage_of};
use program_words::Usage;
use std::alloc::Global;

/// The status of words that aren't a usage.
const NO_USAGE: u8 = 2;

/// The parts of the words.
#[derive(Clone, Copy)]
pub struct Parts<'a> {
    /// The log's path.
    pub path: &'a String,
    /// The words of the remotes.
    pub remotes: &'a [String],
    /// The words behind the `--`.
    pub mode: &'a [String],
}

/// How the program is called.
#[derive(Clone, Copy)]
pub struct Called<'a> {
    /// The log's path.
    pub path: &'a String,
    /// The words of the remotes.
    pub remotes: &'a [String],
    /// What the words behind the `--` are.
    pub usage: Usage,
}

/// The parts of the words, the program's own name in front, at the first `--`. `None` where it is missing or where the log's path is.
fn parts_of<'a>(words: &'a [String]) -> Option<Parts<'a>>
    requires { length words.now < 2 ^ 32 }
    ensures parts { MatchOption result (mode_words (map string_bytes words.now) ≡ None) (ArePartsOf (map string_bytes words.now)) }
    ensures few { IfSome result (λ parts. length parts.remotes.now ≤ length words.now) }
{
    let (_name, rest) = words.split_first()?;
    let split = split_words(rest)?;
    let path = rest.first()?;
    Some(Parts {
        path,
        remotes: between(rest, split.remotes as usize, split.rest as usize),
        mode: &rest[split.rest as usize..],
    })
}

/// How the words, the program's own name in front, call the program; or the status of a program that ends at once.
pub fn called_by<'a>(alloc: Global, words: &'a [String]) -> Result<Called<'a>, u8>
    requires { length words.now < 2 ^ 32 }
    ensures called { MatchResult result (IsCalledBy (map string_bytes words.now)) (EndsUncalled (map string_bytes words.now)) }
    ensures few { IfOk result (λ called. length called.remotes.now < 2 ^ 32) }
    ensures able { IfOk result (λ called. (0 < called.usage.cache) × (1 ≤ called.usage.size)) }
{
    let Some(parts) = parts_of(words) else {
        return Err(NO_USAGE);
    };
    match usage_of(alloc, parts.mode) {
        Ok(usage) => Ok(Called {
            path: parts.path,
            remotes: parts.remotes,
            usage,
        }),
        Err(status) => Err(status),
    }
}
