#![tactic(auto)]

//! The words of a program's mode: what they are read as, and when they are refused.

ghost use Rattle.std.specs.Prelude.{◌≡◌, map, string_bytes, IfOk};
ghost use Rattle.program_words.specs.Usage.{IsUsage, IsNoUsage};

mod arguments;
mod laws;
mod usage;

use crate::arguments::command;
pub use crate::laws::{usages_are_exact, words_spelled_out};
pub use crate::usage::{Mode, Usage, WordsFault};
use clap::error::ErrorKind;
use std::alloc::Global;

/// Reads the words behind the `--`: a mode, and what was chosen beside it.
pub fn read_words(alloc: Global, words: &[String]) -> Result<Usage, WordsFault>
    ensures ok { IfOk result (λ usage. IsUsage (map string_bytes words.now) usage) }
    ensures err { result ≡ Err WordsFault.Usage → IsNoUsage (map string_bytes words.now) }
{
    let Ok(command) = command(alloc) else {
        return Err(WordsFault::Memory);
    };
    match command.try_get_matches_from(words) {
        Ok(matches) => usage::usage_of(&matches).ok_or(WordsFault::Usage),
        Err(error) if error.kind() == ErrorKind::OutOfMemory => Err(WordsFault::Memory),
        Err(_) => Err(WordsFault::Usage),
    }
}
