//! What a usage of the program is.

ghost use Rattle.std.specs.Prelude.{◌≡◌, ◌≢◌, ◌↔◌, ◌^◌, ◌-◌, IsTrue, MatchOption, Some, codes, ℕ};
ghost use Rattle.clap.specs.Words.{found_of, one_text, first_value};
ghost use Rattle.program_words.specs.Usage.{mode_text, WritesNumber, Finds};

use clap::ArgMatches;

/// What the program is to do.
#[derive(Clone, Copy, PartialEq, Eq, Debug)]
pub enum Mode {
    /// Answer the lines of the input.
    Run,
    /// Answer lines that the program makes itself.
    Demo,
    /// Answer the framed requests of the input over the one mirror.
    Serve,
    /// Put the bundle of the stored master.
    Bundle,
    /// Write the log anew, to the spare disk.
    Compact,
}

/// How the program is used. What its mode doesn't use is there all the same.
#[derive(Clone, Copy, PartialEq, Eq, Debug)]
pub struct Usage {
    pub mode: Mode,
    /// How many fetched names are kept.
    pub cache: u32,
    /// How many commits a demonstration has.
    pub size: u32,
    /// The number with which a demonstration's drawing begins.
    pub start: u64,
    /// Whether a log that another process has is waited for.
    pub wait: bool,
}

/// Why words weren't read.
#[derive(Clone, Copy, PartialEq, Eq, Debug)]
pub enum WordsFault {
    /// They are no usage.
    Usage,
    /// Memory is wanting.
    Memory,
}

/// The mode of this word.
fn mode_of(word: &str) -> Option<Mode>
    ensures { MatchOption result ((mode : _) → word.now ≢ mode_text mode) (λ mode. word.now ≡ mode_text mode) }
{
    if word == "run" {
        return Some(Mode::Run);
    }
    if word == "demo" {
        return Some(Mode::Demo);
    }
    if word == "serve" {
        return Some(Mode::Serve);
    }
    if word == "bundle" {
        return Some(Mode::Bundle);
    }
    if word == "compact" {
        return Some(Mode::Compact);
    }
    None
}

/// The mode that is given, if it is one.
fn mode_given(matches: &ArgMatches<'_>) -> Option<Mode>
    ensures { MatchOption result ((mode : _) → first_value (found_of matches.now) (codes "MODE") ≢ Some (mode_text mode))
        (λ mode. first_value (found_of matches.now) (codes "MODE") ≡ Some (mode_text mode)) }
{
    mode_of(matches.get_str("MODE")?)
}

/// The number that is given under this name, if it is one from 1 to `most`.
fn number_given(matches: &ArgMatches<'_>, name: &str, most: u32) -> Option<u32>
    ensures { MatchOption result ((n : ℕ) → ¬ (WritesNumber 1 most (one_text (found_of matches.now) name.now) n))
        (WritesNumber 1 most (one_text (found_of matches.now) name.now)) }
{
    let number = matches.get_one::<u32>(name)?;
    if number == 0 || number > most {
        return None;
    }
    Some(number)
}

/// The number of 64 bits that is given under this name, if it is one.
fn long_number_given(matches: &ArgMatches<'_>, name: &str) -> Option<u64>
    ensures { MatchOption result ((n : ℕ) → ¬ (WritesNumber 0 (2 ^ 64 - 1) (one_text (found_of matches.now) name.now) n))
        (WritesNumber 0 (2 ^ 64 - 1) (one_text (found_of matches.now) name.now)) }
{
    matches.get_one(name)
}

/// Whether the flag `--wait` is given.
fn is_waiting(matches: &ArgMatches<'_>) -> bool
    ensures { IsTrue result ↔ (first_value (found_of matches.now) (codes "wait") ≡ Some (codes "true")) }
{
    match matches.get_str("wait") {
        Some(word) => word == "true",
        None => false,
    }
}

/// The usage that these matches are of; `None` where they are of none.
pub fn usage_of(matches: &ArgMatches<'_>) -> Option<Usage>
    ensures { MatchOption result ((usage : _) → ¬ (Finds matches.now usage)) (Finds matches.now) }
{
    Some(Usage {
        mode: mode_given(matches)?,
        cache: number_given(matches, "cache", 65_536)?,
        size: number_given(matches, "size", 60_000)?,
        start: long_number_given(matches, "start")?,
        wait: is_waiting(matches),
    })
}
