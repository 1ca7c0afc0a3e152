//! The command that the words are read as.

ghost use Rattle.std.specs.Prelude.{◌≡◌, IfOk, false};
ghost use Rattle.clap.specs.Words.{app_of, rule_of};
ghost use Rattle.program_words.specs.Command.{mode, cache, size, start, wait, command as whole};

use clap::{Arg, ArgAction, Command};
use std::alloc::{AllocError, Global};

/// The mode, which has to be there.
fn mode_arg<'a>(alloc: Global) -> Arg<'a>
    ensures rule { rule_of result ≡ mode }
    ensures global { result.global ≡ false }
{
    Arg::new(alloc, "MODE")
        .required(true)
        .action(ArgAction::Set)
}

/// How many fetched names are kept.
fn cache_arg<'a>(alloc: Global) -> Arg<'a>
    ensures rule { rule_of result ≡ cache }
    ensures global { result.global ≡ false }
{
    Arg::new(alloc, "cache")
        .long("cache")
        .action(ArgAction::Set)
        .value_parser(clap::value_parser!(u32).range(1..=65_536))
        .default_value("4096")
}

/// How many commits a demonstration has.
fn size_arg<'a>(alloc: Global) -> Arg<'a>
    ensures rule { rule_of result ≡ size }
    ensures global { result.global ≡ false }
{
    Arg::new(alloc, "size")
        .long("size")
        .action(ArgAction::Set)
        .value_parser(clap::value_parser!(u32).range(1..=60_000))
        .default_value("1000")
}

/// The number with which a demonstration's drawing begins.
fn start_arg<'a>(alloc: Global) -> Arg<'a>
    ensures rule { rule_of result ≡ start }
    ensures global { result.global ≡ false }
{
    Arg::new(alloc, "start")
        .long("start")
        .action(ArgAction::Set)
        .value_parser(clap::value_parser!(u64))
        .default_value("0")
}

/// Whether the program waits for a log that another process has.
fn wait_arg<'a>(alloc: Global) -> Arg<'a>
    ensures rule { rule_of result ≡ wait }
    ensures global { result.global ≡ false }
{
    Arg::new(alloc, "wait")
        .long("wait")
        .action(ArgAction::SetTrue)
}

/// The whole command. Its words begin with the first argument.
pub fn command<'a>(alloc: Global) -> Result<Command<'a>, AllocError>
    ensures { IfOk result (λ command. app_of command ≡ whole) }
{
    Command::new(alloc, "segdag")
        .no_binary_name(true)
        .arg(mode_arg(alloc))?
        .arg(cache_arg(alloc))?
        .arg(size_arg(alloc))?
        .arg(start_arg(alloc))?
        .arg(wait_arg(alloc))
}
