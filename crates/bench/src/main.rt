//! The benchmarks, a word for each, and no word for all in turn. What was counted goes to the output, how long it took to
//! the error output. A benchmark is a module with a `run`, and a line in each of `Bench`, `WORDS` and `run`.

#![tactic(auto)]

ghost use Rattle.std.specs.Prelude.{◌≤◌};

mod flat;
mod graph;
mod levels;
mod map;
mod names;
mod placing;
mod random;
mod spans;
mod telling;
mod walks;

use std::env;
use std::io::{self, Eprint};
use std::process::ExitCode;

/// What is timed.
#[derive(Clone, Copy)]
enum Bench {
    Flat,
    Levels,
    Map,
    Names,
    Placing,
    Spans,
    Walks,
}

/// The word for each benchmark.
const WORDS: [(&str, Bench); 7] = [
    ("flat", Bench::Flat),
    ("levels", Bench::Levels),
    ("map", Bench::Map),
    ("names", Bench::Names),
    ("placing", Bench::Placing),
    ("spans", Bench::Spans),
    ("walks", Bench::Walks),
];

/// How many commits a drawn history has where the words ask for no other number.
const LEAST_SIZE: u64 = 1_000;

const MOST_SIZE: u64 = 16_000_000;

/// How many commits the words behind the benchmark's own ask for: `--size N`.
fn size_of(options: &[String]) -> u64
    ensures least { 1000 ≤ result }
    ensures most { result ≤ 16000000 }
{
    match options {
        [option, number, ..] if option.as_str() == "--size" => match number.parse::<u64>() {
            Ok(size) => size.max(LEAST_SIZE).min(MOST_SIZE),
            Err(_) => LEAST_SIZE,
        },
        _ => LEAST_SIZE,
    }
}

/// Runs a benchmark; drawn histories have so many commits.
fn run(rt: &HostRuntime, bench: Bench, size: u64) -> io::Result<()>
    requires { size ≤ 16000000 }
{
    match bench {
        Bench::Flat => flat::run(rt),
        Bench::Levels => levels::run(rt, size),
        Bench::Map => map::run(rt),
        Bench::Names => names::run(rt),
        Bench::Placing => placing::run(rt),
        Bench::Spans => spans::run(rt),
        Bench::Walks => walks::run(rt, size),
    }
}

/// Runs the benchmarks that the word names, and each where there is none. Whether there were any.
fn run_named(rt: &HostRuntime, word: Option<&str>, size: u64) -> io::Result<bool>
    requires { size ≤ 16000000 }
{
    let mut is_known = false;
    for (name, bench) in &WORDS {
        if word.is_none() || word == Some(*name) {
            run(rt, *bench, size)?;
            is_known = true;
        }
    }
    Ok(is_known)
}

fn run_words(rt: &HostRuntime) -> io::Result<bool> {
    let words = env::args(rt)?.skip(1).collect::<Vec<String>>(rt.alloc())?;
    match words.split_first() {
        Some((word, options)) => run_named(rt, Some(word.as_str()), size_of(options)),
        None => run_named(rt, None, LEAST_SIZE),
    }
}

fn main(rt: HostRuntime) -> ExitCode {
    match run_words(&rt) {
        Ok(true) => ExitCode::SUCCESS,
        Ok(false) => {
            let _told = eprintln!(rt;
                "usage: bench [flat|levels|map|names|placing|spans|walks [--size N]]"
            );
            ExitCode::from(2)
        }
        Err(_) => ExitCode::from(1),
    }
}
