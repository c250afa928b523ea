//! The words of the command line.

ghost use Rattle.std.specs.Prelude.{◌≡◌, ◌≤◌, ◌<◌, ◌^◌, ◌*◌, length, take, drop, option_map, IfSome};
ghost use Rattle.unum_cli.specs.Words.{number_from, number_within, limit_of, limit_in, workers_in, run_with, workers_first, limit_first, run_in, run_command, command, central, simulation, with_limit, with_sessions, without_options, IsLimited, IsLimitedRun};

use crate::commands::{BundleCommand, Command, RunOptions};
use unum_json::{Items, Text};

/// The limit where none is given.
const LIMIT: u64 = 1_000_000;

/// The number that up to eight decimal digits spell.
#[tactic(auto, unfolding(crate::specs::Words::number_from))]
fn number(word: &[u8]) -> Option<u64>
    requires { length word.now ≤ 8 }
    ensures { result ≡ number_from 0 word.now }
{
    let mut n: u64 = 0;
    for digit in word {
        if !(48 <= *digit && *digit <= 57) {
            return None;
        }
        n = n * 10 + u64::from(*digit - 48);
    }
    Some(n)
}

/// One to eight digits, which spell a number from 1 to the most.
#[tactic(auto, unfolding(crate::specs::Words::number_within))]
fn number_within(most: u64, word: &[u8]) -> Option<u64>
    ensures value { result ≡ number_within most word.now }
    ensures within { IfSome result (λ n. n ≤ most) }
    ensures some { IfSome result (λ n. 1 ≤ n) }
{
    if word.is_empty() || word.len() > 8 {
        return None;
    }
    let n = number(word)?;
    if 1 <= n && n <= most { Some(n) } else { None }
}

/// A limit, which is at most 10,000,000.
fn limit_of(word: &[u8]) -> Option<u64>
    ensures value { result ≡ limit_of word.now }
    ensures within { IfSome result (λ n. n ≤ 10000000) }
{
    number_within(10_000_000, word)
}

/// The limit of the options: 1,000,000, or the one in `--limit N` or `--limit=N`.
fn limit_in(words: &[Text]) -> Option<u64>
    ensures value { result ≡ limit_in words.now }
    ensures within { IfSome result (λ n. n ≤ 10000000) }
{
    match words {
        [] => Some(LIMIT),
        [word] => limit_of(word.as_bytes().strip_prefix(b"--limit=")?),
        [word, number] => {
            if word.as_bytes() == b"--limit".as_slice() {
                limit_of(number.as_bytes())
            } else {
                None
            }
        }
        _ => None,
    }
}

/// The workers in `--workers W` or `--workers=W`: from 1 to 32.
fn workers_in(words: &[Text]) -> Option<u64>
    ensures value { result ≡ workers_in words.now }
    ensures within { IfSome result (λ n. n ≤ 32) }
    ensures some { IfSome result (λ n. 1 ≤ n) }
{
    match words {
        [word] => number_within(32, word.as_bytes().strip_prefix(b"--workers=")?),
        [word, number] => {
            if word.as_bytes() == b"--workers".as_slice() {
                number_within(32, number.as_bytes())
            } else {
                None
            }
        }
        _ => None,
    }
}

/// Workers and a limit, where both are there.
fn run_with(workers: Option<u64>, limit: Option<u64>) -> Option<RunOptions>
    requires few { IfSome workers (λ n. n ≤ 32) }
    requires some { IfSome workers (λ n. 1 ≤ n) }
    requires limited { IfSome limit (λ n. n ≤ 10000000) }
    ensures value { result ≡ run_with workers limit }
    ensures limited { IfSome result IsLimitedRun }
{
    match (workers, limit) {
        (Some(workers), Some(limit)) => Some(RunOptions {
            workers: workers as u32,
            limit,
        }),
        _ => None,
    }
}

/// The first words, `count` of them or all, and the others.
fn split(words: &[Text], count: usize) -> (&[Text], &[Text])
    ensures { (result.0.now ≡ take count words.now) × (result.1.now ≡ drop count words.now) }
{
    match words.split_at_checked(count) {
        Some(parts) => parts,
        None => (words, &[]),
    }
}

/// Workers in the first words, and a limit in the others.
fn workers_first(count: usize, words: &[Text]) -> Option<RunOptions>
    ensures value { result ≡ workers_first count words.now }
    ensures limited { IfSome result IsLimitedRun }
{
    let (front, back) = split(words, count);
    run_with(workers_in(front), limit_in(back))
}

/// A limit in the first words, and workers in the others.
fn limit_first(count: usize, words: &[Text]) -> Option<RunOptions>
    ensures value { result ≡ limit_first count words.now }
    ensures limited { IfSome result IsLimitedRun }
{
    let (front, back) = split(words, count);
    run_with(workers_in(back), limit_in(front))
}

/// The options of `run`, in any order.
fn run_in(words: &[Text]) -> Option<RunOptions>
    ensures value { result ≡ run_in words.now }
    ensures limited { IfSome result IsLimitedRun }
{
    if let Some(options) = workers_first(1, words) {
        return Some(options);
    }
    if let Some(options) = workers_first(2, words) {
        return Some(options);
    }
    if let Some(options) = limit_first(1, words) {
        return Some(options);
    }
    limit_first(2, words)
}

/// The options of `run`, where the words are it.
#[tactic(auto, unfolding(crate::specs::Words::run_command))]
pub fn run_command(words: &Items<Text>) -> Option<RunOptions>
    ensures value { result ≡ run_command words.now }
    ensures limited { IfSome result IsLimitedRun }
{
    match words.as_slice() {
        [] => None,
        [word, options @ ..] => {
            if word.as_bytes() == b"run".as_slice() {
                run_in(options)
            } else {
                None
            }
        }
    }
}

/// A command that has no options.
fn without_options(command: Command, options: &[Text]) -> Option<Command>
    requires { IsLimited command }
    ensures value { result ≡ without_options command options.now }
    ensures limited { IfSome result IsLimited }
{
    match options {
        [] => Some(command),
        _ => None,
    }
}

/// `central` with its limit.
fn central(words: &[Text]) -> Option<Command>
    ensures value { result ≡ with_limit central words.now }
    ensures limited { IfSome result IsLimited }
{
    match limit_in(words) {
        Some(limit) => Some(Command::Bundle(BundleCommand::Central { limit })),
        None => None,
    }
}

/// `simulate` with its limit.
fn simulate(words: &[Text]) -> Option<Command>
    ensures value { result ≡ with_limit simulation words.now }
    ensures limited { IfSome result IsLimited }
{
    match limit_in(words) {
        Some(limit) => Some(Command::Bundle(BundleCommand::Simulate { limit })),
        None => None,
    }
}

/// `make` with its number of sessions.
fn make(words: &[Text]) -> Option<Command>
    ensures value { result ≡ with_sessions Command.Make words.now }
    ensures limited { IfSome result IsLimited }
{
    match words {
        [number] => match number_within(1000, number.as_bytes()) {
            Some(sessions) => Some(Command::Make {
                sessions: sessions as u32,
            }),
            None => None,
        },
        _ => None,
    }
}

/// The command that the words are.
#[tactic(auto, unfolding(crate::specs::Words::command))]
pub fn command(words: &Items<Text>) -> Option<Command>
    ensures value { result ≡ command words.now }
    ensures limited { IfSome result IsLimited }
{
    match words.as_slice() {
        [] => None,
        [word, options @ ..] => {
            if word.as_bytes() == b"validate".as_slice() {
                without_options(Command::Bundle(BundleCommand::Validate), options)
            } else if word.as_bytes() == b"compile".as_slice() {
                without_options(Command::Bundle(BundleCommand::Compile), options)
            } else if word.as_bytes() == b"ir".as_slice() {
                without_options(Command::Ir, options)
            } else if word.as_bytes() == b"central".as_slice() {
                central(options)
            } else if word.as_bytes() == b"simulate".as_slice() {
                simulate(options)
            } else if word.as_bytes() == b"make".as_slice() {
                make(options)
            } else {
                None
            }
        }
    }
}
