//! The words of the command.

ghost use Rattle.std.specs.Prelude.{◌≡◌, ◌<◌, ◌≤◌, ◌&&◌, nat_le, IfOk, IfSome, if◌then◌else◌, map};
ghost use Rattle.std.specs.Prelude.{option_map, string_bytes};
ghost use Rattle.std.specs.List.{list_all};
ghost use Rattle.std.specs.Char.{is_ascii_digit};
ghost use Rattle.clap.specs.Words.{app_of, first_of, found_of, rows_of};
ghost use Rattle.command_words.specs.Commands.{app, command_in, command_of, has_proofs, is_numeral};
ghost use Rattle.command_words.specs.Commands.{mode_in, mode_named, numeral_within, option_number};
ghost use Rattle.command_words.specs.Commands.{rows_taken};

use crate::command::{Command, Mode};
use clap::error::ErrorKind;
use clap::{Arg, ArgAction, ArgMatches};
use league_core::OutOfMemory;
use std::alloc::Global;

/// The command of the words, if they fit. The first is the program's own name.
pub fn command_of(alloc: Global, words: &[String]) -> Result<Option<Command>, OutOfMemory>
    ensures value { IfOk result (λ command. command ≡ command_of (map string_bytes words.now)) }
    ensures workers { IfOk result (λ found. IfSome found (λ command.
        (0 < command.workers) × (command.workers ≤ 8))) }
{
    match matched(alloc, words)? {
        Some(matches) => Ok(command_in(&matches)),
        None => Ok(None),
    }
}

// The matches of the words, if clap takes them.
fn matched<'a>(alloc: Global, words: &'a [String]) -> Result<Option<ArgMatches<'a>>, OutOfMemory>
    ensures { IfOk result (λ found. option_map (λ matches. rows_of (found_of matches)) found
        ≡ rows_taken (map string_bytes words.entry.now)) }
{
    let app = app(alloc)?;
    match app.try_get_matches_from(words) {
        Ok(matches) => Ok(Some(matches)),
        Err(error) => {
            if error.kind() == ErrorKind::OutOfMemory {
                Err(OutOfMemory)
            } else {
                Ok(None)
            }
        }
    }
}

fn app<'a>(alloc: Global) -> Result<clap::Command<'a>, OutOfMemory>
    ensures { IfOk result (λ made. app_of made ≡ app) }
{
    let mode = Arg::new(alloc, "mode").required(true);
    let workers = Arg::new(alloc, "workers").long("workers");
    let proofs = Arg::new(alloc, "proofs")
        .long("proofs")
        .action(ArgAction::SetTrue);
    let seed = Arg::new(alloc, "seed").long("seed");
    let whole = clap::Command::new(alloc, "futmax")
        .arg(mode)?
        .arg(workers)?
        .arg(proofs)?
        .arg(seed)?;
    Ok(whole)
}

fn command_in(matches: &ArgMatches<'_>) -> Option<Command>
    ensures value { result ≡ command_in (rows_of (found_of matches.now)) }
    ensures workers { IfSome result (λ command. (0 < command.workers) × (command.workers ≤ 8)) }
{
    let mode = mode_in(matches)?;
    let workers = option_number(matches, "workers", 4, 1, 8)?;
    Some(Command {
        mode,
        workers: workers as u8,
    })
}

fn mode_in(matches: &ArgMatches<'_>) -> Option<Mode>
    ensures { result ≡ mode_in (rows_of (found_of matches.now)) }
{
    let seed = option_number(matches, "seed", 1, 0, u64::MAX)?;
    let word = text_of(matches, "mode")?;
    mode_named(word, has_proofs(matches), seed)
}

fn mode_named(word: &str, proofs: bool, seed: u64) -> Option<Mode>
    ensures { result ≡ mode_named word.now proofs seed }
{
    if word == "verdicts" {
        Some(Mode::Verdicts { proofs })
    } else if word == "table" {
        Some(Mode::Table)
    } else if word == "scores" {
        Some(Mode::Scores)
    } else if word == "whatif" {
        Some(Mode::WhatIf)
    } else if word == "save" {
        Some(Mode::Save)
    } else if word == "resume" {
        Some(Mode::Resume { proofs })
    } else if word == "decide" {
        Some(Mode::Decide { proofs })
    } else if word == "check" {
        Some(Mode::Check { wide: false })
    } else if word == "decide_check" {
        Some(Mode::Check { wide: true })
    } else if word == "groups" {
        Some(Mode::Groups { proofs })
    } else if word == "groups_check" {
        Some(Mode::GroupsCheck)
    } else if word == "sample" {
        Some(Mode::Sample { seed })
    } else {
        None
    }
}

fn has_proofs(matches: &ArgMatches<'_>) -> bool
    ensures { result ≡ has_proofs (rows_of (found_of matches.now)) }
{
    match text_of(matches, "proofs") {
        Some(text) => text == "true",
        None => false,
    }
}

// The number of an option, `absent` if it is not given.
fn option_number(
    matches: &ArgMatches<'_>,
    id: &str,
    absent: u64,
    least: u64,
    most: u64,
) -> Option<u64>
    requires least { least ≤ absent }
    requires most { absent ≤ most }
    ensures value { result
        ≡ option_number absent least most (first_of id.now (rows_of (found_of matches.now))) }
    ensures within { IfSome result (λ number. (least ≤ number) × (number ≤ most)) }
{
    match text_of(matches, id) {
        Some(text) => numeral_within(text, least, most),
        None => Some(absent),
    }
}

fn text_of<'a>(matches: &ArgMatches<'a>, id: &str) -> Option<&'a str>
    ensures { option_map (λ text. text.now) result
        ≡ first_of id.now (rows_of (found_of matches.now)) }
{
    matches.get_str(id)
}

fn numeral_within(text: &str, least: u64, most: u64) -> Option<u64>
    ensures value { result ≡ numeral_within least most text.now }
    ensures within { IfSome result (λ number. (least ≤ number) × (number ≤ most)) }
{
    if !is_numeral(text.as_bytes()) {
        return None;
    }
    match text.parse::<u64>() {
        Ok(number) => number_if(number, least, most),
        Err(_) => None,
    }
}

// A number that is in range.
fn number_if(number: u64, least: u64, most: u64) -> Option<u64>
    ensures value { result
        ≡ (if nat_le least number && nat_le number most then Some number else None) }
    ensures within { IfSome result (λ number. (least ≤ number) × (number ≤ most)) }
{
    if least <= number && number <= most {
        Some(number)
    } else {
        None
    }
}

fn is_numeral(text: &[u8]) -> bool
    ensures { result ≡ is_numeral text.now }
{
    1 <= text.len() && text.len() <= 20 && has_digits(text)
}

fn has_digits(text: &[u8]) -> bool
    ensures { result ≡ list_all is_ascii_digit text.now }
{
    text.iter().all(|byte| byte.is_ascii_digit())
}
