//! The words of a command line, read as a command.
ghost use Rattle.std.specs.Prelude.{◌≡◌, ◌≤◌, length, map, string_bytes, slice_get, option_map, Some, None, Err, false, true, ◌<◌, codes, IfErr, IfOk, OnErr};
ghost use Rattle.std.specs.List.{list_any};
ghost use Rattle.clap.specs.Simple.{app_of};
ghost use Rattle.clap.specs.Matches.{first_value, found_of};
ghost use Rattle.line_json.specs.Addresses.{account_in, operator_asked};
ghost use Rattle.run_words.specs.Line.{six};
ghost use Rattle.run_words.specs.Words.{alone, asking, at_height, behind_at, command_at, command_of, committing, every_at, generating, grouping, is_option, keeping, kept_at, mode_at, of_pair, past_at, plain, with_word, with_words};

use crate::asked::{address_asked, kind_asked};
use crate::fault::WordsFault;
use crate::mode::{Command, Mode};
use crate::numbers::{count_of, every_of, height_of, seed_of};
use base_bech32::Form;
use clap::error::ErrorKind;
use clap::{Arg, ArgMatches};
use line_json::{account_of_text, operator_asked};
use std::alloc::{AllocError, Global};

/// The command line: six words by their places, none of which has to be there.
fn command_line<'a>(alloc: Global) -> Result<clap::Command<'a>, AllocError>
    ensures { IfOk result (λ command. app_of command ≡ six) }
{
    clap::Command::new(alloc, "stakeplay")
        .no_binary_name(true)
        .arg(Arg::new(alloc, "first"))?
        .arg(Arg::new(alloc, "second"))?
        .arg(Arg::new(alloc, "third"))?
        .arg(Arg::new(alloc, "fourth"))?
        .arg(Arg::new(alloc, "fifth"))?
        .arg(Arg::new(alloc, "sixth"))
}

/// Whether the word begins with a hyphen.
fn is_option(word: &[u8]) -> bool
    ensures { result ≡ is_option word.now }
{
    !word.is_empty() && word[0] == b'-'
}

/// Whether some word begins with a hyphen.
fn has_option(words: &[String]) -> bool
    ensures { result ≡ list_any (λ word. is_option (string_bytes word)) words.now }
{
    words.iter().any(|word| is_option(word.as_str().as_bytes()))
}

/// What stands at the places of at most six words, of which none begins with a hyphen. The only error is
/// `NoMemory`.
fn parsed<'a>(alloc: Global, words: &'a [String]) -> Result<ArgMatches<'a>, WordsFault>
    requires few { length words.now ≤ 6 }
    requires plain { list_any (λ word. is_option (string_bytes word)) words.now ≡ false }
    ensures first { IfOk result (λ matches. first_value (found_of matches) (codes "first")
        ≡ slice_get (map string_bytes words.now) 0) }
    ensures second { IfOk result (λ matches. first_value (found_of matches) (codes "second")
        ≡ slice_get (map string_bytes words.now) 1) }
    ensures third { IfOk result (λ matches. first_value (found_of matches) (codes "third")
        ≡ slice_get (map string_bytes words.now) 2) }
    ensures fourth { IfOk result (λ matches. first_value (found_of matches) (codes "fourth")
        ≡ slice_get (map string_bytes words.now) 3) }
    ensures fifth { IfOk result (λ matches. first_value (found_of matches) (codes "fifth")
        ≡ slice_get (map string_bytes words.now) 4) }
    ensures sixth { IfOk result (λ matches. first_value (found_of matches) (codes "sixth")
        ≡ slice_get (map string_bytes words.now) 5) }
    ensures fault { IfErr result (λ fault. fault ≡ WordsFault.NoMemory) }
{
    let command = command_line(alloc)?;
    match command.try_get_matches_from(words) {
        Ok(matches) => Ok(matches),
        Err(fault) => match fault.kind() {
            ErrorKind::OutOfMemory => Err(WordsFault::NoMemory),
            _ => unreachable!(),
        },
    }
}

/// The command of this name that commits.
fn committing(name: &str) -> Option<Mode>
    ensures { result ≡ committing name.now }
{
    if name == "replay" {
        Some(Mode::Replay)
    } else if name == "resume" {
        Some(Mode::Resume)
    } else {
        None
    }
}

/// The command of this name alone.
fn alone(name: &str) -> Option<Mode>
    ensures { result ≡ alone name.now }
{
    if name == "tally" {
        Some(Mode::Tally)
    } else if name == "check" {
        Some(Mode::Check)
    } else {
        committing(name)
    }
}

/// The command of this name, with a seed and a number of blocks.
fn generating(name: &str, seed: &str, count: &str) -> Option<Mode>
    ensures { result ≡ generating name.now seed.now count.now }
{
    if name == "gen" {
        let seed = seed_of(seed)?;
        let count = count_of(count)?;
        Some(Mode::Gen { seed, count })
    } else if name == "trial" {
        let seed = seed_of(seed)?;
        let count = count_of(count)?;
        Some(Mode::Trial { seed, count })
    } else {
        None
    }
}

/// The statements of a delegator and of an operator, whose addresses these texts spell in this form.
fn stating(form: Form, delegator: &str, operator: &str) -> Option<Mode>
    ensures { result ≡ of_pair (account_in form delegator.now) (operator_asked form operator.now) }
{
    let delegator = account_of_text(form, delegator)?;
    let operator = operator_asked(form, operator)?;
    Some(Mode::Statement {
        delegator,
        operator,
    })
}

/// The command of this name with one word.
fn with_word(name: &str, what: &str) -> Option<Mode>
    ensures { result ≡ with_word name.now what.now }
{
    if name == "query" {
        Some(Mode::Query(kind_asked(what)?))
    } else {
        None
    }
}

/// A query of this name with two words, of which one is an address in this form.
fn asking(form: Form, name: &str, first: &str, second: &str) -> Option<Mode>
    ensures { result ≡ asking form name.now first.now second.now }
{
    if name == "query" {
        Some(Mode::Query(address_asked(form, first, second)?))
    } else {
        None
    }
}

/// The command of this name with two words, of which some may be addresses in this form.
fn with_words(form: Form, name: &str, first: &str, second: &str) -> Option<Mode>
    ensures { result ≡ with_words form name.now first.now second.now }
{
    if name == "query" {
        Some(Mode::Query(address_asked(form, first, second)?))
    } else if name == "statement" {
        stating(form, first, second)
    } else {
        generating(name, first, second)
    }
}

/// What is asked for by what stands at the four places behind the word for the form.
fn mode_at(
    form: Form,
    name: Option<&str>,
    first: Option<&str>,
    second: Option<&str>,
    other: Option<&str>,
) -> Option<Mode>
    ensures { result ≡ mode_at form (option_map (λ w. w.now) name.entry)
        (option_map (λ w. w.now) first.entry) (option_map (λ w. w.now) second.entry)
        (option_map (λ w. w.now) other.entry) }
{
    match (name, first, second, other) {
        (Some(name), None, None, None) => alone(name),
        (Some(name), Some(what), None, None) => with_word(name, what),
        (Some(name), Some(first), Some(second), None) => with_words(form, name, first, second),
        _ => None,
    }
}

/// The command, which keeps nothing that it replaces, commits at each block and asks nothing of the past.
fn plain(form: Form, mode: Option<Mode>) -> Option<Command>
    ensures { result ≡ plain form mode }
{
    let mode = mode?;
    Some(Command {
        form,
        keep: false,
        every: 1,
        past: None,
        mode,
    })
}

/// The command, which keeps what it replaces, of each block.
fn keeping(form: Form, mode: Option<Mode>) -> Option<Command>
    ensures { result ≡ keeping form mode }
{
    let mode = mode?;
    Some(Command {
        form,
        keep: true,
        every: 1,
        past: None,
        mode,
    })
}

/// The command, which commits once for so many blocks.
fn grouping(form: Form, every: Option<u64>, mode: Option<Mode>) -> Option<Command>
    ensures { result ≡ grouping form every mode }
{
    let every = every?;
    let mode = mode?;
    Some(Command {
        form,
        keep: false,
        every,
        past: None,
        mode,
    })
}

/// The command, which asks of the past at this height.
fn at_height(form: Form, height: Option<u64>, mode: Option<Mode>) -> Option<Command>
    ensures { result ≡ at_height form height mode }
{
    let height = height?;
    let mode = mode?;
    Some(Command {
        form,
        keep: false,
        every: 1,
        past: Some(height),
        mode,
    })
}

/// The command of this name behind `keep`, where nothing stands behind it.
fn kept_at(name: Option<&str>, other: Option<&str>) -> Option<Mode>
    ensures { result ≡ kept_at (option_map (λ w. w.now) name.entry)
        (option_map (λ w. w.now) other.entry) }
{
    match (name, other) {
        (Some(name), None) => committing(name),
        _ => None,
    }
}

/// The command of this name behind `every`, at so many blocks, where nothing stands behind it.
fn every_at(
    form: Form,
    every: Option<&str>,
    name: Option<&str>,
    other: Option<&str>,
) -> Option<Command>
    ensures { result ≡ every_at form (option_map (λ w. w.now) every.entry)
        (option_map (λ w. w.now) name.entry) (option_map (λ w. w.now) other.entry) }
{
    match (every, name, other) {
        (Some(every), Some(name), None) => grouping(form, every_of(every), committing(name)),
        _ => None,
    }
}

/// The query behind `past`, at this height.
fn past_at(
    form: Form,
    height: Option<&str>,
    name: Option<&str>,
    what: Option<&str>,
    text: Option<&str>,
    other: Option<&str>,
) -> Option<Command>
    ensures { result ≡ past_at form (option_map (λ w. w.now) height.entry)
        (option_map (λ w. w.now) name.entry) (option_map (λ w. w.now) what.entry)
        (option_map (λ w. w.now) text.entry) (option_map (λ w. w.now) other.entry) }
{
    match (height, name, what, text, other) {
        (Some(height), Some(name), Some(what), None, None) => {
            at_height(form, height_of(height), with_word(name, what))
        }
        (Some(height), Some(name), Some(what), Some(text), None) => {
            at_height(form, height_of(height), asking(form, name, what, text))
        }
        _ => None,
    }
}

/// What is asked for by what stands at the places behind the word for the form: the first may be `keep`, `every` or `past`.
fn behind_at(
    form: Form,
    first: Option<&str>,
    second: Option<&str>,
    third: Option<&str>,
    fourth: Option<&str>,
    fifth: Option<&str>,
    sixth: Option<&str>,
) -> Option<Command>
    ensures { result ≡ behind_at form (option_map (λ w. w.now) first.entry)
        (option_map (λ w. w.now) second.entry) (option_map (λ w. w.now) third.entry)
        (option_map (λ w. w.now) fourth.entry) (option_map (λ w. w.now) fifth.entry)
        (option_map (λ w. w.now) sixth.entry) }
{
    let word = first?;
    if word == "keep" {
        keeping(form, kept_at(second, third))
    } else if word == "every" {
        every_at(form, second, third, fourth)
    } else if word == "past" {
        past_at(form, second, third, fourth, fifth, sixth)
    } else {
        plain(form, mode_at(form, first, second, third, fourth))
    }
}

/// What is asked for by what stands at the six places: the first may be `bech32`, and then the others are the command.
fn command_at(
    first: Option<&str>,
    second: Option<&str>,
    third: Option<&str>,
    fourth: Option<&str>,
    fifth: Option<&str>,
    sixth: Option<&str>,
) -> Option<Command>
    ensures { result ≡ command_at (option_map (λ w. w.now) first.entry)
        (option_map (λ w. w.now) second.entry) (option_map (λ w. w.now) third.entry)
        (option_map (λ w. w.now) fourth.entry) (option_map (λ w. w.now) fifth.entry)
        (option_map (λ w. w.now) sixth.entry) }
{
    let word = first?;
    if word == "bech32" {
        behind_at(Form::Bech32, second, third, fourth, fifth, sixth, None)
    } else {
        behind_at(Form::Hex, first, second, third, fourth, fifth, sixth)
    }
}

/// The command that was found in words; where there is none, they are no command. It takes no memory.
fn command_or_usage(found: Option<Command>) -> Result<Command, WordsFault>
    ensures command { IfOk result (λ command. found ≡ Some command) }
    ensures usage { IfErr result (λ fault. fault ≡ WordsFault.Usage) }
    ensures none { OnErr result (found ≡ None) }
{
    match found {
        Some(command) => Ok(command),
        None => Err(WordsFault::Usage),
    }
}

/// What the words ask for: `replay`; `resume`; `query` with `supply`, `pool` or `validators`; `query` with `account`,
/// `validator`, `delegations`, `rewards`, `unbondings`, `redelegations` or `signing` and an address; `tally`; `check`; `gen
/// SEED COUNT`, where SEED is 1 to 20 digits below 2^64 and COUNT is from 1 to 100,000 without zeros in front; or `trial SEED
/// COUNT`. The word `keep`, or the words `every N`, may stand before `replay` and `resume`, where N is from 1 to 1,000,000
/// without zeros in front, and the words `past HEIGHT` before `query`, where HEIGHT is digits without zeros in front, at most
/// 2^63 - 1. The word `bech32` may stand before each of these.
///
/// Behind `bech32` an address is a spelling of BIP 173, of `validator` with the prefix `cosmosvaloper`, of `signing` with
/// `cosmosvalcons`, and of all others with `cosmos`; without that word forty hexadecimal digits with small letters.
///
/// The errors are `Usage`, only where the words are none of these, and `NoMemory`. Words of which there are more than six,
/// or of which one begins with a hyphen, are read without memory, so of them it is always `Usage`.
#[tactic(auto, using(crate::proofs::RowLemmas::long_texts, crate::proofs::RowLemmas::optional_texts, crate::proofs::RowLemmas::texts_by_places))]
pub fn read_words(alloc: Global, words: &[String]) -> Result<Command, WordsFault>
    ensures command { IfOk result (λ command. command_of (map string_bytes words.now)
        ≡ Some command) }
    ensures usage { IfErr result (λ fault. fault ≡ WordsFault.Usage
        → command_of (map string_bytes words.now) ≡ None) }
    ensures long { 6 < length words.now → result ≡ Err WordsFault.Usage }
    ensures hyphen { list_any (λ word. is_option (string_bytes word)) words.now ≡ true
        → result ≡ Err WordsFault.Usage }
{
    if words.len() > 6 || has_option(words) {
        return Err(WordsFault::Usage);
    }
    let matches = parsed(alloc, words)?;
    let first = matches.get_str("first");
    let second = matches.get_str("second");
    let third = matches.get_str("third");
    let fourth = matches.get_str("fourth");
    let fifth = matches.get_str("fifth");
    let sixth = matches.get_str("sixth");
    let command = command_or_usage(command_at(first, second, third, fourth, fifth, sixth))?;
    Ok(command)
}
