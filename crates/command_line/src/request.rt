// From words to a subcommand of any table, with its numbers.
ghost use Rattle.std.specs.Prelude.{◌≡◌, ◌<◌, ◌^◌, ℕ, [], IfErr, IfOk, List, MatchResult, OnOk, Some};
ghost use Rattle.std.specs.Prelude.{Option, codes, is_some, length, map, not, option_map, position, slice_index, true};
ghost use Rattle.std.specs.List.{All, list_any};
ghost use Rattle.std.specs.Str.{bytes_eq};
ghost use Rattle.clap.specs.Words.{Text, fault_of, first_value, found_of, rows_of, subcommand_of};
ghost use Rattle.clap.specs.Words.{subcommand_rows_of, takes};
ghost use Rattle.clap.specs.Walk.{texts};
ghost use Rattle.command_line.specs.Commands.{table_app};
ghost use Rattle.command_line.specs.Numbers.{IsNumber, number_of};
ghost use Rattle.command_line.specs.Requests.{AreCallsOf, AreNumbersOf, Asks, Meets, are_named};
ghost use Rattle.command_line.specs.Requests.{IsDescribedBy, IsNumberOf, StandsFor, asked_of, flags_of, has_named};
ghost use Rattle.command_line.specs.Requests.{is_named, number_named, values_of};
ghost use Rattle.command_line.specs.Tables.{Usage, choice_of, flag_of, is_table, place_named, usage_named, usage_of};
ghost use Rattle.command_line.specs.Words.{Given, Gives, IsUse};

use crate::asked::Request;
use crate::command::command_of;
use crate::fault::LineFault;
use crate::table::{Subcommand, ValueOption, Values};
use clap::ArgMatches;
use std::alloc::{AllocError, Global};

impl Request<'_> {
    /// Returns the number of the option of this name.
    pub(crate) fn number(&self, name: &str) -> u32
        requires there { place_named name.now (flags_of self.now) < length self.now.numbers.items }
        requires fits { number_named name.now self.now < 2 ^ 32 }
        ensures { result ≡ number_named name.entry.now self.now }
    {
        self.wide_number(name) as u32
    }

    /// Returns the number of the option of this name. It may be too large for a `u32`.
    pub(crate) fn wide_number(&self, name: &str) -> u64
        requires { place_named name.now (flags_of self.now) < length self.now.numbers.items }
        ensures { result ≡ number_named name.entry.now self.now }
    {
        self.numbers[place_of_option(self.subcommand.options, name)]
    }
}

/// Returns what `words` ask for by a table of subcommands. The first word is the program's name.
pub(crate) fn read_request<'a>(
    alloc: Global,
    name: &'a str,
    about: &'a str,
    table: &'a [Subcommand<'a>],
    words: &'a [&'a str],
) -> Result<Request<'a>, LineFault>
    requires { is_table (map usage_of table.now) ≡ true }
    ensures asked { IfOk result (λ r. Asks (map usage_of table.entry.now)
        (subcommand_of (table_app name.entry.now (map usage_of table.entry.now))
        (texts words.entry.now)) (asked_of r)) }
    ensures described { IfOk result (IsDescribedBy (map usage_of table.entry.now)) }
    ensures accepted { OnOk result
        (fault_of (table_app name.entry.now (map usage_of table.entry.now))
        (texts words.entry.now) ≡ []) }
    ensures named { OnOk result (has_named (map usage_of table.entry.now)
        (subcommand_of (table_app name.entry.now (map usage_of table.entry.now))
        (texts words.entry.now)) ≡ true) }
    ensures refused { fault_of (table_app name.entry.now (map usage_of table.entry.now))
        (texts words.entry.now) ≡ []
        → has_named (map usage_of table.entry.now)
        (subcommand_of (table_app name.entry.now (map usage_of table.entry.now))
        (texts words.entry.now)) ≡ true
        → IfErr result (λ e. e ≡ LineFault.Memory) }
    // If `clap` takes the words by its own test, and each value is one of its option's words, only
    // memory can run out.
    ensures taken { takes (table_app name.entry.now (map usage_of table.entry.now))
        (texts words.entry.now) ≡ true
        → has_named (map usage_of table.entry.now)
        (subcommand_of (table_app name.entry.now (map usage_of table.entry.now))
        (texts words.entry.now)) ≡ true
        → IfErr result (λ e. e ≡ LineFault.Memory) }
    // A subcommand, its options in any order and numbers of calls are always accepted. A switch has
    // no value.
    ensures given { (usage : Usage) (given : List Given) (calls : List Text)
        → IsUse (map usage_of table.entry.now) (texts words.entry.now) usage given calls
        → MatchResult result (λ r. Gives usage given calls (asked_of r))
        (λ e. e ≡ LineFault.Memory) }
{
    match command_of(alloc, name, about, table)?.try_get_matches_from(words) {
        Ok(matches) => request_of(alloc, table, &matches),
        Err(error) => Err(LineFault::of(alloc, &error)),
    }
}

// Returns what the subcommand in these matches asks for.
fn request_of<'a>(
    alloc: Global,
    table: &'a [Subcommand<'a>],
    matches: &ArgMatches<'_>,
) -> Result<Request<'a>, LineFault>
    requires { Meets (map usage_of table.now) (subcommand_rows_of matches.now) }
    ensures asked { IfOk result (λ r. Asks (map usage_of table.entry.now)
        (subcommand_rows_of matches.now) (asked_of r)) }
    ensures described { IfOk result (IsDescribedBy (map usage_of table.entry.now)) }
    ensures named { OnOk result
        (has_named (map usage_of table.entry.now) (subcommand_rows_of matches.now) ≡ true) }
    ensures refused { has_named (map usage_of table.entry.now) (subcommand_rows_of matches.now)
        ≡ true → IfErr result (λ e. e ≡ LineFault.Memory) }
{
    let (name, matched) = matches.subcommand().unwrap();
    let subcommand = subcommand_named(table, name);
    if let Some(option) = unknown_option(matched, subcommand.options) {
        let value = matched.get_str(option.name).unwrap_or("");
        return Err(LineFault::of_unknown_word(alloc, option, value));
    }
    Ok(Request {
        subcommand,
        numbers: numbers_of_options(alloc, matched, subcommand.options)?,
        calls: calls_of(alloc, matched, subcommand.takes_calls)?,
    })
}

// Returns the first option whose value is not one of its words.
fn unknown_option<'a>(
    matches: &ArgMatches<'_>,
    options: &'a [ValueOption<'a>],
) -> Option<&'a ValueOption<'a>>
    ensures { is_some result
        ≡ not (are_named (map flag_of options.entry.now) (first_value (found_of matches.now))) }
{
    for option in options {
        if !is_named(option.values, matches.get_str(option.name)) {
            return Some(option);
        }
    }
    None
}

// Returns whether the value is one of the words, if the option takes words.
fn is_named(values: Values<'_>, value: Option<&str>) -> bool
    ensures { result ≡ is_named (choice_of values.entry) (option_map (λ text. text.now) value.entry) }
{
    match (values, value) {
        (Values::Among(words), Some(text)) => is_among(text, words),
        _ => true,
    }
}

// Returns whether the text is one of the words.
fn is_among(text: &str, words: &[&str]) -> bool
    ensures { result ≡ list_any (λ word. bytes_eq word.now text.now) words.now }
{
    words.iter().any(|word| *word == text)
}

// Returns the first place at which the text is among the words.
fn place_of(text: &str, words: &[&str]) -> Option<usize>
    ensures { result ≡ position (λ word. bytes_eq word.now text.now) words.now }
{
    words.iter().position(|word| *word == text)
}

// Returns the first place of an option of this name. If there is none, returns how many options
// there are.
fn place_of_option(options: &[ValueOption<'_>], name: &str) -> usize
    ensures { result ≡ place_named name.now (map flag_of options.now) }
{
    first_named(options, name).unwrap_or(options.len())
}

// Returns the place of the first option of this name.
fn first_named(options: &[ValueOption<'_>], name: &str) -> Option<usize>
    ensures { result ≡ position (λ option. bytes_eq option.name.now name.now) options.now }
{
    options.iter().position(|option| option.name == name)
}

// Returns the subcommand of this name.
fn subcommand_named<'a>(table: &'a [Subcommand<'a>], name: &str) -> &'a Subcommand<'a>
    requires { is_some (usage_named name.now (map usage_of table.now)) ≡ true }
    ensures { usage_named name.now (map usage_of table.entry.now) ≡ Some (usage_of result.now) }
{
    for subcommand in table {
        if subcommand.name == name {
            return subcommand;
        }
    }
    unreachable!()
}

// Returns the number of each option, in the order of the options.
fn numbers_of_options(
    alloc: Global,
    matches: &ArgMatches<'_>,
    options: &[ValueOption<'_>],
) -> Result<Vec<u64>, AllocError>
    requires { (ns : List ℕ)
        × AreNumbersOf (map flag_of options.now) (first_value (found_of matches.now)) ns }
    ensures { IfOk result (λ v. AreNumbersOf (map flag_of options.now)
        (first_value (found_of matches.now)) v.items) }
{
    let mut numbers = Vec::new(alloc);
    for option in options {
        numbers.push(number_of_option(matches, option))?;
    }
    Ok(numbers)
}

// Returns the number of an option's value, or the default if the option is not given.
fn number_of_option(matches: &ArgMatches<'_>, option: &ValueOption<'_>) -> u64
    requires { (n : ℕ) × IsNumberOf (flag_of option.now)
        (first_value (found_of matches.now) option.now.name.now) n }
    ensures { IsNumberOf (flag_of option.now)
        (first_value (found_of matches.now) option.now.name.now) result }
{
    match matches.get_str(option.name) {
        Some(text) => number_of_value(option.values, text),
        None => option.default.unwrap(),
    }
}

// Returns the number of a value: the one that it spells, or the place of the word, or 1 of a switch.
fn number_of_value(values: Values<'_>, text: &str) -> u64
    requires { (n : ℕ) × StandsFor (choice_of values) text.now n }
    ensures { StandsFor (choice_of values.entry) text.now result }
{
    match values {
        Values::Within(..) => text.parse::<u64>().unwrap(),
        Values::Among(words) => place_of(text, words).unwrap() as u64,
        Values::Switch => 1,
    }
}

// Returns the numbers of the calls, if the subcommand takes them.
fn calls_of(
    alloc: Global,
    matches: &ArgMatches<'_>,
    takes_calls: bool,
) -> Result<Vec<u32>, AllocError>
    requires { (ns : List ℕ) × AreCallsOf takes_calls
        (values_of (codes "CALL") (rows_of (found_of matches.now))) ns }
    ensures { IfOk result (λ v. AreCallsOf takes_calls
        (values_of (codes "CALL") (rows_of (found_of matches.now))) v.items) }
{
    if takes_calls {
        return numbers_of(alloc, matches.get_strs("CALL").unwrap_or(&[]));
    }
    Ok(Vec::new(alloc))
}

// Returns the numbers that the words spell.
fn numbers_of(alloc: Global, words: &[&str]) -> Result<Vec<u32>, AllocError>
    requires { All IsNumber (texts words.now) }
    ensures { IfOk result (λ v. v.items ≡ map number_of (texts words.now)) }
{
    let mut numbers = Vec::new(alloc);
    for word in words {
        numbers.push(word.parse::<u32>().unwrap())?;
    }
    Ok(numbers)
}
