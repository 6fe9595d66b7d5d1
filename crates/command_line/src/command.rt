// The command of a table of subcommands, as `clap` has it.
ghost use Rattle.std.specs.Prelude.{◌≡◌, IfOk, false, map};
ghost use Rattle.clap.specs.Words.{app_of, rule_of};
ghost use Rattle.clap.specs.declared.builder.command.Command.TheViews.{out-Command};
ghost use Rattle.clap.specs.Walk.{texts};
ghost use Rattle.command_line.specs.Commands.{calls_rule, leaf, missing_of, option_rule, parser_for, rules_for, table_app, values_of};
ghost use Rattle.command_line.specs.Tables.{flag_of, usage_of, choice_of};

use crate::table::{Subcommand, ValueOption, Values};
use clap::builder::ValueParser;
use clap::{Arg, ArgAction, Command};
use std::alloc::{AllocError, Global};

/// Returns the command of a program with these subcommands.
pub(crate) fn command_of<'a>(
    alloc: Global,
    name: &'a str,
    about: &'a str,
    table: &'a [Subcommand<'a>],
) -> Result<Command<'a>, AllocError>
    ensures { IfOk result (λ c. app_of c ≡ table_app name.entry.now (map usage_of table.entry.now)) }
{
    let mut command = Command::new(alloc, name)
        .about(about)
        .subcommand_required(true);
    for subcommand in table {
        command = command.subcommand(subcommand_of(alloc, subcommand)?)?;
    }
    Ok(command)
}

// `NAME [OPTIONS] [CALL]..`
fn subcommand_of<'a>(
    alloc: Global,
    subcommand: &'a Subcommand<'a>,
) -> Result<Command<'a>, AllocError>
    ensures shape { IfOk result (λ c. app_of c
        ≡ leaf subcommand.entry.now.name.now (rules_for (usage_of subcommand.entry.now))) }
    ensures local { IfOk result (λ c. (out-Command c).has_globals ≡ false) }
{
    let command = with_options(alloc, subcommand)?;
    if subcommand.takes_calls {
        return command.arg(calls_argument(alloc));
    }
    Ok(command)
}

// `NAME [OPTIONS]`
fn with_options<'a>(
    alloc: Global,
    subcommand: &'a Subcommand<'a>,
) -> Result<Command<'a>, AllocError>
    ensures shape { IfOk result (λ c. app_of c ≡ leaf subcommand.entry.now.name.now
        (map option_rule (map flag_of subcommand.entry.now.options.now))) }
    ensures local { IfOk result (λ c. (out-Command c).has_globals ≡ false) }
{
    let mut command = Command::new(alloc, subcommand.name).about(subcommand.about);
    for option in subcommand.options {
        command = command.arg(option_argument(alloc, option))?;
    }
    Ok(command)
}

// `--NAME VALUE`, or `--NAME`
fn option_argument<'a>(alloc: Global, option: &'a ValueOption<'a>) -> Arg<'a>
    ensures rule { rule_of result ≡ option_rule (flag_of option.entry.now) }
    ensures local { result.global ≡ false }
{
    Arg::new(alloc, option.name)
        .long(option.name)
        .help(option.help)
        .value_name(value_name(option.values))
        .required(option.default.is_none())
        .action(ArgAction::Set)
        .num_args(values_of(option.values))
        .default_missing_values(missing_of(option.values))
        .value_parser(parser_for(option.values))
}

// Returns the name of the value in help texts.
fn value_name(values: Values<'_>) -> &'static str {
    match values {
        Values::Within(..) => "N",
        Values::Among(_) => "NAME",
        Values::Switch => "",
    }
}

// Returns how many values the option takes.
fn values_of(values: Values<'_>) -> usize
    ensures { result ≡ values_of (choice_of values.entry) }
{
    match values {
        Values::Within(..) | Values::Among(_) => 1,
        Values::Switch => 0,
    }
}

// Returns the texts that are read as values if none is given.
fn missing_of(values: Values<'_>) -> &'static [&'static str]
    ensures { texts result.now ≡ missing_of (choice_of values.entry) }
{
    match values {
        Values::Within(..) | Values::Among(_) => &[],
        Values::Switch => &["given"],
    }
}

// Returns what `clap` checks of a value. Whether the value is one of some words is checked later.
// The parser of `clap` for names holds a reference to them, so a command with that parser has no
// statement of its own.
fn parser_for<'a>(values: Values<'_>) -> ValueParser<'a>
    ensures { result ≡ parser_for (choice_of values.entry) }
{
    match values {
        Values::Within(least, greatest) => ValueParser::unsigned(least, greatest),
        Values::Among(_) | Values::Switch => ValueParser::string(),
    }
}

// `[CALL]..`
fn calls_argument<'a>(alloc: Global) -> Arg<'a>
    ensures rule { rule_of result ≡ calls_rule }
    ensures local { result.global ≡ false }
{
    Arg::new(alloc, "CALL")
        .help("The number of each operation, by its invocation, from 0")
        .num_args(0..)
        .value_parser(ValueParser::unsigned(0, 4294967295))
}
