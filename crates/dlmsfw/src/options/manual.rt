//! What a command and its options are, and the parser of them.

use super::STATUSES;
use clap::{Arg, ArgAction, Command};
use std::alloc::{AllocError, Global};

/// A command, its help and its options.
pub(super) struct Manual {
    pub(super) name: &'static str,
    /// What it does, in a line or two of at most 68 characters.
    pub(super) about: &'static str,
    pub(super) options: &'static [CommandOption],
}

/// An option of a command.
pub(super) struct CommandOption {
    pub(super) name: &'static str,
    pub(super) takes: Takes,
    pub(super) presence: Presence,
    /// What it is for, in lines of at most 70 characters, with its default and its forms behind the last one.
    pub(super) help: &'static str,
}

/// What an option takes. A value has a name in the help.
pub(super) enum Takes {
    /// Nothing.
    Nothing,
    /// A text.
    Text(&'static str),
    /// A text each time that the option is given.
    Texts(&'static str),
    /// A text that stands without the name of the option.
    Argument(&'static str),
    /// One of these texts.
    OneOf(&'static str, &'static [&'static str]),
    /// A number of at most 64 bits.
    Number(&'static str),
    /// A number from the first to the second.
    Within(&'static str, u32, u32),
}

/// Whether an option is given.
pub(super) enum Presence {
    /// It must be.
    Required,
    /// It may be.
    Optional,
    /// It may be, with this other option alone.
    With(&'static str),
    /// It may be, but not with this other option.
    Without(&'static str),
    /// It may be; without it, it has this value.
    Default(&'static str),
}

/// The parser of a command, whose long help begins and ends with these texts. Its help fits a terminal of 80 columns: each option has its text
/// below it.
///
/// The texts are no part of the manual: what is proved of a constant is said for each of its parts, and each time with all its texts.
pub(super) fn command<'a>(
    alloc: Global,
    manual: &'static Manual,
    long_about: &'static str,
    endings: &'static str,
) -> Result<Command<'a>, AllocError> {
    let mut command = Command::new(alloc, manual.name)
        .about(manual.about)
        .long_about(long_about)
        .next_line_help(true)
        .after_help(STATUSES)
        .after_long_help(endings);
    for option in manual.options {
        command = command.arg(argument(alloc, option)?)?;
    }
    Ok(command)
}

/// The parser of an option.
fn argument<'a>(alloc: Global, option: &'static CommandOption) -> Result<Arg<'a>, AllocError> {
    let argument = taking(Arg::new(alloc, option.name).help(option.help), option);
    match option.presence {
        Presence::Required => Ok(argument.required(true)),
        Presence::Optional => Ok(argument),
        Presence::With(other) => argument.requires_arg(other),
        Presence::Without(other) => argument.conflicts_with(other),
        Presence::Default(value) => Ok(argument.default_value(value)),
    }
}

/// The parser of an option that takes what this one does.
fn taking<'a>(argument: Arg<'a>, option: &'static CommandOption) -> Arg<'a> {
    match option.takes {
        Takes::Nothing => flag(argument, option.name),
        Takes::Argument(value) => argument.value_name(value),
        Takes::Text(value) => valued(argument, option.name, value),
        Takes::Texts(value) => valued(argument, option.name, value).action(ArgAction::Append),
        Takes::OneOf(value, texts) => valued(argument, option.name, value).value_parser(texts),
        Takes::Number(value) => number(valued(argument, option.name, value)),
        Takes::Within(value, least, most) => {
            number_within(valued(argument, option.name, value), least, most)
        }
    }
}

/// The parser of an option of this name without a value.
fn flag<'a>(argument: Arg<'a>, name: &'static str) -> Arg<'a> {
    argument.long(name).action(ArgAction::SetTrue)
}

/// The parser of an option of this name, whose value has that name in the help.
fn valued<'a>(argument: Arg<'a>, name: &'static str, value: &'static str) -> Arg<'a> {
    argument.long(name).value_name(value)
}

/// The same, where the value is a number of at most 64 bits.
fn number(argument: Arg<'_>) -> Arg<'_> {
    argument.value_parser(clap::value_parser!(u64))
}

/// The same, where the value is a number from the first to the second.
fn number_within(argument: Arg<'_>, least: u32, most: u32) -> Arg<'_> {
    argument.value_parser(clap::value_parser!(u32).range(i64::from(least)..=i64::from(most)))
}
