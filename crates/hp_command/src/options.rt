//! An option of a command as a row of a table, and the argument that clap makes of it.
use clap::{Arg, ArgAction, Command};
use std::alloc::{AllocError, Global};

/// What stands behind an option's name.
#[derive(Clone, Copy)]
pub(crate) enum Takes {
    /// Nothing: the option is given or it isn't.
    Nothing,
    /// A number of 64 bits, which is read elsewhere, or this one.
    Long(&'static str),
    /// A number of 32 bits from one to another, or this one.
    Number(Option<&'static str>, i64, i64),
    /// One of some names, or this one.
    Name(&'static str, &'static [&'static str]),
    /// A text, or this one.
    Text(Option<&'static str>),
    /// A text, as often as the option is given.
    Texts,
}

/// An option of a command.
#[derive(Clone, Copy)]
pub(crate) struct Choice {
    pub(crate) name: &'static str,
    /// What help calls its value. Empty if it takes none.
    pub(crate) form: &'static str,
    pub(crate) takes: Takes,
    pub(crate) help: &'static str,
    /// The options that can't be given with it.
    pub(crate) conflicts: &'static [&'static str],
    /// The options without which it can't be given.
    pub(crate) needs: &'static [&'static str],
}

fn with_default<'a>(arg: Arg<'a>, default: Option<&'a str>) -> Arg<'a> {
    match default {
        Some(value) => arg.default_value(value),
        None => arg,
    }
}

fn taking<'a>(arg: Arg<'a>, takes: Takes) -> Arg<'a> {
    match takes {
        Takes::Nothing => arg.action(ArgAction::SetTrue),
        Takes::Long(default) => arg
            .action(ArgAction::Set)
            .allow_negative_numbers(true)
            .default_value(default),
        Takes::Number(default, least, most) => with_default(arg, default)
            .action(ArgAction::Set)
            .allow_negative_numbers(true)
            .value_parser(clap::value_parser!(u32).range(least..=most)),
        Takes::Name(default, names) => arg
            .action(ArgAction::Set)
            .default_value(default)
            .value_parser(names),
        Takes::Text(default) => with_default(arg, default).action(ArgAction::Set),
        Takes::Texts => arg.action(ArgAction::Append),
    }
}

// The argument, which can still be given with each other.
fn free_argument<'a>(alloc: Global, choice: &Choice) -> Arg<'a> {
    let named = Arg::new(alloc, choice.name)
        .long(choice.name)
        .help(choice.help);
    let taking = taking(named, choice.takes);
    match choice.form {
        "" => taking,
        form => taking.value_name(form),
    }
}

fn argument<'a>(alloc: Global, choice: &Choice) -> Result<Arg<'a>, AllocError> {
    let mut arg = free_argument(alloc, choice);
    for other in choice.conflicts {
        arg = arg.conflicts_with(*other)?;
    }
    arg.requires_all(choice.needs)
}

/// Adds options to a command, in their order.
pub(crate) fn with_choices<'a>(
    alloc: Global,
    command: Command<'a>,
    choices: &[Choice],
) -> Result<Command<'a>, AllocError> {
    let mut command = command;
    for choice in choices {
        command = command.arg(argument(alloc, choice)?)?;
    }
    Ok(command)
}
