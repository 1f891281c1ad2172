//! The words of a form, as the kit's `clap` reads them. Nothing else in the crate knows `clap`.

ghost use Rattle.std.specs.Prelude.{◌≡◌, ◌<◌, Bool, None, Some, false, IfOk, length, option_map};
ghost use Rattle.clap.specs.Values.{bool_text};
ghost use Rattle.clap.specs.Words.{app_of, rule_of};
ghost use Rattle.command_line.specs.Fields.{fields_of};
ghost use Rattle.command_line.specs.Simple.{HasFields, app_by, flag_rule, flag_text, form_of, given_for, option_rule, positional_rule};
ghost use Rattle.command_line.specs.Words.{texts};

use crate::fault::WordsFault;
use crate::form::Form;
use clap::error::ErrorKind;
use clap::{Arg, ArgAction, ArgMatches, Command, Error};
use std::alloc::{AllocError, Global};

/// What words give to the fields of a form.
#[derive(Drop)]
pub(crate) struct Given<'a> {
    matches: ArgMatches<'a>,
}

impl<'a> Given<'a> {
    /// Reads words by a form, which takes them or not.
    pub(crate) fn by_form(
        alloc: Global,
        form: Form,
        words: &'a [String],
    ) -> Result<Given<'a>, WordsFault>
        requires { length form.positionals.now < usize.MAX }
        ensures taken { IfOk result (HasFields (form_of form) (texts words.entry.now)) }
        ensures refused { result ≡ Err WordsFault.Usage → fields_of (form_of form) (texts words.entry.now) ≡ None }
    {
        let matches = simple_command(alloc, form)?.try_get_matches_from(words)?;
        Ok(Given { matches })
    }

    /// What is given for a name.
    pub(crate) fn value(&self, name: &str) -> Option<&'a str>
        ensures { option_map (λ word. word.now) result ≡ given_for self.now name.now }
    {
        self.matches.get_str(name)
    }

    /// Whether a flag is given.
    pub(crate) fn flag(&self, name: &str) -> bool
        ensures { (given : Bool) → flag_text self.now name.now ≡ Some (bool_text given) → result ≡ given }
    {
        self.matches.get_flag(name)
    }
}

impl From<Error> for WordsFault {
    ghost use Rattle.clap.specs.Words.{kind_of};
    ghost use Rattle.command_line.specs.Simple.{fault_by};

    ghost from_gives = { λ error fault. fault ≡ fault_by (kind_of error) };

    fn from(error: Error) -> WordsFault {
        match error.kind() {
            ErrorKind::OutOfMemory => WordsFault::NoMemory,
            _ => WordsFault::Usage,
        }
    }
}

/// The simple command of a form.
fn simple_command<'a>(alloc: Global, form: Form) -> Result<Command<'a>, AllocError>
    ensures { IfOk result (λ command. app_of command ≡ app_by (form_of form)) }
{
    let mut command = Command::new(alloc, "elide")
        .no_binary_name(true)
        .disable_help_flag(true);
    for name in form.positionals {
        command = command.arg(positional(alloc, name))?;
    }
    for name in form.options {
        command = command.arg(option(alloc, name))?;
    }
    for name in form.flags {
        command = command.arg(flag(alloc, name))?;
    }
    Ok(command)
}

/// A positional word, which is required.
fn positional<'a>(alloc: Global, name: &'a str) -> Arg<'a>
    ensures rule { rule_of result ≡ positional_rule name.entry.now }
    ensures local { result.global ≡ false }
{
    Arg::new(alloc, name).required(true).action(ArgAction::Set)
}

/// An option with one value.
fn option<'a>(alloc: Global, name: &'a str) -> Arg<'a>
    ensures rule { rule_of result ≡ option_rule name.entry.now }
    ensures local { result.global ≡ false }
{
    Arg::new(alloc, name).long(name).action(ArgAction::Set)
}

/// A flag, which says that it is given.
fn flag<'a>(alloc: Global, name: &'a str) -> Arg<'a>
    ensures rule { rule_of result ≡ flag_rule name.entry.now }
    ensures local { result.global ≡ false }
{
    Arg::new(alloc, name).long(name).action(ArgAction::SetTrue)
}
