//! The arguments of the program, the commands that they ask for, and how these are run.

ghost use Rattle.std.specs.Prelude.{◌≡◌, ℕ, ◌↔◌, List, Option, Bool, map, string_bytes, IfSome, IsNone};
ghost use Rattle.plist_base.specs.Outcomes.{OnlyMemory};
ghost use Rattle.plist_commands.specs.Commands.{CommandOutcome, outcome_of, PlainCommand, plain_command_of, words_for, IsNoCommand, MayEnd, RunEnds, Usage};

use crate::convert::convert_file;
use crate::messages::{Failure, Message, Messages};
use crate::print::keyed_file;
use plist_base::{Error, ErrorKind, Seeking};
use plist_print::print_events;
use std::alloc::Global;
use std::env::{Env, FillError};
use std::io::Write;
use std::rt::Files;
use std::{env, fs, io};

// The environment of a program without its first argument, which is the program's name.
#[derive(Drop)]
struct ProgramWords<'a, R: Env> {
    rt: &'a R,
}

impl<'a, R: Env> Env for ProgramWords<'a, R> {
    fn arg(&self, i: usize, buf: &mut [u8]) -> Result<usize, FillError> {
        match i.checked_add(1) {
            Some(next) => self.rt.arg(next, buf),
            None => Err(FillError::NotPresent),
        }
    }

    fn var(&self, name: &str, buf: &mut [u8]) -> Result<usize, FillError> {
        self.rt.var(name, buf)
    }

    fn var_at(&self, i: usize, buf: &mut [u8]) -> Result<usize, FillError> {
        self.rt.var_at(i, buf)
    }
}

/// Returns the arguments after the program's name, or an empty list if one of them isn't UTF-8,
/// because no command has such an argument.
///
/// # Errors
///
/// `OutOfMemory`, without an offset, if an allocation fails.
pub fn program_arguments<R: Env>(rt: &R, alloc: Global) -> Result<Vec<String>, Error>
    ensures { OnlyMemory result }
{
    match env::args(&(ProgramWords { rt }, alloc)) {
        Ok(all) => Ok(all.collect(alloc)?),
        Err(error) if error.kind() == io::ErrorKind::InvalidData => Ok(Vec::new(alloc)),
        Err(_) => Err(ErrorKind::OutOfMemory.without_position()),
    }
}

/// A command of the program.
#[derive(Clone, Copy)]
pub enum Command<'a> {
    /// Print the events of the given file.
    Print(&'a str),
    /// Write the property list of the first file to the second one, in the binary format.
    Convert(&'a str, &'a str),
    /// Print the tree that the file's archive has under the given key.
    Keyed(&'a str, &'a str),
}

/// Returns the command that the arguments ask for, or `None` if they aren't a command.
pub fn command_of(words: &[String]) -> Option<Command<'_>>
    ensures found { IfSome result (λ c. map string_bytes words.now
        ≡ words_for (plain_command_of c)) }
    ensures wrong { IsNone result ↔ IsNoCommand (map string_bytes words.now) }
{
    match words {
        [verb, file] if verb.as_str() == "print" => Some(Command::Print(file.as_str())),
        [verb, from, to] if verb.as_str() == "convert" => {
            Some(Command::Convert(from.as_str(), to.as_str()))
        }
        [verb, file, key] if verb.as_str() == "keyed" => {
            Some(Command::Keyed(file.as_str(), key.as_str()))
        }
        _ => None,
    }
}

/// Runs commands. It is a trait so that a clause can name the result of a command.
pub trait Commands {
    /// Relates a command, the bytes of the output before it, a possible result, and the bytes of
    /// the output after it. The bytes are given if they are known.
    ghost answers: { Self → PlainCommand → (old : Option (List ℕ)) → CommandOutcome
        → (new : Option (List ℕ)) → Type 0 };

    /// Runs a command, which prints to `out`.
    ///
    /// # Errors
    ///
    /// An error is returned if a file can't be opened, read or written, if it doesn't contain a
    /// property list, if writing to `out` fails, or if an allocation fails. For `print` an error is
    /// also returned if the property list isn't binary, and for `keyed` if the file isn't an
    /// archive with a tree under the key.
    fn perform<O: Write>(
        &self,
        alloc: Global,
        command: Command<'_>,
        out: &mut O,
    ) -> Result<(), Failure>
        ensures { MayEnd (answers self.now) O.contents (plain_command_of command.entry) out.old
            (outcome_of result) out.new };
}

/// The contents of files are unknown, so contracts allow any result.
impl<R: Files> Commands for R {
    ghost answers = { λ _ _ _ _ _. Unit {0} };

    fn perform<O: Write>(
        &self,
        alloc: Global,
        command: Command<'_>,
        out: &mut O,
    ) -> Result<(), Failure> {
        match command {
            Command::Print(path) => {
                let source = open_source(self, alloc, path)?;
                Ok(print_events(alloc, source, out)?)
            }
            Command::Convert(from, to) => Ok(convert_file(self, alloc, from, to)?),
            Command::Keyed(path, key) => keyed_file(self, alloc, path, key, out),
        }
    }
}

/// Opens a file as a source.
///
/// # Errors
///
/// `Io`, without an offset, if the file can't be opened.
pub(crate) fn open_source<R: Files>(
    rt: &R,
    alloc: Global,
    path: &str,
) -> Result<Seeking<R::File>, Error> {
    match fs::open(rt, path) {
        Ok(file) => Ok(Seeking::with_windows(alloc, file)),
        Err(failure) => Err(ErrorKind::Io(failure).without_position()),
    }
}

/// Runs the command that the arguments ask for, and returns the status: 0 if the command succeeds,
/// 1 if it fails, after its error is written to `err`, and 2 if the arguments are wrong, after the
/// usage is written to `err`.
///
/// A failure of `err` doesn't change the status.
pub fn run_words<R: Commands, O: Write, E: Messages>(
    rt: &R,
    alloc: Global,
    words: &[String],
    out: &mut O,
    err: &mut E,
) -> u8
    ensures wrong { (result ≡ 2) ↔ IsNoCommand (map string_bytes words.now) }
    ensures silent { result ≡ 2 → out.new ≡ out.old }
    ensures usage { result ≡ 2 → (whole : Bool) × E.reports err.old Usage whole err.new }
    ensures ends { RunEnds (MayEnd (R.answers rt.now) O.contents) E.reports words.now result
        (out.old, err.old) (out.new, err.new) }
{
    let Some(command) = command_of(words) else {
        let _ = err.report(Message::Usage);
        return 2;
    };
    match rt.perform(alloc, command, out) {
        Ok(()) => 0,
        Err(failure) => {
            let _ = err.report(Message::Fault(&failure));
            1
        }
    }
}
