//! Why a command fails, and the messages that the program writes to standard error.

ghost use Rattle.std.specs.Prelude.{◌≡◌, Bool, IfOk, OnOk, Some, is_ok};
ghost use Rattle.std.specs.Io.KnownBytes.{Appends};
ghost use Rattle.plist_base.specs.Faults.{fault_of};
ghost use Rattle.plist_base.specs.Prefixes.{AppendsPrefix};
ghost use Rattle.plist_commands.specs.Commands.{Fault, OfPlist, PlainMessage, TakesMessage, failure_text, message_text, plain_failure_of, plain_message_of};

use arrayvec::ArrayString;
use plist_base::sink::send;
use plist_base::{Error, ErrorKind};
use plist_keyed::KeyedError;
use std::fmt;
use std::fmt::Write as _;
use std::io::Write;

/// Why a command fails.
#[derive(Debug, Drop)]
pub enum Failure {
    /// A property list can't be read, written or printed.
    Plist(Error),
    /// The property list isn't an archive, or the tree can't be made.
    Keyed(KeyedError),
    /// The archive names no object by the key that the command was given.
    NoSuchTop,
}

/// Formats the error.
impl fmt::Display for Failure {
    ghost output = { λ failure. Some (failure_text (plain_failure_of failure)) };

    fn fmt<W: fmt::Write>(&self, f: &mut fmt::Formatter<W>) -> fmt::Result {
        match self {
            Failure::Plist(error) => write!(f, "{error}"),
            Failure::Keyed(error) => write!(f, "{error}"),
            Failure::NoSuchTop => f.write_str("NoSuchTop"),
        }
    }
}

impl From<Error> for Failure {
    ghost from_gives = { λ error failure. plain_failure_of failure ≡ OfPlist (fault_of error) };

    fn from(error: Error) -> Failure {
        Failure::Plist(error)
    }
}

/// A message of the program.
#[derive(Clone, Copy)]
pub enum Message<'a> {
    /// How the program is used.
    Usage,
    /// Why a command failed.
    Fault(&'a Failure),
}

/// Reports messages. It is a trait so that a clause can name what was reported.
pub trait Messages {
    /// Relates the reporter before a call, the message, whether the call succeeded (`whole`), and
    /// the reporter after the call. If the call failed, possibly only a prefix of the message was
    /// written.
    ghost reports: { (old : Self) → PlainMessage → (whole : Bool) → (new : Self) → Type 0 };

    /// Writes a message, on a line of its own.
    ///
    /// # Errors
    ///
    /// The error of the write, if it fails: possibly only a prefix of the message was written then.
    /// `OutOfMemory`, without an offset, if the message doesn't fit into the 256 bytes in which it
    /// is made: nothing was written then. No message of the program is that long.
    fn report(&mut self, message: Message<'_>) -> Result<(), Error>
        ensures { reports self.old (plain_message_of message.entry) (is_ok result) self.new };
}

// Returns the line of an error, which has at most 256 bytes.
fn line_of_failure(failure: &Failure) -> Result<ArrayString<256>, Error>
    ensures { IfOk result (λ line. line.bytes ≡ message_text (Fault
        (plain_failure_of failure.now))) }
{
    let mut line = ArrayString::new();
    match writeln!(line, "Error: {failure}") {
        Ok(()) => Ok(line),
        Err(_) => Err(ErrorKind::OutOfMemory.without_position()),
    }
}

// Writes a line. An error is that of [`send`].
fn send_line<W: Write>(writer: &mut W, line: &[u8]) -> Result<(), Error>
    ensures sent { OnOk result (Appends (W.contents writer.old) (W.contents writer.new) line.now) }
    ensures prefix { AppendsPrefix (W.contents writer.old) (W.contents writer.new) line.now }
{
    send(writer, line)?;
    Ok(())
}

/// Every message is one line, which is passed to the writer as a whole.
impl<W: Write> Messages for W {
    ghost reports = { λ old said whole new. TakesMessage said whole (W.contents old)
        (W.contents new) };

    fn report(&mut self, message: Message<'_>) -> Result<(), Error> {
        match message {
            Message::Usage => send_line(
                self,
                b"Usage: plist_tool print FILE | convert IN OUT | keyed FILE KEY\n",
            ),
            Message::Fault(failure) => {
                let line = line_of_failure(failure)?;
                send_line(self, line.as_bytes())
            }
        }
    }
}
