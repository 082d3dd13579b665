//! Callers of the commands: what they write to a vector for known bytes, what is reported if there
//! are no arguments, and how a run ends.

ghost use Rattle.std.specs.Prelude.{◌≡◌, ◌++◌, Bool, Err, IfSome, Ok, Some, codes, false, true};
ghost use Rattle.plist_commands.specs.Commands.{Answered, MayEnd, PlainFailure, plain_failure_of, failure_text, Fault, Usage};
ghost use Rattle.plist_commands.specs.Converting.{IfOkIs, LeavesToValue, SendsRead};
ghost use Rattle.plist_print.specs.Printing.{PrintsKnown};
ghost use Rattle.plist_commands.specs.declared.convert.FastPath.TheVariants.{NotApplicable, Sent};
ghost use Rattle.plist_base.specs.Unfolding.{items_of_file};

use plist_base::Error;
use plist_commands::{
    Commands, Failure, FastPath, Message, Messages, convert_binary, print_events, run_words,
};
use std::alloc::Global;
use std::io::Write;

/// Prints the lines of a file's items, or those before the first fault.
///
/// # Errors
///
/// The first fault; `Io`, without an offset, if the vector can't grow; or `OutOfMemory` if another
/// allocation fails.
pub fn print_bytes(alloc: Global, bytes: &[u8], out: &mut Vec<u8>) -> Result<(), Error>
    ensures { PrintsKnown (items_of_file bytes.now) result (Some out.old.items)
        (Some out.new.items) }
{
    print_events(alloc, bytes, out)
}

/// Converts the property list in the given bytes. It writes a file of the property list's tree, and
/// returns [`FastPath::Sent`]. If a value is needed, it writes nothing, and returns
/// [`FastPath::NotApplicable`].
///
/// # Errors
///
/// Any error of [`convert_binary`].
pub fn convert_bytes(alloc: Global, bytes: &[u8], out: &mut Vec<u8>) -> Result<FastPath, Error>
    ensures sent { IfOkIs result Sent
        (SendsRead Some (Some bytes.now) (Ok tt) out.old.items out.new.items) }
    ensures left { IfOkIs result NotApplicable (LeavesToValue (Some bytes.now) out.old out.new) }
{
    convert_binary(alloc, bytes, out)
}

/// Returns the line that is reported for a failure, or `None` if an allocation fails.
pub fn text_of_failure(alloc: Global, failure: &Failure) -> Option<Vec<u8>>
    ensures { IfSome result (λ text. text.items
        ≡ codes "Error: " ++ failure_text (plain_failure_of failure.now) ++ codes "\n") }
{
    let mut text = Vec::new(alloc);
    match text.report(Message::Fault(failure)) {
        Ok(()) => Some(text),
        Err(_) => None,
    }
}

/// Prints the events of bytes, and returns `true` if that fails with the error of a read, which has
/// an offset. It always returns `false`, since reads of a slice can't fail.
pub fn meets_a_failed_read(alloc: Global, bytes: &[u8], out: &mut Vec<u8>) -> bool
    ensures { result ≡ false }
{
    match print_events(alloc, bytes, out) {
        Ok(()) => false,
        Err(error) => error.is_io() && error.offset().is_some(),
    }
}

/// Runs the program without arguments, and returns its status, the one for wrong arguments. It
/// prints no output, and reports the usage.
pub fn status_of_no_words<R: Commands, O: Write, E: Messages>(
    rt: &R,
    alloc: Global,
    out: &mut O,
    err: &mut E,
) -> u8
    ensures wrong { result ≡ 2 }
    ensures silent { out.new ≡ out.old }
    ensures usage { (whole : Bool) × E.reports err.old Usage whole err.new }
{
    run_words(rt, alloc, &[], out, err)
}

/// Runs a command, and returns `true` if the run succeeds. If it does, `Ok` is a possible result of
/// the command, and nothing is reported.
pub fn is_done<R: Commands, O: Write, E: Messages>(
    rt: &R,
    alloc: Global,
    words: &[String],
    out: &mut O,
    err: &mut E,
) -> bool
    ensures answer { result ≡ true
        → Answered (MayEnd (R.answers rt.now) O.contents) words.now out.old (Ok tt) out.new }
    ensures silent { result ≡ true → err.new ≡ err.old }
{
    run_words(rt, alloc, words, out, err) == 0
}

/// Runs a command, and returns `true` if it fails. If it does, some error is a possible result of
/// the command, and is reported.
pub fn is_refused<R: Commands, O: Write, E: Messages>(
    rt: &R,
    alloc: Global,
    words: &[String],
    out: &mut O,
    err: &mut E,
) -> bool
    ensures { result ≡ true → (failure : PlainFailure)
        × Answered (MayEnd (R.answers rt.now) O.contents) words.now out.old (Err failure) out.new
        × (whole : Bool) × E.reports err.old (Fault failure) whole err.new }
{
    run_words(rt, alloc, words, out, err) == 1
}
