//! `plist_tool print FILE` prints the events of a binary property list, each on a line of its own.
//! `plist_tool convert IN OUT` writes a property list of either format as a binary one.
//! `plist_tool keyed FILE KEY` prints a tree of a keyed archive in the same form as `print`.
#![tactic(auto)]

ghost use Rattle.std.specs.Prelude.{◌≡◌, IfOk, OnErr};
ghost use Rattle.std.specs.Process.{exit_status};
ghost use Rattle.plist_base.specs.Outcomes.{OnlyMemory};
ghost use Rattle.plist_tool.specs.Exits.{IsStatusOf, ReportsFault, RunsWords};

use plist_base::Error;
use plist_commands::{Failure, Message, Messages, program_arguments, run_words};
use std::env::Env;
use std::io;
use std::io::Write;
use std::process::ExitCode;
use std::rt::Files;

// Runs the command of the program's arguments.
fn run<R: Files + Env + AllocGlobal, O: Write, E: Messages>(
    rt: &R,
    out: &mut O,
    err: &mut E,
) -> Result<u8, Error>
    ensures runs { IfOk result
        (λ status. RunsWords E.reports status out.old out.new err.old err.new) }
    ensures memory { OnlyMemory result }
    ensures unchanged { OnErr result ((out.new ≡ out.old) × (err.new ≡ err.old)) }
{
    let words = program_arguments(rt, rt.alloc())?;
    Ok(run_words(rt, rt.alloc(), words.as_slice(), out, err))
}

// Returns the exit code of a run: its status, or 1 if memory ran out before the command was run.
// This error is then reported.
fn exit_code<E: Messages>(answer: Result<u8, Error>, err: &mut E) -> ExitCode
    ensures status { IsStatusOf answer (exit_status result) }
    ensures reported { ReportsFault E.reports answer err.old err.new }
{
    match answer {
        Ok(status) => ExitCode::from(status),
        Err(error) => {
            let _ = err.report(Message::Fault(&Failure::Plist(error)));
            ExitCode::FAILURE
        }
    }
}

// Standard output isn't buffered here, since the commands buffer their output themselves.
fn main(rt: HostRuntime) -> ExitCode {
    let mut out = io::writer(&rt);
    let mut err = rt.stderr();
    let answer = run(&rt, &mut out, &mut err);
    exit_code(answer, &mut err)
}
