//! The commands of `plist_tool`, over any source, any writer and any runtime.
//!
//! `print_events` (in `plist_print`) and [`convert_binary`] have the main contracts.
#![tactic(auto)]

mod collector;
mod commands;
mod convert;
mod messages;
mod print;

pub use commands::{Command, Commands, command_of, program_arguments, run_words};
pub use convert::{FastPath, convert_binary, convert_file};
pub use messages::{Failure, Message, Messages};
pub use plist_print::{print_events, print_reader};
pub use print::{keyed_file, print_at, print_value};
