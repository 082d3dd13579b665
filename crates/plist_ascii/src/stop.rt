//! Decides where runs of bytes end.

ghost use Rattle.std.specs.Prelude.{◌≡◌, ◌≤◌, length};
ghost use Rattle.plist_ascii.specs.TokenPrefixes.{run};
ghost use Rattle.plist_ascii.specs.Texts.{ends_bare};
ghost use Rattle.plist_ascii.specs.Unread.{stops};

use crate::dialect::Dialect;
use crate::token::is_blank;

/// Which bytes end a run of bytes.
#[derive(Clone, Copy)]
pub enum Stop {
    /// Any byte but white space and separators.
    Lead,
    /// The bytes that end a bare string of the dialect.
    Bare(Dialect),
    /// LF, which ends a line comment.
    LineEnd,
    /// `*`, which may end a block comment.
    Star,
    /// The given quote, or a backslash.
    Quoted(u8),
}

// Returns whether this byte ends a bare string.
#[inline(always)]
fn ends_bare(dialect: Dialect, byte: u8) -> bool
    ensures { result ≡ ends_bare dialect byte }
{
    match dialect {
        Dialect::Lax => matches!(byte, b' ' | b')' | b'\r' | b'\t' | b';' | b','),
        Dialect::Tight => {
            matches!(
                byte,
                b' ' | b')' | b'\r' | b'\t' | b';' | b',' | b'\n' | b'}' | b'='
            )
        }
    }
}

// Returns whether this byte ends a run with this stop.
#[inline(always)]
fn is_stop(stop: Stop, byte: u8) -> bool
    ensures { result ≡ stops stop byte }
{
    match stop {
        Stop::Lead => !is_blank(byte),
        Stop::Bare(dialect) => ends_bare(dialect, byte),
        Stop::LineEnd => byte == b'\n',
        Stop::Star => byte == b'*',
        Stop::Quoted(quote) => byte == quote || byte == b'\\',
    }
}

/// Returns the number of bytes before the first that ends the run, or the number of all bytes if
/// none does.
#[inline(always)]
pub fn run_length(stop: Stop, bytes: &[u8]) -> usize
    ensures within { result ≤ length bytes.now }
    ensures run { result ≡ run (stops stop) bytes.now }
{
    let mut count = 0;
    'bytes: while count < bytes.len() {
        if is_stop(stop, bytes[count]) {
            return count;
        }
        count += 1;
    }
    count
}
