//! Decides which bytes end a bare string.

/// Decides which bytes end a bare string. Quoted strings and comments are the same in both
/// dialects.
#[derive(Clone, Copy, Debug, PartialEq, Eq)]
pub enum Dialect {
    /// Space, tab, CR, `)`, `;` and `,` end a bare string: `{a=b}` is read as a start and the
    /// string `a=b}`.
    Lax,
    /// Besides the bytes that end a bare string in the lax dialect, LF, `}` and `=` end one:
    /// `{a=b}` is read as a start, the strings `a` and `b`, and an end.
    Tight,
}
