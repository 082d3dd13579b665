//! The reader of property lists of either format.

ghost use Rattle.std.specs.Prelude.{◌≡◌, ◌<◌, IfSome, Some, true};
ghost use Rattle.std.specs.Option.{is_some, option_map};
ghost use Rattle.plist_base.specs.Limits.{items_within};
ghost use Rattle.plist_binread.specs.BinaryReader.{admitted_by, file_items, has_limits as is_limited_file, is_new, binary_source as source_of_file};
ghost use Rattle.plist_base.specs.Unfolding.{items_of_file};
ghost use Rattle.plist_decode.specs.Formats.{format_of};
ghost use Rattle.plist_reader.specs.Reader.{StateGives, all_steps, steps_in_state};

use crate::bytes::BufferedSource;
use plist_ascii::{AsciiReader, Dialect};
use plist_base::{
    Error, ErrorKind, EventSource, EventVisitor, LimitedItems, Limits, OwnedEvent, Source, Visited,
};
use plist_binread::BinaryReader;
use plist_decode::format::{Format, format_of};
use std::alloc::Global;
use std::mem;
use std::ops::ControlFlow;

// The state of a reader.
#[derive(Drop)]
pub(crate) enum State<R: Source> {
    // No item has been requested yet. The fields are the source, the limits if there are any, and
    // the dialect of ASCII.
    Unread(R, Option<Limits>, Dialect),
    Binary(BinaryReader<R>),
    Ascii(AsciiReader<BufferedSource<R>>),
    // A reader of ASCII under limits.
    Limited(LimitedItems<AsciiReader<BufferedSource<R>>>),
    // The source is XML, or a read failed before the format was known.
    Refused(R),
    // The state while the first item is read.
    Moved,
}

// Makes the reader of a binary source.
fn binary_reader<R: Source>(alloc: Global, source: R, limits: Option<Limits>) -> BinaryReader<R>
    ensures items { file_items R.known result
        ≡ option_map (λ bytes. items_within limits (items_of_file bytes)) (R.known source) }
    ensures limits { admitted_by result ≡ items_within limits }
    ensures source { source_of_file result ≡ source }
    ensures new { is_new result ≡ true }
    ensures limited { is_limited_file result ≡ is_some limits }
{
    match limits {
        None => BinaryReader::new(alloc, source),
        Some(limits) => BinaryReader::with_limits(alloc, source, limits),
    }
}

// Reads the first item of a binary source.
fn begin_binary<R: Source>(
    alloc: Global,
    source: R,
    limits: Option<Limits>,
) -> (State<R>, Option<Result<OwnedEvent, Error>>)
    requires { IfSome (R.known source) (λ bytes. Format.Binary ≡ format_of bytes) }
    ensures yields { (dialect : Dialect) → StateGives R.known R.failures
        (State.Unread source limits dialect) result.1 result.0 }
    ensures falls { IfSome result.1 (λ _. steps_in_state result.0 < all_steps) }
{
    let mut reader = binary_reader(alloc, source, limits);
    let item = reader.next();
    (State::Binary(reader), item)
}

// Reads the first item of a source in ASCII.
fn begin_ascii<R: Source>(
    alloc: Global,
    source: R,
    limits: Option<Limits>,
    dialect: Dialect,
) -> (State<R>, Option<Result<OwnedEvent, Error>>)
    requires { IfSome (R.known source) (λ bytes. Format.Ascii ≡ format_of bytes) }
    ensures yields { StateGives R.known R.failures (State.Unread source limits dialect) result.1
        result.0 }
    ensures falls { IfSome result.1 (λ _. steps_in_state result.0 < all_steps) }
{
    let mut reader = AsciiReader::with_dialect(alloc, BufferedSource::new(source), dialect);
    match limits {
        None => {
            let item = reader.next();
            (State::Ascii(reader), item)
        }
        Some(limits) => {
            let mut limited = LimitedItems::new(reader, limits);
            let item = limited.next();
            (State::Limited(limited), item)
        }
    }
}

// Chooses the reader, and reads its first item.
fn begin<R: Source>(
    alloc: Global,
    mut source: R,
    limits: Option<Limits>,
    dialect: Dialect,
) -> (State<R>, Option<Result<OwnedEvent, Error>>)
    ensures yields { StateGives R.known R.failures (State.Unread source limits dialect) result.1
        result.0 }
    ensures falls { IfSome result.1 (λ _. steps_in_state result.0 < all_steps) }
{
    match format_of(&mut source) {
        Ok(Format::Binary) => begin_binary(alloc, source, limits),
        Ok(Format::Xml(place)) => (
            State::Refused(source),
            Some(Err(ErrorKind::XmlUnsupported.with_byte_offset(place))),
        ),
        Ok(Format::Ascii) => begin_ascii(alloc, source, limits, dialect),
        Err(error) => (State::Refused(source), Some(Err(error))),
    }
}

/// Reads a property list of either format as events, from its first byte on.
///
/// If the first eight bytes are `bplist00`, it acts as a [`BinaryReader`]. If the first byte after
/// an optional byte order mark (EF BB BF) and white space is `<`, its only item is
/// `XmlUnsupported`, with the offset of that byte. Otherwise, even for empty input, it acts as an
/// [`AsciiReader`]. The reader makes this choice when the first item is requested.
///
/// ```text
/// let mut reader = Reader::new(alloc, bytes);
/// while let Some(item) = reader.next() {
///     if let Event::String(text) = item? { .. }
/// }
/// ```
///
/// # Errors
///
/// - `XmlUnsupported` if the input is XML. The reader has ended then.
/// - `Io`, with the offset of the failed read, if a read fails while the reader chooses. The reader
///   has ended then.
/// - After the choice, any error of the chosen reader. A binary reader has ended after each of its
///   errors. An ASCII reader without limits continues after an error in its bytes.
/// - `LimitReached`, without an offset, if a limit of [`Reader::with_limits`] is exceeded. The
///   reader has ended then.
#[derive(Drop)]
pub struct Reader<R: Source> {
    alloc: Global,
    state: State<R>,
}

impl<R: Source> Reader<R> {
    ghost use Rattle.std.specs.Prelude.{◌≡◌, Option, true, false};
    ghost use Rattle.plist_base.specs.Limits.{limited_items};
    ghost use Rattle.plist_reader.specs.Reader.{Gives, IsNewReader, IsUnread, items_of_dialect, items_of_input, reader_is_limited, reader_items, reader_objects, reader_source, steps_in_state};

    /// Creates a reader over a source. Reading begins when the first item is requested. ASCII is
    /// read in the lax dialect, in which an LF doesn't end a bare string.
    ///
    /// # Examples
    ///
    /// ```rust
    /// let mut counts = Counts::none();
    /// let mut reader = Reader::new(alloc, source);
    /// while let Some(item) = reader.next() {
    ///     counts.take(item)?;
    /// }
    /// Ok(counts)
    /// ```
    pub fn new(alloc: Global, source: R) -> Self
        ensures items { reader_items R.known result
            ≡ option_map items_of_input (R.known source) }
        ensures source { reader_source result ≡ Some source }
        ensures limited { reader_is_limited result ≡ false }
        ensures new { IsNewReader result source }
    {
        Reader::with_dialect(alloc, source, Dialect::Lax)
    }

    /// Creates a reader that reads ASCII in the given dialect, and a binary source as
    /// [`Reader::new`] does.
    pub fn with_dialect(alloc: Global, source: R, dialect: Dialect) -> Self
        ensures items { reader_items R.known result
            ≡ option_map (items_of_dialect dialect) (R.known source) }
        ensures source { reader_source result ≡ Some source }
        ensures limited { reader_is_limited result ≡ false }
        ensures new { IsUnread result source None dialect }
    {
        Reader {
            alloc,
            state: State::Unread(source, None, dialect),
        }
    }

    /// Creates a reader under the given limits: the first event that exceeds the limit of items, or
    /// else the limit of depth, is replaced by `LimitReached`, without an offset. Under limits a
    /// reader has ended after its first error of any kind.
    ///
    /// # Examples
    ///
    /// ```rust
    /// let limits = Limits {
    ///     depth: 64,
    ///     items: 100_000,
    /// };
    /// let mut reader = Reader::with_limits(alloc, file, limits);
    /// let mut strings: u64 = 0;
    /// while let Some(item) = reader.next() {
    ///     let event = item?;
    ///     if matches!(event, Event::String(_)) {
    ///         strings = strings.saturating_add(1);
    ///     }
    /// }
    /// Ok(strings)
    /// ```
    pub fn with_limits(alloc: Global, source: R, limits: Limits) -> Self
        ensures items { reader_items R.known result
            ≡ option_map (λ bytes. limited_items limits (items_of_input bytes)) (R.known source) }
        ensures source { reader_source result ≡ Some source }
        ensures limited { reader_is_limited result ≡ true }
        ensures new { IsUnread result source (Some limits) Dialect.Lax }
    {
        Reader {
            alloc,
            state: State::Unread(source, Some(limits), Dialect::Lax),
        }
    }

    /// Returns how many objects a binary file has, even after the reader has ended.
    ///
    /// This number is read when the first item is requested. Before that, and if no valid head can
    /// be read or memory for it runs out, the result is 0. It is also 0 for ASCII and XML.
    pub fn objects_in_file(&self) -> usize
        ensures { result ≡ reader_objects self.now }
    {
        match &self.state {
            State::Binary(reader) => reader.objects_in_file(),
            State::Unread(_, _, _)
            | State::Ascii(_)
            | State::Limited(_)
            | State::Refused(_)
            | State::Moved => 0,
        }
    }

    // Reads the first item. Only this call moves the state, which is large if the source stores
    // windows. The state that is replaced is dropped by a call, since the drop of an assignment is
    // more expensive to prove.
    #[cold]
    #[inline(never)]
    fn first(&mut self) -> Option<Result<OwnedEvent, Error>>
        requires { (source : R) × (limits : Option Limits) × (dialect : Dialect)
            × IsUnread self.old source limits dialect }
        ensures yields { Gives R.known R.failures self.old result self.new }
        ensures falls { IfSome result (λ _. steps_in_state self.new.state
            < steps_in_state self.old.state) }
    {
        match mem::replace(&mut self.state, State::Moved) {
            State::Unread(source, limits, dialect) => {
                let (state, item) = begin(self.alloc, source, limits, dialect);
                drop(mem::replace(&mut self.state, state));
                item
            }
            state => {
                drop(mem::replace(&mut self.state, state));
                None
            }
        }
    }
}

impl<R: Source> Iterator for Reader<R> {
    type Item = Result<OwnedEvent, Error>;

    ghost use Rattle.std.specs.Iterator.{at_most};
    ghost use Rattle.plist_reader.specs.Reader.{Gives, steps_in_state};

    ghost next_gives = { Gives R.known R.failures };

    ghost remaining = { λ s. at_most (steps_in_state s.state) };

    fn next(&mut self) -> Option<Result<OwnedEvent, Error>> {
        match &mut self.state {
            State::Binary(reader) => reader.next(),
            State::Ascii(reader) => reader.next(),
            State::Limited(reader) => reader.next(),
            State::Refused(_) | State::Moved => None,
            State::Unread(_, _, _) => self.first(),
        }
    }
}

impl<R: Source> Reader<R> {
    ghost use Rattle.plist_base.specs.Visits.{TakesTurn, Visits, YieldsPlain};
    ghost use Rattle.plist_reader.specs.Reader.{Gives, steps_in_state};

    // Hands the next event to a visitor, after it was read by `next`.
    fn hand_over_read<V: EventVisitor>(
        &mut self,
        visitor: &mut V,
    ) -> Option<Result<ControlFlow<()>, Error>>
        ensures turn { TakesTurn (YieldsPlain (Gives R.known R.failures)) V.step
            (self.old, visitor.old) result (self.new, visitor.new) }
        ensures falls { IfSome result (λ _. steps_in_state self.new.state
            < steps_in_state self.old.state) }
    {
        match self.next() {
            None => None,
            Some(Ok(event)) => Some(Ok(visitor.event(event))),
            Some(Err(error)) => Some(Err(error)),
        }
    }

    // Hands the next event to a visitor, and returns what the visitor returns, or `None` if no
    // event remains. A reader of ASCII that has no limits hands strings over without copying them,
    // if it can.
    #[inline(always)]
    fn hand_over<V: EventVisitor>(
        &mut self,
        visitor: &mut V,
    ) -> Option<Result<ControlFlow<()>, Error>>
        ensures turn { TakesTurn (YieldsPlain (Gives R.known R.failures)) V.step
            (self.old, visitor.old) result (self.new, visitor.new) }
        ensures falls { IfSome result (λ _. steps_in_state self.new.state
            < steps_in_state self.old.state) }
    {
        match &mut self.state {
            State::Ascii(reader) => reader.hand_over(visitor),
            State::Unread(_, _, _)
            | State::Binary(_)
            | State::Limited(_)
            | State::Refused(_)
            | State::Moved => self.hand_over_read(visitor),
        }
    }

    // Hands the remaining events to a visitor.
    #[inline(always)]
    fn visit_all<V: EventVisitor>(&mut self, visitor: &mut V) -> Result<Visited, Error>
        ensures { Visits (YieldsPlain (Gives R.known R.failures)) V.step
            (self.old, visitor.old) result (self.new, visitor.new) }
    {
        loop {
            if let State::Binary(reader) = &mut self.state {
                return reader.visit(visitor);
            }
            match self.hand_over(visitor) {
                None => return Ok(Visited::Ended),
                Some(Ok(ControlFlow::Continue(()))) => {}
                Some(Ok(ControlFlow::Break(()))) => return Ok(Visited::Stopped),
                Some(Err(error)) => return Err(error),
            }
        }
    }
}

impl<R: Source> EventSource for Reader<R> {
    ghost use Rattle.plist_base.specs.VisitedItems.{VisitsKnown};
    ghost use Rattle.plist_base.specs.Visits.{Visits, YieldsPlain};
    ghost use Rattle.plist_reader.specs.Reader.{Gives, reader_items};

    ghost yields = { YieldsPlain (Gives R.known R.failures) };

    fn visit<V: EventVisitor>(&mut self, visitor: &mut V) -> Result<Visited, Error>
        ensures items { VisitsKnown V.step (reader_items R.known self.old, visitor.old) result
            (reader_items R.known self.new, visitor.new) }
        ensures events { Visits (YieldsPlain (Gives R.known R.failures)) V.step
            (self.old, visitor.old) result (self.new, visitor.new) }
    {
        self.visit_all(visitor)
    }
}
