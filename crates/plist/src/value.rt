//! Values of property lists.

ghost use Rattle.std.specs.Prelude.{◌≡◌, ◌+◌, IfOk, IfSome, false, option_map, string_bytes, true};
ghost use Rattle.plist_base.specs.Bracketing.{bracketing};
ghost use Rattle.plist.specs.SendingValues.{SendsValue};
ghost use Rattle.plist.specs.Collecting.{built_tree};
ghost use Rattle.plist.specs.Accessors.{array_in, data_in, dictionary_in, text_in};
ghost use Rattle.plist.specs.ValueOfItems.{AnswersIterable, CollectsIterable, ReadsBackIn, ReadsItems, DetermineTrees};
ghost use Rattle.std.specs.Iterator.{IsFiniteIterable};
ghost use Rattle.plist.specs.FromReader.{IsReadInDialect, IsReadWithin, IsReadWithinBudget, IsReadAsAscii, IsAsciiReadingFault, IsReadingFault, NeverFails, NeverFailsReading, budgeted_input};
ghost use Rattle.plist_decode.specs.declared.format.Format.TheVariants.{Ascii};
ghost use Rattle.plist_base.specs.Limits.{limited_items};
ghost use Rattle.plist_reader.specs.Reader.{items_in_format, items_of_dialect, items_of_input};
ghost use Rattle.plist_base.specs.Faults.{IsNotIo};
ghost use Rattle.plist_base.specs.Outcomes.{IfFault, OnlyMemory};
ghost use Rattle.plist_base.specs.Trees.{Leaf, String};
ghost use Rattle.plist.specs.LastWins.{AreLastValues, TreePairs, last_values, last_wins};
ghost use Rattle.plist.specs.LimitedValues.{IsWithinBudget, IsWithinLimits};
ghost use Rattle.plist.specs.Events.{remaining_events};
ghost use Rattle.plist.specs.ValueTrees.{item_trees, kind_of_tree, pair_trees, pairs_of, tree_of};

mod accessors;
mod dropping;
mod from;

use crate::Dictionary;
use crate::collect::{collect, collect_visited};
use crate::stream::Events;
use crate::stream::builder::AnyEvent;
pub(crate) use crate::value::dropping::destroy_all;
use crate::writing::collect_events;
use plist_ascii::{AsciiReader, ByteReader, Dialect};
use plist_base::{Date, Error, EventKind, Integer, LimitedItems, Limits, RealBits, Source, Uid};
use plist_binwrite::write_file;
use plist_reader::Reader;
use std::alloc::Global;
use std::io::Write;

/// A property list: a scalar, an array, or a dictionary.
///
/// Arrays that are nested in one another are dropped recursively, so the drop of a deep value uses
/// much of the call stack. [`Value::destroy`] drops a value without recursion. The values in a
/// dictionary are always dropped without recursion.
#[cycle(value)]
#[derive(Debug, Drop)]
pub enum Value {
    /// Values in order.
    Array(Vec<Value>),
    /// Values under keys.
    Dictionary(Dictionary),
    /// A Boolean.
    Boolean(bool),
    /// Data.
    Data(Vec<u8>),
    /// A date.
    Date(Date),
    /// The bytes of a real.
    Real(RealBits),
    /// An integer.
    Integer(Integer),
    /// A string.
    String(String),
    /// The number of an object in a keyed archive.
    Uid(Uid),
}

impl Value {
    ghost use Rattle.plist.specs.declared.value.Value.TheVariants as made;

    /// Returns the array, or `None` if the value isn't one.
    ///
    /// # Examples
    ///
    /// ```rust
    /// let mut items = value.into_array()?;
    /// items.pop()
    /// ```
    pub fn into_array(self) -> Option<Vec<Value>>
        ensures value { option_map (λ a. item_trees a.items) result ≡ array_in (tree_of self) }
        ensures made { IfSome result (λ items. self ≡ made.Array items) }
    {
        let Value::Array(array) = self else {
            self.destroy();
            return None;
        };
        Some(array)
    }

    /// Returns the dictionary, or `None` if the value isn't one.
    ///
    /// # Examples
    ///
    /// ```rust
    /// match value.into_dictionary() {
    ///     Some(pairs) => Ok(Settings { pairs }),
    ///     None => Err(SettingsError::NoDictionary),
    /// }
    /// ```
    pub fn into_dictionary(self) -> Option<Dictionary>
        ensures value { option_map (λ pairs. pair_trees (pairs_of pairs)) result
            ≡ dictionary_in (tree_of self) }
        ensures made { IfSome result (λ pairs. self ≡ made.Dictionary pairs) }
    {
        let Value::Dictionary(pairs) = self else {
            self.destroy();
            return None;
        };
        Some(pairs)
    }

    /// Returns the bytes of data, or `None` if the value isn't data.
    ///
    /// # Examples
    ///
    /// ```rust
    /// let bytes = icon.into_data()?;
    /// Some(bytes.len())
    /// ```
    pub fn into_data(self) -> Option<Vec<u8>>
        ensures value { option_map (λ bytes. bytes.items) result ≡ data_in (tree_of self) }
        ensures made { IfSome result (λ bytes. self ≡ made.Data bytes) }
    {
        let Value::Data(bytes) = self else {
            self.destroy();
            return None;
        };
        Some(bytes)
    }

    /// Returns the string, or `None` if the value isn't one.
    ///
    /// # Examples
    ///
    /// ```rust
    /// settings.remove("Name")?.into_string()
    /// ```
    pub fn into_string(self) -> Option<String>
        ensures value { option_map string_bytes result ≡ text_in (tree_of self) }
        ensures made { IfSome result (λ text. self ≡ made.String text) }
    {
        let Value::String(text) = self else {
            self.destroy();
            return None;
        };
        Some(text)
    }

    /// Returns an iterator over the events of the value, depth first.
    ///
    /// # Examples
    ///
    /// ```rust
    /// let events: Events<'_> = value.events(alloc);
    /// Value::from_events(alloc, events)
    /// ```
    #[tactic(auto, using(crate::proofs::ValueLastWins::itself))]
    pub fn events(&self, alloc: Global) -> Events<'_>
        ensures items { remaining_events result ≡ bracketing (tree_of self.now) }
        ensures itself { last_wins (tree_of self.now) ≡ tree_of self.now }
    {
        Events::new(alloc, self)
    }

    /// Builds a value from the given events. A key that is repeated keeps its first position and
    /// takes its last value. The lengths of starts are ignored.
    ///
    /// Items are taken up to the first one that is an error, or that can't follow the preceding
    /// ones. The caller has to prove that the iterator ends.
    ///
    /// # Errors
    ///
    /// - The first error among the items.
    /// - `UnexpectedEventType` for an event that can't follow the preceding ones, and
    ///   `ExpectedEndOfEventStream` for one after a whole value.
    /// - `UnexpectedEndOfEventStream` if the events end before the value does.
    /// - `OutOfMemory` if an allocation fails.
    ///
    /// # Examples
    ///
    /// ```rust
    /// let bytes = fs::read(rt, FILE)?;
    /// Value::from_events(alloc, Reader::new(alloc, bytes))
    /// ```
    pub fn from_events<E: AnyEvent, I: IntoIterator<Item = Result<E, Error>>>(
        alloc: Global,
        events: I,
    ) -> Result<Value, Error>
        requires asked { IsFiniteIterable I.into_iter_gives I.IntoIter.can_next I.IntoIter.remaining
            events }
        // Result.
        ensures value { CollectsIterable I.into_iter_gives E.plain I.IntoIter.next_gives events
            result }
        ensures shown { AnswersIterable I.into_iter_gives E.plain I.IntoIter.next_gives events
            result }
        // Laws.
        ensures one_tree { DetermineTrees }
        ensures last_values { (rows : TreePairs) → AreLastValues rows (last_values rows) }
        ensures itself { (value : Value) → last_wins (tree_of value) ≡ tree_of value }
    {
        collect(alloc, events.into_iter())
    }

    /// Reads the value of a source. The first bytes decide whether it is read as binary or as
    /// ASCII, as in [`Reader`]. A key that is repeated keeps its first position and takes its last
    /// value. A binary file that was written for a value is read back as that value, with its
    /// dictionaries in the same order.
    ///
    /// A source is a slice of bytes, a vector, or a [`Seeking`](plist_base::Seeking) over anything
    /// that implements `Read` and `Seek`, such as a file:
    ///
    /// ```text
    /// Value::from_reader(alloc, bytes.as_slice())
    /// Value::from_reader(alloc, bytes)
    /// Value::from_reader(alloc, Seeking::with_windows(alloc, file))
    /// ```
    ///
    /// ASCII is read in the lax dialect, in which an LF doesn't end a bare string. In a file with
    /// one value per line, neither quoted nor followed by `;`, the ends of lines can therefore
    /// become part of strings. [`Value::from_reader_with_dialect`] reads such files.
    ///
    /// # Errors
    ///
    /// - The first error among the source's items, which is one of the errors of [`Reader`].
    /// - `UnexpectedEventType` for an event that can't follow the preceding ones, and
    ///   `ExpectedEndOfEventStream` for one after a whole value.
    /// - `UnexpectedEndOfEventStream` if the items end before the value does.
    /// - `OutOfMemory` if an allocation fails.
    ///
    /// # Examples
    ///
    /// ```rust
    /// let settings = Value::from_reader(alloc, file).ok()?;
    /// settings
    ///     .as_dictionary()?
    ///     .get("Version")?
    ///     .as_signed_integer()
    /// ```
    pub fn from_reader<R: Source>(alloc: Global, source: R) -> Result<Value, Error>
        ensures value { ReadsItems items_of_input (R.known source) result }
        ensures read { IsReadInDialect Dialect.Lax R.known R.failures source
            (built_tree result) }
        ensures fault { IfFault result (IsReadingFault false) }
        ensures never_io { NeverFails R.failures → IfFault result (λ fault. IsNotIo fault.kind) }
        ensures reads_back { ReadsBackIn (R.known source) (built_tree result) }
    {
        Value::from_reader_with_dialect(alloc, source, Dialect::Lax)
    }

    /// Like [`Value::from_reader`], but reads ASCII in the given dialect.
    ///
    /// # Errors
    ///
    /// Any error of [`Value::from_reader`].
    ///
    /// # Examples
    ///
    /// ```rust
    /// let text: &[u8] = b"(\n  a\n  b\n)";
    /// Value::from_reader_with_dialect(alloc, text, Dialect::Tight)
    /// ```
    pub fn from_reader_with_dialect<R: Source>(
        alloc: Global,
        source: R,
        dialect: Dialect,
    ) -> Result<Value, Error>
        ensures value { ReadsItems (items_of_dialect dialect) (R.known source) result }
        ensures read { IsReadInDialect dialect R.known R.failures source (built_tree result) }
        ensures fault { IfFault result (IsReadingFault false) }
        ensures never_io { NeverFails R.failures → IfFault result (λ fault. IsNotIo fault.kind) }
        ensures reads_back { ReadsBackIn (R.known source) (built_tree result) }
    {
        let mut reader = Reader::with_dialect(alloc, source, dialect);
        collect_visited(alloc, &mut reader)
    }

    /// Like [`Value::from_reader`], but fails once a limit is exceeded. The value nests at most
    /// `limits.depth` collections. It has at most `limits.items` events, and was built from at most
    /// as many.
    ///
    /// ```text
    /// Value::from_reader_with_limits(alloc, bytes, Limits { depth: 64, items: 100_000 })
    /// ```
    ///
    /// The limits don't bound the bytes of strings and data, and a small file may refer to them
    /// again and again; [`Value::from_reader_within`] bounds them.
    ///
    /// # Errors
    ///
    /// - `LimitReached` for the first event that exceeds a limit, unless an earlier item is an
    ///   error. Such an event is one too many, or it opens one collection too many.
    /// - Any error of [`Value::from_reader`].
    ///
    /// # Examples
    ///
    /// ```rust
    /// let limits = Limits {
    ///     depth: 64,
    ///     items: 10,
    /// };
    /// Value::from_reader_with_limits(alloc, file, limits)
    /// ```
    pub fn from_reader_with_limits<R: Source>(
        alloc: Global,
        source: R,
        limits: Limits,
    ) -> Result<Value, Error>
        ensures value { ReadsItems (λ bytes. limited_items limits (items_of_input bytes))
            (R.known source) result }
        ensures read { IsReadWithin limits R.known R.failures source (built_tree result) }
        ensures fault { IfFault result (IsReadingFault true) }
        ensures never_io { NeverFails R.failures → IfFault result (λ fault. IsNotIo fault.kind) }
        ensures within { IfOk (built_tree result) (IsWithinLimits limits) }
    {
        let reader = Reader::new(alloc, source);
        collect(alloc, LimitedItems::new(reader, limits))
    }

    /// Like [`Value::from_reader_with_limits`], but also fails once the strings, including keys,
    /// and the data have more than `bytes` bytes together. A string counts by its bytes in UTF-8,
    /// and counts again for every further reference to it.
    ///
    /// Use it for untrusted files: the value has no more events, levels and bytes than the caller
    /// allows, whatever the source contains. Besides the value, the call takes at most nine bytes
    /// per object of a binary file's table, and the longest string or data. A string in UTF-16
    /// takes up to 2.5 times its bytes in the file.
    ///
    /// # Errors
    ///
    /// - `OutOfMemory` if an allocation fails, and for the first string or data that exceeds the
    ///   bytes that the caller allows, unless an earlier item is an error.
    /// - Any error of [`Value::from_reader_with_limits`].
    ///
    /// # Examples
    ///
    /// ```rust
    /// let limits = Limits {
    ///     depth: 64,
    ///     items: 100_000,
    /// };
    /// Value::from_reader_within(alloc, bytes, limits, 1 << 24)
    /// ```
    pub fn from_reader_within<R: Source>(
        alloc: Global,
        source: R,
        limits: Limits,
        bytes: u64,
    ) -> Result<Value, Error>
        ensures value { ReadsItems (budgeted_input limits bytes) (R.known source) result }
        ensures read { IsReadWithinBudget limits bytes R.known R.failures source
            (built_tree result) }
        ensures fault { IfFault result (IsReadingFault true) }
        ensures never_io { NeverFails R.failures → IfFault result (λ fault. IsNotIo fault.kind) }
        ensures within { IfOk (built_tree result) (IsWithinBudget limits bytes) }
    {
        let reader = Reader::new(alloc, source);
        let limited = LimitedItems::new(reader, limits);
        collect(alloc, LimitedItems::within_bytes(limited, bytes))
    }

    /// Reads the value of an ASCII property list, by the rules of [`Value::from_reader`]. Bytes
    /// past the first 2^64 - 1 aren't read.
    ///
    /// It reads a `Read` one byte at a time, so a plain file should be wrapped in a buffered
    /// reader.
    ///
    /// # Errors
    ///
    /// Any error of [`Value::from_reader`], but with the errors of [`AsciiReader`] in place of the
    /// errors of [`Reader`].
    ///
    /// # Examples
    ///
    /// ```rust
    /// let text: &[u8] = b"{ b = 7; a = x; }";
    /// Value::from_reader_ascii(alloc, text)
    /// ```
    pub fn from_reader_ascii<R: ByteReader + Drop>(alloc: Global, reader: R) -> Result<Value, Error>
        ensures value { ReadsItems (items_in_format Dialect.Lax Ascii) (R.remaining reader)
            result }
        ensures read { IsReadAsAscii R.remaining R.failures reader Dialect.Lax (built_tree result) }
        ensures fault { IfFault result IsAsciiReadingFault }
        ensures never_io { NeverFailsReading R.failures
            → IfFault result (λ fault. IsNotIo fault.kind) }
    {
        Value::from_reader_ascii_with_dialect(alloc, reader, Dialect::Lax)
    }

    /// Like [`Value::from_reader_ascii`], but reads an ASCII property list in the given dialect.
    /// `{a=b}` isn't a value in the lax dialect, and is a dictionary in the tight one.
    ///
    /// # Errors
    ///
    /// Any error of [`Value::from_reader_ascii`].
    ///
    /// # Examples
    ///
    /// ```rust
    /// let text: &[u8] = b"{a=b}";
    /// Value::from_reader_ascii_with_dialect(alloc, text, Dialect::Tight)
    /// ```
    pub fn from_reader_ascii_with_dialect<R: ByteReader + Drop>(
        alloc: Global,
        reader: R,
        dialect: Dialect,
    ) -> Result<Value, Error>
        ensures value { ReadsItems (items_in_format dialect Ascii) (R.remaining reader) result }
        ensures read { IsReadAsAscii R.remaining R.failures reader dialect (built_tree result) }
        ensures fault { IfFault result IsAsciiReadingFault }
        ensures never_io { NeverFailsReading R.failures
            → IfFault result (λ fault. IsNotIo fault.kind) }
    {
        collect(alloc, AsciiReader::with_dialect(alloc, reader, dialect))
    }

    /// Copies the value. The copy has the same content, with dictionaries in the same order.
    ///
    /// # Errors
    ///
    /// `OutOfMemory` if an allocation fails.
    ///
    /// # Examples
    ///
    /// ```rust
    /// let mut copy = settings.clone(alloc)?;
    /// if let Some(pairs) = copy.as_dictionary_mut() {
    ///     pairs.clear();
    /// }
    /// Ok(copy)
    /// ```
    pub fn clone(&self, alloc: Global) -> Result<Value, Error>
        ensures copy { IfOk result (λ copy. tree_of copy ≡ tree_of self.now) }
        ensures memory { OnlyMemory result }
    {
        // A copy is built from the value's events, so that no call recurses, however deep it is.
        collect(alloc, self.events(alloc))
    }

    /// Makes a value from a string.
    ///
    /// # Errors
    ///
    /// `OutOfMemory` if an allocation fails.
    ///
    /// # Examples
    ///
    /// ```rust
    /// Value::try_from_str(alloc, text)
    /// ```
    pub fn try_from_str(alloc: Global, text: &str) -> Result<Value, Error>
        ensures value { IfOk result (λ value. tree_of value ≡ Leaf (String text.now)) }
        ensures memory { OnlyMemory result }
    {
        Ok(Value::String(String::from_str(alloc, text)?))
    }

    /// Appends the value to the writer as a binary property list, and flushes the writer.
    ///
    /// # Errors
    ///
    /// - `PlistTooLarge` if the file would have 2^64 bytes or more, and `OutOfMemory` if an
    ///   allocation fails: nothing was written, and the writer is unchanged.
    /// - `Io` if a write fails (even with `Interrupted`) or accepts no byte, or if the flush fails:
    ///   a prefix of the file was written, and all of it if the flush failed.
    ///
    /// # Examples
    ///
    /// ```rust
    /// let settings = Value::from_file(rt, alloc, FILE)?;
    /// let mut out = Vec::new(alloc);
    /// settings.to_writer_binary(alloc, &mut out)?;
    /// Ok(out.len() as u64)
    /// ```
    #[tactic(auto, using(crate::proofs::EventTables::sending))]
    pub fn to_writer_binary<W: Write>(&self, alloc: Global, writer: &mut W) -> Result<(), Error>
        ensures sent { SendsValue W.contents self.now result writer.old writer.new }
    {
        let events = collect_events(alloc, self)?;
        write_file(alloc, &events, writer)
    }
}

/// Returns the kind of the value's first event: the kind of the scalar, or the start of the
/// collection.
///
/// # Examples
///
/// ```rust
/// let value = Value::from_reader(alloc, file)?;
/// let kind = kind_of_value(&value);
/// value.destroy();
/// Ok(kind)
/// ```
pub fn kind_of_value(value: &Value) -> EventKind
    ensures { result ≡ kind_of_tree (tree_of value.now) }
{
    match value {
        Value::Array(_) => EventKind::StartArray,
        Value::Dictionary(_) => EventKind::StartDictionary,
        Value::Boolean(_) => EventKind::Boolean,
        Value::Data(_) => EventKind::Data,
        Value::Date(_) => EventKind::Date,
        Value::Real(_) => EventKind::Real,
        Value::Integer(_) => EventKind::Integer,
        Value::String(_) => EventKind::String,
        Value::Uid(_) => EventKind::Uid,
    }
}
