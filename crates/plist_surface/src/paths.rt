//! The paths by which `plist` re-exports items of the crates below it. Each function names an item
//! by both paths. Most functions return their argument, and name its type by the other path. The
//! last four call a method of a trait, or a function.

pub fn data(it: plist::Data) -> plist_base::Data {
    it
}

pub fn date(it: plist::Date) -> plist_base::Date {
    it
}

pub fn error(it: plist::Error) -> plist_base::Error {
    it
}

pub fn error_kind(it: plist::ErrorKind) -> plist_base::ErrorKind {
    it
}

pub fn event_kind(it: plist::EventKind) -> plist_base::EventKind {
    it
}

pub fn integer(it: plist::Integer) -> plist_base::Integer {
    it
}

pub fn invalid_integer(it: plist::InvalidInteger) -> plist_base::InvalidInteger {
    it
}

pub fn invalid_xml_data(it: plist::InvalidXmlData) -> plist_base::InvalidXmlData {
    it
}

pub fn invalid_xml_date(it: plist::InvalidXmlDate) -> plist_base::InvalidXmlDate {
    it
}

pub fn limit(it: plist::Limit) -> plist_base::Limit {
    it
}

pub fn limits(it: plist::Limits) -> plist_binread::Limits {
    it
}

pub fn dialect(it: plist::Dialect) -> plist_ascii::Dialect {
    it
}

pub fn real_bits(it: plist::RealBits) -> plist_base::RealBits {
    it
}

pub fn uid(it: plist::Uid) -> plist_base::Uid {
    it
}

pub fn dictionary(it: plist::dictionary::Dictionary) -> plist::Dictionary {
    it
}

pub fn event(it: plist::stream::Event<'_>) -> plist_base::Event<'_> {
    it
}

pub fn owned_event(it: plist::stream::OwnedEvent) -> plist_base::OwnedEvent {
    it
}

pub fn events(it: plist::stream::Events<'_>) -> plist::Events<'_> {
    it
}

pub fn reader(it: plist::stream::Reader<&[u8]>) -> plist::Reader<&[u8]> {
    it
}

pub fn binary_reader(
    it: plist::stream::BinaryReader<Vec<u8>>,
) -> plist_binread::BinaryReader<Vec<u8>> {
    it
}

pub fn ascii_reader(it: plist::stream::AsciiReader<&[u8]>) -> plist_ascii::AsciiReader<&[u8]> {
    it
}

pub fn binary_writer(
    it: plist::stream::BinaryWriter<Vec<u8>>,
) -> plist_binwrite::BinaryWriter<Vec<u8>> {
    it
}

pub fn sequential(it: plist::stream::Sequential<Vec<u8>>) -> plist_base::Sequential<Vec<u8>> {
    it
}

pub fn buffered_source(
    it: plist::stream::BufferedSource<Vec<u8>>,
) -> plist::BufferedSource<Vec<u8>> {
    it
}

pub fn seeking(
    it: plist::stream::Seeking<std::io::Cursor<Vec<u8>>>,
) -> plist_base::Seeking<std::io::Cursor<Vec<u8>>> {
    it
}

pub fn source<S: plist::stream::Source>(source: &mut S) -> Result<u64, std::io::Error> {
    plist_base::Source::size(source)
}

pub fn writer<W: plist::stream::Writer>(writer: &mut W) -> Result<(), plist_base::Error> {
    plist_base::Writer::write_boolean(writer, true)
}

pub fn visit<S: plist::stream::EventSource, V: plist::stream::EventVisitor>(
    source: &mut S,
    visitor: &mut V,
) -> Result<plist::stream::Visited, plist_base::Error> {
    let visited: plist_base::Visited = plist_base::EventSource::visit(source, visitor)?;
    Ok(visited)
}

pub fn utf16(text: plist::stream::Utf16Str<'_>) -> plist::stream::Utf16Chars<'_> {
    let text: plist_base::Utf16Str<'_> = text;
    let chars: plist_base::Utf16Chars<'_> = text.chars();
    chars
}

pub fn copy_events<S: plist_base::EventSource, W: plist_base::Writer>(
    source: &mut S,
    writer: &mut W,
) -> Result<(), plist_base::Error> {
    plist_base::copy_events(source, writer)?;
    plist::stream::copy_events(source, writer)
}
