//! Windows of a file, stored in two slices: one has a header for every window, the other the bytes
//! of all windows.

ghost use Rattle.std.specs.Prelude.{◌≡◌, ◌+◌, ◌*◌, ◌<◌, ◌≤◌, length, IfSome};
ghost use Rattle.plist_base.specs.inner.Windows.{IsWindowOf, LendsFrom};

use std::io;
use std::io::{Read, Seek, SeekFrom};

/// The number of bytes that each window has beyond its size. Anything that begins within the size
/// of a window and has at most this many bytes lies completely in the window.
pub(crate) const OVERLAP: usize = 64;

/// Describes which bytes of the file a window contains.
#[derive(Clone, Copy)]
pub(crate) struct Header {
    // The offset in the file at which the window begins, and the number of bytes that it contains.
    start: u64,
    filled: usize,
    // Whether the second window of a slot is filled next. A slot consists of two windows, and only
    // the header of its first window stores this.
    turn: bool,
}

/// A window that was never filled. No window begins at `u64::MAX`, since each begins at a multiple
/// of its size.
pub(crate) const UNFILLED: Header = Header {
    start: u64::MAX,
    filled: 0,
    turn: false,
};

// Returns the index of the first window of the slot in which window `number` of the file may be
// buffered. The number of windows is a power of two.
#[inline(always)]
fn first_window(count: usize, number: u64) -> usize
    requires { 2 ≤ count }
    ensures { result + 1 < count }
{
    (number as usize).wrapping_mul(2) & (count - 2)
}

/// Returns the index of the window to which this offset belongs, or `None` if that window isn't
/// buffered.
#[inline(always)]
pub(crate) fn window_at(headers: &[Header], size: usize, place: u64) -> Option<usize>
    requires { 0 < size }
    ensures within { IfSome result (λ i. i < length headers.now) }
    ensures start { IfSome result (λ i. IsWindowOf size headers.now i place) }
{
    if headers.len() < 2 {
        return None;
    }
    let start = place - place % size as u64;
    let first = first_window(headers.len(), place / size as u64);
    // Which of the two windows it is can't be predicted, so no branch depends on it.
    let i = first + usize::from(headers[first].start != start);
    (headers[i].start == start).then_some(i)
}

/// Returns the buffered bytes from this offset on. The slice is empty if none are buffered.
#[inline(always)]
pub(crate) fn buffered_in<'a>(
    headers: &[Header],
    bytes: &'a [u8],
    size: usize,
    place: u64,
) -> &'a [u8]
    requires size { 0 < size }
    requires room { length headers.now * (size + 64) ≤ length bytes.now }
    ensures bytes { LendsFrom size headers.now bytes.now place result.now }
{
    let Some(i) = window_at(headers, size, place) else {
        return &[];
    };
    let from = (place % size as u64) as usize;
    let filled = headers[i].filled;
    if from >= filled {
        return &[];
    }
    let rest = &bytes[i * (size + OVERLAP) + from..];
    &rest[..(filled - from).min(rest.len())]
}

// Returns the index of the window to fill for this offset: the window to which the offset already
// belongs, or else one of the slot's two windows, which take turns. Returns `None` if there are
// fewer than two windows.
fn window_for(headers: &mut [Header], size: usize, place: u64) -> Option<usize>
    requires { 0 < size }
    ensures within { IfSome result (λ i. i < length headers.old) }
    ensures length { length headers.new ≡ length headers.old }
{
    if let Some(i) = window_at(headers, size, place) {
        return Some(i);
    }
    if headers.len() < 2 {
        return None;
    }
    let first = first_window(headers.len(), place / size as u64);
    let turn = headers[first].turn;
    headers[first].turn = !turn;
    Some(first + usize::from(turn))
}

/// Fills the window to which this offset belongs with one read. If the seek or the read fails, the
/// window is empty. Does nothing if there are fewer than two windows.
pub(crate) fn fill_in<R: Read + Seek>(
    headers: &mut [Header],
    bytes: &mut [u8],
    size: usize,
    place: u64,
    reader: &mut R,
) -> Result<(), io::Error>
    requires size { 0 < size }
    requires room { length headers.old * (size + 64) ≤ length bytes.old }
    ensures headers { length headers.new ≡ length headers.old }
    ensures bytes { length bytes.new ≡ length bytes.old }
{
    let Some(i) = window_for(headers, size, place) else {
        return Ok(());
    };
    let header = &mut headers[i];
    header.start = place - place % size as u64;
    header.filled = 0;
    reader.seek(SeekFrom::Start(header.start))?;
    header.filled = reader.read(&mut bytes[i * (size + OVERLAP)..][..size + OVERLAP])?;
    Ok(())
}
