//! Prefetches the objects of a collection's next children if objects are scattered over the file.

ghost use Rattle.std.specs.Prelude.{◌<◌, ◌≤◌, ◌+◌};
ghost use Rattle.plist_binread.specs.Walking.{walk_objects};

use crate::frames::Frame;
use crate::walk::Walk;
use plist_base::Source;
use plist_decode::decoded::CollectionKind;
use plist_decode::numbers::number_from;

// The number of children from one prefetch to the next.
const STEP: u64 = 16;

// The largest number of objects that are read in one prefetch.
const AHEAD: usize = STEP as usize;

// Nothing is prefetched if fewer children than this are left.
const FEW: u64 = 8;

// Two collections are taken to be scattered if their numbers differ by at least this much.
const FAR_NUMBER: u64 = 512;

// An object is prefetched only if it is at least this many bytes from the one before it. The
// processor mostly fetches nearer ones by itself.
const FAR_BYTES: u64 = 4096;

// Returns the offsets of the objects that the first `count` references name, if they are known.
//
// All of them are looked up before the first object is read, so that the processor waits for all of
// these look-ups at once.
#[inline(always)]
fn offsets_of(walk: &Walk, bytes: &[u8], width: usize, count: usize) -> [Option<u64>; AHEAD]
    requires { (0 < width) × (width ≤ 8) }
{
    let mut places = [None; AHEAD];
    let references = bytes.chunks_exact(width).take(count);
    for (place, reference) in places.iter_mut().zip(references) {
        *place = walk.offset_of(number_from(reference));
    }
    places
}

/// Prefetches objects, and remembers whether they seem to be scattered.
///
/// The processor would otherwise wait for every scattered object in turn. The kit has no
/// instruction that prefetches, so a byte of every object is read.
#[derive(Clone, Copy)]
pub struct Prefetcher {
    // The number of the collection that was entered last, among those with enough children.
    last_entered: u64,
    // The index of the child of that collection from which on objects are prefetched next.
    due: u64,
    // Whether objects seem to be scattered.
    is_scattered: bool,
    // The exclusive or of the bytes that were read. It is stored so that the compiler keeps the
    // reads; nothing depends on it.
    read: u8,
}

impl Prefetcher {
    /// Creates a prefetcher that hasn't been asked yet.
    pub fn new() -> Self {
        Prefetcher {
            last_entered: u64::MAX,
            due: 0,
            is_scattered: false,
            read: 0,
        }
    }

    // Reads the first byte of each buffered object among the next items or values of a collection,
    // unless it is near the one before it. If nearly all are near, objects aren't scattered.
    #[inline(never)]
    fn read_ahead<S: Source>(&mut self, source: &S, walk: &Walk, frame: Frame, width: usize)
        requires object { frame.object < walk_objects walk.now }
        requires left { frame.next + 8 ≤ frame.count }
        requires width { (0 < width) × (width ≤ 8) }
    {
        let references = walk.references(frame);
        let left = (frame.count - frame.next).min(STEP);
        let (index, count) = match references.kind {
            CollectionKind::Array => (frame.next, left),
            CollectionKind::Dictionary => (frame.next + 1, left / 2),
        };
        let bytes = source.buffered(references.reference_place(index, width));
        if bytes.len() < width {
            return;
        }
        let mut previous = references.place;
        let mut far = 0u64;
        for place in offsets_of(walk, bytes, width, count as usize) {
            if let Some(place) = place {
                if place.abs_diff(previous) >= FAR_BYTES {
                    self.read ^= source.buffered(place).first().copied().unwrap_or(0);
                    far = far.saturating_add(1);
                }
                previous = place;
            }
        }
        self.is_scattered = far > 1;
        self.due = frame.next.saturating_add(STEP);
    }

    /// Prefetches the objects of the next items or values of a collection if objects seem to be
    /// scattered. This is done for every sixteenth child, if enough children are left.
    ///
    /// They seem to be scattered if the collection is entered and its number is far from the number
    /// of the previous one, or otherwise if the last prefetch found several objects far from one
    /// another.
    #[inline(always)]
    pub fn prefetch<S: Source>(&mut self, source: &S, walk: &Walk, frame: Frame, width: usize)
        requires object { frame.object < walk_objects walk.now }
        requires next { frame.next < frame.count }
        requires width { (0 < width) × (width ≤ 8) }
    {
        if frame.count - frame.next < FEW {
            return;
        }
        if frame.next == 0 {
            self.is_scattered = frame.object.abs_diff(self.last_entered) >= FAR_NUMBER;
            self.last_entered = frame.object;
            self.due = 0;
        }
        // Sixteen children were entered since the last prefetch for this collection.
        let is_due = if frame.object == self.last_entered {
            frame.next >= self.due
        } else {
            frame.next % STEP == 0
        };
        if self.is_scattered && is_due {
            self.read_ahead(source, walk, frame, width);
        }
    }
}
