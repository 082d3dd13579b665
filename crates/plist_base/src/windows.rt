//! The buffered windows of a file: eight short ones in the struct itself, or long ones on the heap.

ghost use Rattle.std.specs.Prelude.{◌*◌, ◌≤◌, length};

use crate::window::{Header, OVERLAP, UNFILLED, buffered_in, fill_in, window_at};
use std::alloc::Global;
use std::io;
use std::io::{Read, Seek};

// The size of a short window in bytes. The window begins at a multiple of its size.
const SHORT_WINDOW: usize = 512;

// The size of a long window in bytes. The window begins at a multiple of its size. One read of a
// file usually returns all bytes of a window.
const LONG_WINDOW: usize = 8192;

// The number of windows before the first doubling.
const INITIAL_WINDOWS: usize = 8;

// The maximum number of windows.
const MAX_WINDOWS: usize = 8192;

// The number of first fills that cancel one refill. A refill fills a window again.
const REFILL_WEIGHT: u64 = 8;

// The number of bits that tell whether a window was ever filled. In a file of more than 512 MiB,
// windows share a bit if their numbers are equal modulo this one, so some first fills count as
// refills.
const FILL_BITS: usize = 65_536;

// Long windows on the heap. None are allocated before one has to be filled.
//
// Their number doubles when there are more refills than half as many windows, up to 8,192 windows.
// Each first fill cancels an eighth of a refill, so that a file that is read in order keeps few
// windows. If there are more than eight, their number is less than twice the number of parts of
// 8 KiB in the file: once there are as many windows as parts, only the windows that were filled
// before the last doubling, which are half of all windows, are filled again.
#[derive(Drop)]
struct LongWindows {
    headers: Vec<Header>,
    bytes: Vec<u8>,
    // Has `FILL_BITS` bits. That of a window is set once the window was filled.
    ever_filled: Vec<u64>,
    // The number of refills since the last doubling times `REFILL_WEIGHT`, minus the number of
    // first fills. A first fill changes nothing if this is 0.
    refills: u64,
    ghost room: { length headers.items * 8256 ≤ length bytes.items },
}

impl LongWindows {
    ghost use Rattle.plist_base.specs.inner.Windows.{KeepsWindows};

    fn new(alloc: Global) -> Self {
        LongWindows {
            headers: Vec::new(alloc),
            bytes: Vec::new(alloc),
            ever_filled: Vec::new(alloc),
            refills: 0,
        }
    }

    // Extends the windows to this number, and returns whether memory for them could be allocated.
    fn extend_to(&mut self, count: usize) -> bool
        requires { (length self.old.headers.items ≤ count) × (count ≤ 8192) }
        ensures { KeepsWindows self.old self.new }
    {
        let size = (count * (LONG_WINDOW + OVERLAP)).max(self.bytes.len());
        self.bytes.resize(size, 0).is_ok() && self.headers.resize(count, UNFILLED).is_ok()
    }

    // Allocates the first windows if there are none, and returns whether there are any.
    fn allocate_first(&mut self) -> bool
        ensures { KeepsWindows self.old self.new }
    {
        if !self.headers.is_empty() {
            return true;
        }
        let _ = self.ever_filled.resize(FILL_BITS / 64, 0);
        self.extend_to(INITIAL_WINDOWS)
    }

    // Counts the fill of a window, and doubles the number of windows if refills are frequent.
    fn count_fill(&mut self, number: u64)
        ensures { KeepsWindows self.old self.new }
    {
        let bit = number % FILL_BITS as u64;
        let mask = 1 << (bit % 64);
        let was_filled = match self.ever_filled.get_mut((bit / 64) as usize) {
            Some(ever_filled) => {
                let before = *ever_filled & mask != 0;
                *ever_filled |= mask;
                before
            }
            // The bits couldn't be allocated.
            None => false,
        };
        if !was_filled {
            self.refills = self.refills.saturating_sub(1);
            return;
        }
        self.refills = self.refills.saturating_add(REFILL_WEIGHT);
        let count = self.headers.len();
        if count < MAX_WINDOWS && self.refills > REFILL_WEIGHT / 2 * count as u64 {
            self.refills = 0;
            self.extend_to((count * 2).min(MAX_WINDOWS));
        }
    }

    // Fills the window that contains this offset.
    fn fill<R: Read + Seek>(&mut self, place: u64, reader: &mut R) -> Result<(), io::Error> {
        if window_at(&self.headers, LONG_WINDOW, place).is_none() {
            self.count_fill(place / LONG_WINDOW as u64);
        }
        let LongWindows { headers, bytes, .. } = self;
        fill_in(headers, bytes, LONG_WINDOW, place, reader)
    }
}

/// The windows of a file: eight short ones, or long ones on the heap, of which there are eight at
/// first.
#[derive(Drop)]
pub(crate) struct Windows {
    // The short windows, which need no allocation.
    headers: [Header; INITIAL_WINDOWS],
    bytes: [u8; INITIAL_WINDOWS * (SHORT_WINDOW + OVERLAP)],
    long: Option<LongWindows>,
}

impl Windows {
    ghost use Rattle.plist_base.specs.inner.Windows.{Lends};

    /// Creates windows that were never filled. With an allocator they are long ones, which are
    /// allocated when the first is filled.
    pub(crate) fn new(alloc: Option<Global>) -> Self {
        Windows {
            headers: [UNFILLED; INITIAL_WINDOWS],
            bytes: [0; INITIAL_WINDOWS * (SHORT_WINDOW + OVERLAP)],
            long: alloc.map(LongWindows::new),
        }
    }

    /// Returns the size of a window in bytes. With an allocator this is the size of a long one,
    /// even if memory for long ones couldn't be allocated. Only a read of fewer bytes fills a
    /// window.
    pub(crate) fn size(&self) -> usize {
        match &self.long {
            Some(_) => LONG_WINDOW,
            None => SHORT_WINDOW,
        }
    }

    /// Returns the buffered bytes from this offset on. The slice is empty if none are buffered.
    #[inline(always)]
    pub(crate) fn buffered(&self, place: u64) -> &[u8]
        ensures bytes { Lends self.now place result.now }
    {
        match &self.long {
            Some(long) if long.headers.len() >= 2 => {
                buffered_in(&long.headers, &long.bytes, LONG_WINDOW, place)
            }
            _ => buffered_in(&self.headers, &self.bytes, SHORT_WINDOW, place),
        }
    }

    /// Fills the window that contains this offset.
    pub(crate) fn fill<R: Read + Seek>(
        &mut self,
        place: u64,
        reader: &mut R,
    ) -> Result<(), io::Error> {
        if let Some(long) = &mut self.long {
            if long.allocate_first() {
                return long.fill(place, reader);
            }
        }
        fill_in(
            &mut self.headers,
            &mut self.bytes,
            SHORT_WINDOW,
            place,
            reader,
        )
    }
}
