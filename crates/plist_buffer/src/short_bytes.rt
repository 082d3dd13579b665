//! Short lists of bytes, which are stored in a value itself.

ghost use Rattle.std.specs.Prelude.{◌≡◌, ◌≤◌, IfSome};

/// The greatest number of bytes that are stored in the value itself. A UUID as text has 36.
pub const MAX_SHORT: usize = 38;

/// At most 38 bytes, which are stored in the value itself.
#[derive(Clone, Copy)]
pub struct ShortBytes {
    len: u8,
    bytes: [u8; MAX_SHORT],
    ghost fits: { len ≤ 38 },
}

impl ShortBytes {
    ghost use Rattle.plist_buffer.specs.inner.LongContents.{short_bytes};

    /// Copies the bytes, or returns `None` if there are more than 38.
    #[inline(always)]
    pub fn new(content: &[u8]) -> Option<ShortBytes>
        ensures { IfSome result (λ short. short_bytes short ≡ content.now) }
    {
        if content.len() > MAX_SHORT {
            return None;
        }
        let mut bytes = [0; MAX_SHORT];
        let target = &mut bytes[..content.len()];
        target.copy_from_slice(content);
        Some(ShortBytes {
            len: content.len() as u8,
            bytes,
        })
    }

    /// Returns the bytes.
    #[inline(always)]
    pub fn as_slice(&self) -> &[u8]
        ensures { result.now ≡ short_bytes self.now }
    {
        &self.bytes[..usize::from(self.len)]
    }
}
