//! Strings and data of more than eight bytes, as a table stores them.

ghost use Rattle.std.specs.Prelude.{◌≡◌, ◌<◌, IfSome, false, length, IfOk};
ghost use Rattle.std.proofs.Props.{props};
ghost use Rattle.plist_buffer.specs.inner.LongContents.{bytes_stored, form_in, scalar_from, IsLongIn};
ghost use Rattle.plist_base.specs.Trees.{String as StringScalar};

use crate::short_bytes::{MAX_SHORT, ShortBytes};
use crate::stored_scalar::ScalarRef;
use crate::wide::{is_long_wide, units_of};
use plist_base::{Ascii, Utf16Str, all_pass};
use std::alloc::{AllocError, Global};
use std::borrow::CowSlice;
use std::hash::{Hash, Hasher};
use std::str;

/// The form in which a string or data is stored.
#[derive(Clone, Copy, PartialEq, Eq)]
pub enum Form {
    /// A string in ASCII.
    Ascii,
    /// A string that isn't ASCII, in UTF-16.
    Wide,
    /// Data.
    Data,
}

/// A borrowed string or data of more than eight bytes, in the form in which a table stores it.
#[derive(Clone, Copy)]
pub struct LongRef<'a> {
    form: Form,
    bytes: &'a [u8],
    ghost stored: { IsLongIn form bytes.now } by { Prim.hlevel props },
}

impl<'a> LongRef<'a> {
    ghost use Rattle.plist_base.specs.ByteTests.{EachByte};
    ghost use Rattle.plist_base.specs.Utf16Strings.{string_of_utf16};
    ghost use Rattle.plist_buffer.specs.StoredScalars.{scalar_of_long_ref};

    /// Returns the string or data that has the given form and, in this form, the given bytes.
    #[inline(always)]
    pub fn new(form: Form, bytes: &'a [u8]) -> LongRef<'a>
        requires { IsLongIn form bytes.now }
        ensures { scalar_of_long_ref result ≡ scalar_from form bytes.now }
    {
        LongRef { form, bytes }
    }

    /// Returns the string that consists of the given bytes, or `None` if one of them isn't ASCII,
    /// or if there are at most eight.
    #[inline(always)]
    pub fn of_ascii(bytes: &'a [u8]) -> Option<LongRef<'a>>
        ensures string { IfSome result (λ text. scalar_of_long_ref text ≡ StringScalar bytes.now) }
        ensures ascii { IfSome result (λ _. EachByte (λ byte. byte < 128) bytes.now) }
    {
        if bytes.len() > 8 && all_pass::<Ascii>(bytes) {
            return Some(LongRef::new(Form::Ascii, bytes));
        }
        None
    }

    /// Returns a string in UTF-16, or `None` if it is ASCII or has at most eight bytes in UTF-8.
    #[inline(always)]
    pub fn of_utf16(text: Utf16Str<'a>) -> Option<LongRef<'a>>
        ensures { IfSome result (λ wide. scalar_of_long_ref wide
            ≡ StringScalar (string_of_utf16 text.entry)) }
    {
        if is_long_wide(text) {
            return Some(LongRef::new(Form::Wide, text.as_bytes()));
        }
        None
    }

    /// Returns `true` if a copy allocates no memory, since its bytes are stored in the value
    /// itself.
    #[inline(always)]
    pub fn is_short(self) -> bool {
        self.bytes.len() <= MAX_SHORT
    }
}

/// The form and the bytes of a string or data. If there are at most 38 bytes, they are stored in
/// the value itself. More bytes are borrowed or owned.
///
/// A short one has its form in the variant, since the value would otherwise be larger than 40
/// bytes.
#[derive(Drop)]
pub enum LongContent<'e> {
    /// A string in ASCII of at most 38 bytes.
    ShortAscii(ShortBytes),
    /// A string of at most 38 bytes in UTF-16.
    ShortWide(ShortBytes),
    /// Data of at most 38 bytes.
    ShortData(ShortBytes),
    /// More than 38 bytes that are borrowed, or bytes to compare with.
    Borrowed(Form, &'e [u8]),
    /// More than 38 bytes that are owned.
    Owned(Form, Vec<u8>),
}

impl<'e> LongContent<'e> {
    // Copies the bytes into the value, or returns `None` if there are more than 38.
    #[inline(always)]
    fn short(form: Form, bytes: &[u8]) -> Option<LongContent<'e>>
        ensures form { IfSome result (λ content. form_in content ≡ form) }
        ensures bytes { IfSome result (λ content. bytes_stored content ≡ bytes.now) }
    {
        let short = ShortBytes::new(bytes)?;
        match form {
            Form::Ascii => Some(LongContent::ShortAscii(short)),
            Form::Wide => Some(LongContent::ShortWide(short)),
            Form::Data => Some(LongContent::ShortData(short)),
        }
    }

    // Returns the form.
    #[inline(always)]
    fn form(&self) -> Form
        ensures { result ≡ form_in self.now }
    {
        match self {
            LongContent::ShortAscii(_) => Form::Ascii,
            LongContent::ShortWide(_) => Form::Wide,
            LongContent::ShortData(_) => Form::Data,
            LongContent::Borrowed(form, _) | LongContent::Owned(form, _) => *form,
        }
    }

    // Returns the bytes.
    #[inline(always)]
    fn bytes(&self) -> &[u8]
        ensures { result.now ≡ bytes_stored self.now }
    {
        match self {
            LongContent::ShortAscii(short)
            | LongContent::ShortWide(short)
            | LongContent::ShortData(short) => short.as_slice(),
            LongContent::Borrowed(_, borrowed) => borrowed,
            LongContent::Owned(_, owned) => owned.as_slice(),
        }
    }
}

/// A string or data of more than eight bytes. A string is stored in ASCII, or in UTF-16 if it isn't
/// ASCII.
///
/// Two of them are equal if they are of one kind and have equal contents.
#[derive(Drop)]
pub struct LongScalar<'e> {
    content: LongContent<'e>,
    ghost stored: { IsLongIn (form_in content)
        (bytes_stored content) } by { Prim.hlevel props },
}

impl<'e> LongScalar<'e> {
    ghost use Rattle.std.specs.Cow.{cow_slice_items};
    ghost use Rattle.plist_buffer.specs.inner.LongContents.{is_ascii_text};
    ghost use Rattle.plist_buffer.specs.StoredScalars.{IsStored, scalar_of_long, scalar_of_long_ref, scalar_of_ref};

    /// Stores a string or data, given its form and its bytes. More than 38 bytes remain borrowed or
    /// owned, as they were.
    pub fn new(form: Form, bytes: CowSlice<'e, u8>) -> LongScalar<'e>
        requires { IsLongIn form (cow_slice_items bytes) }
        ensures { scalar_of_long result ≡ scalar_from form (cow_slice_items bytes.entry) }
    {
        if let Some(content) = LongContent::short(form, bytes.as_slice()) {
            return LongScalar { content };
        }
        match bytes {
            CowSlice::Borrowed(borrowed) => LongScalar {
                content: LongContent::Borrowed(form, borrowed),
            },
            CowSlice::Owned(owned) => LongScalar {
                content: LongContent::Owned(form, owned),
            },
        }
    }

    /// Borrows a string or data to compare with.
    #[inline(always)]
    pub fn borrowed(scalar: LongRef<'e>) -> LongScalar<'e>
        ensures { scalar_of_long result ≡ scalar_of_long_ref scalar.entry }
    {
        LongScalar {
            content: LongContent::Borrowed(scalar.form, scalar.bytes),
        }
    }

    /// Stores a copy of a string or data, or fails if an allocation fails.
    pub fn copy_of(alloc: Global, scalar: LongRef<'_>) -> Result<LongScalar<'e>, AllocError>
        ensures { IfOk result (λ stored. scalar_of_long stored ≡ scalar_of_long_ref scalar.entry) }
    {
        if let Some(content) = LongContent::short(scalar.form, scalar.bytes) {
            return Ok(LongScalar { content });
        }
        let owned = Vec::from_slice(alloc, scalar.bytes)?;
        Ok(LongScalar {
            content: LongContent::Owned(scalar.form, owned),
        })
    }

    /// Stores a string that isn't ASCII in UTF-16, or fails if an allocation fails.
    pub fn encode(alloc: Global, text: &str) -> Result<LongScalar<'e>, AllocError>
        requires long { 8 < length text.now }
        requires wide { is_ascii_text text.now ≡ false }
        ensures { IfOk result (λ stored. scalar_of_long stored ≡ StringScalar text.now) }
    {
        let units = units_of(alloc, text)?;
        Ok(LongScalar::new(Form::Wide, CowSlice::Owned(units)))
    }

    /// Returns the scalar as a reference, which borrows its string or data.
    #[inline(always)]
    pub fn get(&self) -> ScalarRef<'_>
        ensures scalar { scalar_of_ref result ≡ scalar_of_long self.now }
        ensures stored { IsStored result }
    {
        let bytes = self.content.bytes();
        match self.content.form() {
            Form::Ascii => ScalarRef::AsciiString(unsafe { str::from_utf8_unchecked(bytes) }),
            Form::Wide => ScalarRef::WideString(bytes),
            Form::Data => ScalarRef::Data(bytes),
        }
    }
}

impl PartialEq for LongScalar<'_> {
    ghost use Rattle.std.specs.Cmp.{on_equiv, partial_equiv_from_equiv};
    ghost use Rattle.plist_base.specs.Scalars.{scalar_eq};
    ghost use Rattle.plist_buffer.specs.StoredScalars.{scalar_of_long};
    ghost use Rattle.plist_buffer.specs.inner.LongContents.{scalars_equiv};

    ghost eq = { λ a b. scalar_eq (scalar_of_long a) (scalar_of_long b) };

    ghost laws = { partial_equiv_from_equiv (on_equiv scalar_of_long scalars_equiv) };

    fn eq(&self, other: &Self) -> bool {
        self.content.form() == other.content.form() && self.content.bytes() == other.content.bytes()
    }
}

impl Eq for LongScalar<'_> {
    ghost use Rattle.std.specs.Cmp.{on_equiv};
    ghost use Rattle.plist_buffer.specs.StoredScalars.{scalar_of_long};
    ghost use Rattle.plist_buffer.specs.inner.LongContents.{scalars_equiv};

    ghost laws = { on_equiv scalar_of_long scalars_equiv };
}

/// Writes the stored bytes of the string or data to the hasher.
impl Hash for LongScalar<'_> {
    ghost use Rattle.std.specs.Prelude.{◌∷◌, []};
    ghost use Rattle.plist_buffer.specs.StoredScalars.{scalar_of_long};
    ghost use Rattle.plist_buffer.specs.inner.LongContents.{bytes_of_scalar, equal_long_write_same};

    ghost hash_input = { λ scalar. bytes_of_scalar (scalar_of_long scalar) ∷ [] };

    ghost respects_eq = { λ a b. equal_long_write_same (scalar_of_long a) (scalar_of_long b) };

    fn hash<H: Hasher>(&self, state: &mut H) {
        state.write(self.content.bytes());
    }
}
