//! Proved callers of data. Data has the bytes from which it was made, and data with equal bytes is
//! equal. Its text is parsed as the same data, and the error for a text with a wrong symbol names
//! that symbol.

ghost use Rattle.std.specs.Prelude.{◌≡◌, ◌<◌, ◌↔◌, Err, IfErr, IfOk, IfSome, IsTrue, codes, length, slice_get, slice_set, string_bytes};
ghost use Rattle.base64.specs.Engines.{standard};
ghost use Rattle.base64.specs.GeneralPurpose.{decode_of};
ghost use Rattle.base64.specs.declared.decode.DecodeError.TheVariants as fault;
ghost use Rattle.plist_base.specs.DataText.{data_text, without_white};
ghost use Rattle.plist_base.specs.declared.data.InvalidXmlData.TheVariants as refusal;

use base64::DecodeError;
use plist_base::{Data, Error, InvalidXmlData};
use std::alloc::{AllocError, Global};

/// Converts bytes to data and back.
pub fn bytes_again(bytes: Vec<u8>) -> Vec<u8>
    ensures { result.items ≡ bytes.items }
{
    Vec::from(Data::from(bytes))
}

/// Copies data, and returns the bytes of the copy, which are the bytes of the data.
///
/// # Errors
///
/// `OutOfMemory` if an allocation fails.
pub fn bytes_of_copy(first: &Data) -> Result<Vec<u8>, Error>
    ensures { IfOk result (λ bytes. bytes.items ≡ first.now) }
{
    let copy = first.clone()?;
    Ok(Vec::from(copy))
}

/// Returns the first byte of data, if it has one.
pub fn first_byte(first: &Data) -> Option<u8>
    ensures { result ≡ slice_get first.now 0 }
{
    first.as_ref().first().copied()
}

/// Sets the first byte of data, which must not be empty. The other bytes don't change.
pub fn set_first_byte(first: &mut Data, byte: u8)
    requires { 0 < length first.old }
    ensures { first.new ≡ slice_set first.old 0 byte }
{
    let bytes = first.as_mut();
    bytes[0] = byte;
}

/// Returns `true` if two values of data are equal, that is, if their bytes are.
pub fn are_same(first: &Data, other: &Data) -> bool
    ensures { IsTrue result ↔ (first.now ≡ other.now) }
{
    first == other
}

/// Prints the error of parsing a text that doesn't encode data.
///
/// # Errors
///
/// `AllocError` if an allocation fails.
pub fn text_of_no_data(alloc: Global) -> Result<String, AllocError>
    ensures { IfOk result (λ text. string_bytes text ≡ codes "Invalid XML data") }
{
    InvalidXmlData::Decode(DecodeError::InvalidPadding).to_string(alloc)
}

/// If a text is rejected because of a byte that isn't valid in base64, returns the byte, and its
/// offset in the text without white space. Otherwise returns `None`.
pub fn wrong_symbol(alloc: Global, text: &str) -> Option<(usize, u8)>
    ensures { IfSome result (λ found.
        decode_of standard (without_white text.now) ≡ Err (fault.InvalidByte found.0 found.1)) }
{
    match Data::from_xml_format(alloc, text) {
        Err(InvalidXmlData::Decode(DecodeError::InvalidByte(place, symbol))) => {
            Some((place, symbol))
        }
        _ => None,
    }
}

/// Returns the text of bytes, as data: base64 in lines of 68 characters.
///
/// # Errors
///
/// `OutOfMemory` if an allocation fails.
pub fn text_of_bytes(alloc: Global, bytes: Vec<u8>) -> Result<String, Error>
    ensures { IfOk result (λ text. string_bytes text ≡ data_text bytes.items) }
{
    Data::from(bytes).to_xml_format(alloc)
}

/// Converts data to its text, and parses the text again. The result is equal to `first`.
///
/// # Errors
///
/// [`InvalidXmlData::OutOfMemory`] if an allocation fails.
pub fn data_again(alloc: Global, first: &Data) -> Result<Data, InvalidXmlData>
    ensures same { IfOk result (λ again. again ≡ first.now) }
    ensures memory { IfErr result (λ error. error ≡ refusal.OutOfMemory) }
{
    match first.to_xml_format(alloc) {
        Err(_) => Err(InvalidXmlData::OutOfMemory),
        Ok(text) => Data::from_xml_format(alloc, text.as_str()),
    }
}
