//! Data, and its text form: lines of base64.

ghost use Rattle.std.specs.Prelude.{◌≡◌, List, ℕ, length, Some, Ok, IfOk, IfErr, string_bytes, nat_eq};
ghost use Rattle.std.specs.Borrow.{sem};
ghost use Rattle.base64.specs.GeneralPurpose.{IsBytes};
ghost use Rattle.plist_base.specs.Faults.{OutOfMemory};
ghost use Rattle.plist_base.specs.Outcomes.{OnlyMemory};
ghost use Rattle.plist_base.specs.DataText.{IsFaultOfText, IsNoData, data_of_text, data_text, without_white, IsReadWhereSpelled, IsAllNew, LendsBytes, refusal_text, refusal_of_decoding};
ghost use Rattle.std.specs.Cmp.Lexicographic.{pointwise};
ghost use Rattle.std.proofs.Common.{rules};
ghost use Rattle.std.specs.Cmp.Rules.{comparing};
ghost use Rattle.base64.specs.declared.decode.DecodeAllocError.TheVariants.{OutOfMemory as NoMemory};

use crate::Error;
use base64::engine::general_purpose::STANDARD;
use base64::{DecodeAllocError, DecodeError};
use std::alloc::{AllocError, Global};
use std::fmt;
use std::marker::Model;

// The number of bytes that a full line encodes, in 68 characters of base64.
const BYTES_A_LINE: usize = 51;

/// Bytes, with the text form that data has in XML property lists.
#[derive(Drop)]
pub struct Data {
    bytes: Vec<u8>,
}

impl Model for Data {
    ghost use Rattle.std.specs.Prelude.{List, ℕ};
    ghost use Rattle.std.specs.Coded.{coded_list, coded_ℕ};

    ghost Value = { List ℕ };

    ghost coded = { coded_list coded_ℕ };

    ghost view = { λ a. a.bytes.items };
}

/// The error of parsing data.
#[derive(Clone, Copy, Debug, PartialEq, Eq)]
pub enum InvalidXmlData {
    /// The text isn't valid base64. Offsets in the error count the bytes of the text without its
    /// white space.
    Decode(DecodeError),
    /// An allocation failed.
    OutOfMemory,
}

impl Data {
    /// Makes data from bytes.
    pub fn new(bytes: Vec<u8>) -> Data
        ensures { result ≡ bytes.items }
    {
        Data { bytes }
    }

    /// Parses base64 in the standard alphabet, with padding. Tabs, line feeds, form feeds, carriage
    /// returns and spaces are ignored, wherever they are.
    ///
    /// # Errors
    ///
    /// [`InvalidXmlData::Decode`] if the other characters aren't valid base64, and
    /// [`InvalidXmlData::OutOfMemory`] if an allocation fails.
    ///
    /// # Examples
    ///
    /// ```rust
    /// let data = Data::from_xml_format(alloc, "AP 8=").ok()?;
    /// data.to_xml_format(alloc).ok()
    /// ```
    #[tactic(auto, using(crate::proofs::DataLines::refusals))]
    pub fn from_xml_format(alloc: Global, text: &str) -> Result<Data, InvalidXmlData>
        ensures data { IfOk result (λ found. data_of_text text.now ≡ Some found) }
        ensures fault { IfErr result (λ error. IsFaultOfText text.now error) }
        ensures no_data { IfErr result (λ error. IsNoData text.now error) }
        ensures spelled { (bytes : List ℕ) → IsBytes bytes → IsReadWhereSpelled text.now bytes }
    {
        let symbols = without_white_space(alloc, text)?;
        let bytes = STANDARD.decode(alloc, &symbols)?;
        Ok(Data::new(bytes))
    }

    /// Formats the data as lines of base64. Every line has 68 characters and encodes 51 bytes,
    /// except that the last line may be shorter. Lines are separated by a line feed; none follows
    /// the last one.
    ///
    /// # Errors
    ///
    /// [`ErrorKind::OutOfMemory`](crate::ErrorKind::OutOfMemory), without an offset, if an
    /// allocation fails.
    ///
    /// # Examples
    ///
    /// ```rust
    /// let data = Data::from_xml_format(alloc, "AP 8=").ok()?;
    /// data.to_xml_format(alloc).ok()
    /// ```
    pub fn to_xml_format(&self, alloc: Global) -> Result<String, Error>
        ensures text { IfOk result (λ text. string_bytes text ≡ data_text self.now) }
        ensures back { IfOk result (λ text. data_of_text (string_bytes text) ≡ Some self.now) }
        ensures memory { OnlyMemory result }
    {
        let bytes = self.bytes.as_slice();
        let mut text = String::new(alloc);
        for line in 0..bytes.len().div_ceil(BYTES_A_LINE) {
            if line > 0 {
                text.push('\n')?;
            }
            let start = line * BYTES_A_LINE;
            let end = bytes.len().min(start + BYTES_A_LINE);
            STANDARD.encode_string(&bytes[start..end], &mut text)?;
        }
        Ok(text)
    }

    /// Returns the bytes.
    pub fn as_ref(&self) -> &[u8]
        ensures { result.now ≡ self.now }
    {
        &self.bytes
    }

    /// Returns the bytes as a mutable slice.
    pub fn as_mut(&mut self) -> &mut [u8]
        ensures value { result.now ≡ self.old }
        ensures new_bytes { (new : List ℕ) → length new ≡ length self.old → IsAllNew self.old new }
        ensures* writes_back { sem 𝓛 (LendsBytes self.entry result) }
    {
        self.bytes.as_mut_slice()
    }

    /// Returns the bytes without copying them.
    pub fn into_bytes(self) -> Vec<u8>
        ensures bytes { result.items ≡ self }
    {
        self.bytes
    }

    /// Copies the data.
    ///
    /// # Errors
    ///
    /// [`ErrorKind::OutOfMemory`](crate::ErrorKind::OutOfMemory), without an offset, if an
    /// allocation fails.
    pub fn clone(&self) -> Result<Data, Error>
        ensures same { IfOk result (λ copy. copy ≡ self.now) }
        ensures memory { OnlyMemory result }
    {
        let bytes = self.bytes.clone()?;
        Ok(Data::new(bytes))
    }
}

// Returns the bytes of a string without its ASCII white space.
#[tactic(auto, using(crate::proofs::DataLines::spelled))]
fn without_white_space(alloc: Global, text: &str) -> Result<Vec<u8>, AllocError>
    ensures bytes { IfOk result (λ bytes. bytes.items ≡ without_white text.now) }
    ensures spelled { (bytes : List ℕ) → IsBytes bytes → IsReadWhereSpelled text.now bytes }
{
    let mut bytes = Vec::new(alloc);
    bytes.extend_from_slice(text.as_bytes())?;
    bytes.retain(|byte| !byte.is_ascii_whitespace());
    Ok(bytes)
}

/// Makes data from bytes.
impl From<Vec<u8>> for Data {
    ghost from_gives = { λ bytes made. made ≡ bytes.items };

    fn from(bytes: Vec<u8>) -> Data {
        Self::new(bytes)
    }
}

/// Returns the bytes of the data.
impl From<Data> for Vec<u8> {
    ghost from_gives = { λ from bytes. bytes.items ≡ from };

    fn from(data: Data) -> Vec<u8> {
        data.into_bytes()
    }
}

/// Two values are equal if their bytes are.
impl PartialEq for Data {
    ghost eq = { pointwise nat_eq };

    ghost laws = { Prim.search (comparing, rules) };

    fn eq(&self, other: &Data) -> bool {
        self.bytes.as_slice() == other.bytes.as_slice()
    }
}

impl Eq for Data {
    ghost laws = { Prim.search (comparing, rules) };
}

/// Formats the bytes as a list of decimal numbers.
impl fmt::Debug for Data {
    fn fmt<W: fmt::Write>(&self, f: &mut fmt::Formatter<W>) -> fmt::Result {
        fmt::Debug::fmt(self.bytes.as_slice(), f)
    }
}

impl fmt::Display for InvalidXmlData {
    ghost output = { λ refusal. Some (refusal_text refusal) };

    fn fmt<W: fmt::Write>(&self, f: &mut fmt::Formatter<W>) -> fmt::Result {
        f.write_str(match self {
            InvalidXmlData::Decode(_) => "Invalid XML data",
            InvalidXmlData::OutOfMemory => "OutOfMemory",
        })
    }
}

impl std::error::Error for InvalidXmlData {}

impl From<AllocError> for InvalidXmlData {
    ghost from_gives = { λ _ refusal. refusal ≡ refusal_of_decoding NoMemory };

    fn from(_error: AllocError) -> InvalidXmlData {
        InvalidXmlData::OutOfMemory
    }
}

impl From<DecodeAllocError> for InvalidXmlData {
    ghost from_gives = { λ error refusal. refusal ≡ refusal_of_decoding error };

    fn from(error: DecodeAllocError) -> InvalidXmlData {
        match error {
            DecodeAllocError::DecodeError(fault) => InvalidXmlData::Decode(fault),
            DecodeAllocError::OutOfMemory => InvalidXmlData::OutOfMemory,
        }
    }
}
