//! Files of the binary format, which are written in hexadecimal.

use crate::wrong::{Wrong, fail};
use std::alloc::{AllocError, Global};

/// Returns the bytes that hexadecimal digits spell. Spaces between bytes are ignored.
pub fn bytes_of(alloc: Global, digits: &str) -> Result<Vec<u8>, Wrong> {
    let mut bytes = Vec::new(alloc);
    for word in digits.split(' ') {
        match hex::decode(alloc, word) {
            Ok(some) => bytes.extend_from_slice(some.as_slice())?,
            Err(error) => return fail(format!(in alloc; "{error:?} in {word}")),
        }
    }
    Ok(bytes)
}

/// Makes a file of the magic, `body` and a trailer. `body` consists of the objects and the offset
/// table. The widths are the numbers of bytes in an offset and in a reference. The numbers are the
/// number of objects, the index of the root, and the offset of the table.
pub fn file_of(
    alloc: Global,
    body: &[u8],
    widths: [u8; 2],
    numbers: [u64; 3],
) -> Result<Vec<u8>, AllocError> {
    let mut bytes = Vec::from_slice(alloc, b"bplist00")?;
    bytes.extend_from_slice(body)?;
    bytes.extend_from_slice(&[0; 6])?;
    bytes.extend_from_slice(&widths)?;
    for number in numbers {
        bytes.extend_from_slice(&number.to_be_bytes())?;
    }
    Ok(bytes)
}

/// Makes a file as [`file_of`] does, of objects and a table in hexadecimal.
pub fn file(
    alloc: Global,
    body: &str,
    widths: [u8; 2],
    numbers: [u64; 3],
) -> Result<Vec<u8>, Wrong> {
    Ok(file_of(alloc, bytes_of(alloc, body)?.as_slice(), widths, numbers)?)
}

/// Makes a file of one object in hexadecimal. Both widths are one byte.
pub fn file_of_object(alloc: Global, object: &str) -> Result<Vec<u8>, Wrong> {
    let mut body = bytes_of(alloc, object)?;
    let table = 8 + body.len() as u64;
    body.extend_from_slice(&[8])?;
    Ok(file_of(alloc, body.as_slice(), [1, 1], [1, 0, table])?)
}

/// Returns the first `count` bytes, or all if there are fewer.
pub fn front(bytes: &[u8], count: usize) -> &[u8] {
    &bytes[..bytes.len().min(count)]
}
