//! Helpers that the examples share: files in hexadecimal, events as words, and devices that fail.
//!
//! Nothing here ends the process: if an example doesn't find what it expects, or a word or digits
//! can't be parsed, the error is a [`Wrong`], with which the test fails. If an allocation fails,
//! the error is `AllocError`, a [`Wrong`] (usually [`Wrong::OutOfMemory`]) or, in the `write` of a
//! [`Device`], an I/O error.
#![tactic(auto)]

mod device;
mod events;
mod files;
mod reads;
mod words;
mod wrong;

pub use device::{
    DEVICE_MESSAGE, Device, DeviceFault, Disk, READ_FAILURES, device_error, expect_failure,
    expect_io,
};
pub use events::{event_of, expect_answers, write_all};
pub use files::{bytes_of, file, file_of, file_of_object, front};
pub use reads::{By, expect_on_devices, expect_on_shrinking_devices, words_over};
pub use words::{add_words, word_of, words_of, words_of_events};
pub use wrong::{Wrong, expect_bytes, expect_ok, expect_same, expect_that, fail};
