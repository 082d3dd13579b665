//! What a writer writes to devices that accept one byte per call, fail at each call in turn, or
//! accept nothing.

use plist::{Value, write_value};
use plist_base::{Error, Writer};
use plist_binwrite::{FileWriter, Sharing};
use plist_support::{
    Device, DeviceFault, Wrong, event_of, expect_answers, expect_bytes, expect_failure, expect_io,
    expect_ok, expect_that, front, write_all,
};
use std::alloc::Global;
use std::io::ErrorKind;

// How something is written: event by event, by `write_value`, or by `to_writer_binary`.
#[derive(Clone, Copy)]
pub(crate) enum Way {
    Events,
    Handed,
    Whole,
}

// What is written, as words and as a value, with the file that it must become, the fault of the
// device, and the ways in which it is written.
#[derive(Clone, Copy)]
pub(crate) struct Sending<'a> {
    pub words: &'a str,
    pub value: &'a Value,
    pub bytes: &'a [u8],
    pub fault: DeviceFault,
    pub ways: &'a [Way],
}

// The number of bytes that a writer buffers before it calls the device.
const ROOM: usize = 65_536;

// An event of each kind.
const LATER: &str = "[ { end true <00> date:0 1 real:00000000 'a' uid:1";

const ALL_REFUSED: &str = "WriterFailed; WriterFailed; WriterFailed; WriterFailed; WriterFailed; \
                           WriterFailed; WriterFailed; WriterFailed; WriterFailed; WriterFailed";

// Checks that after an error each event returns `WriterFailed`.
fn expect_ended<W: Writer>(
    alloc: Global,
    writer: &mut W,
    answer: Result<(), Error>,
) -> Result<Result<(), Error>, Wrong> {
    if answer.is_err() {
        expect_answers(alloc, writer, LATER, ALL_REFUSED)?;
    }
    Ok(answer)
}

// Returns the result of a writer for the last of these events. The others must be accepted. After
// an error each event must return `WriterFailed`.
fn last_answer<W: Writer>(
    alloc: Global,
    writer: &mut W,
    words: &str,
) -> Result<Result<(), Error>, Wrong> {
    let last = match words.rsplit_once(' ') {
        None => words,
        Some((before, last)) => {
            write_all(alloc, writer, before)?;
            last
        }
    };
    let event = event_of(alloc, last)?;
    let answer = writer.write(event);
    expect_ended(alloc, writer, answer)
}

// Returns the result of a writer to a device for the last of these events.
fn answer_to_last<S: Sharing>(
    alloc: Global,
    words: &str,
    device: &mut Device,
) -> Result<Result<(), Error>, Wrong> {
    let mut writer = FileWriter::<&mut Device, S>::new(alloc, device);
    let answer = last_answer(alloc, &mut writer, words);
    drop(writer);
    answer
}

// Returns the result of writing a value to a device.
fn answer_to_value<S: Sharing>(
    alloc: Global,
    value: &Value,
    device: &mut Device,
) -> Result<Result<(), Error>, Wrong> {
    let mut writer = FileWriter::<&mut Device, S>::new(alloc, device);
    let answer = write_value(alloc, value, &mut writer);
    let answer = expect_ended(alloc, &mut writer, answer);
    drop(writer);
    answer
}

// Returns the result of writing something to a device.
fn answer_by<S: Sharing>(
    alloc: Global,
    sending: Sending<'_>,
    way: Way,
    device: &mut Device,
) -> Result<Result<(), Error>, Wrong> {
    match way {
        Way::Events => answer_to_last::<S>(alloc, sending.words, device),
        Way::Handed => answer_to_value::<S>(alloc, sending.value, device),
        Way::Whole => Ok(sending.value.to_writer_binary(alloc, device)),
    }
}

// Checks that no call of the device is made before the last event.
fn expect_nothing_before_last<S: Sharing>(alloc: Global, words: &str) -> Result<(), Wrong> {
    let Some((before, _)) = words.rsplit_once(' ') else {
        return Ok(());
    };
    let mut device = Device::new(Vec::new(alloc), 0);
    let answer = answer_to_last::<S>(alloc, before, &mut device);
    let calls = device.calls;
    drop(device);
    expect_ok(alloc, answer?)?;
    expect_that(alloc, calls == 0, "nothing is sent before the last event")
}

// Checks that the result is the error of a device with this fault.
fn expect_failed(fault: DeviceFault, answer: Result<(), Error>) -> Result<(), Wrong> {
    match fault {
        DeviceFault::Fails(kind) => expect_io(answer, kind, None),
        _ => expect_failure(answer, ErrorKind::WriteZero, "write zero", None),
    }
}

// Checks that the file was written, a byte per call, followed by one flush.
fn expect_whole(alloc: Global, device: &Device, bytes: &[u8]) -> Result<(), Wrong> {
    expect_bytes(alloc, device.bytes.as_slice(), bytes)?;
    let calls = (bytes.len() as u64).saturating_add(1);
    let is_flushed = device.flushed == bytes.len() && device.calls == calls;
    expect_that(
        alloc,
        is_flushed,
        "a call for each byte, and one flush following them",
    )?;
    let is_at_once = device.longest == bytes.len() || bytes.len() > ROOM;
    expect_that(
        alloc,
        device.longest <= ROOM && is_at_once,
        "a file that the room holds is sent at once, and no more than it holds",
    )
}

// Checks that this many bytes of the file were written, and that the device wasn't called after it
// failed.
fn expect_cut(alloc: Global, device: &Device, bytes: &[u8], call: u64) -> Result<(), Wrong> {
    expect_bytes(alloc, device.bytes.as_slice(), front(bytes, call as usize))?;
    let is_last = device.failures == 1 && device.calls == call.saturating_add(1);
    expect_that(alloc, is_last, "one failure, at the last call")
}

// Checks that the result is `Io` if the device failed, and that the file was written if it didn't.
// Returns whether it failed.
fn expect_answer(
    alloc: Global,
    sending: Sending<'_>,
    device: &Device,
    answer: Result<(), Error>,
    call: u64,
) -> Result<bool, Wrong> {
    if device.failures == 0 {
        expect_ok(alloc, answer)?;
        expect_whole(alloc, device, sending.bytes)?;
        return Ok(false);
    }
    expect_failed(sending.fault, answer)?;
    expect_cut(alloc, device, sending.bytes, call)?;
    Ok(true)
}

// Writes to a device with the fault at this call. Returns whether that failed.
fn expect_by<S: Sharing>(
    alloc: Global,
    sending: Sending<'_>,
    way: Way,
    call: u64,
) -> Result<bool, Wrong> {
    let mut device = Device::with_fault(Vec::new(alloc), call, sending.fault);
    let answer = answer_by::<S>(alloc, sending, way, &mut device)?;
    expect_answer(alloc, sending, &device, answer, call)
}

// Checks that writing in each way fails at this call if `fails` is true, and succeeds otherwise.
fn expect_sent<S: Sharing>(
    alloc: Global,
    sending: Sending<'_>,
    call: u64,
    fails: bool,
) -> Result<(), Wrong> {
    for way in sending.ways {
        let failed = expect_by::<S>(alloc, sending, *way, call)?;
        expect_that(
            alloc,
            failed == fails,
            "it fails where a call does, and only there",
        )?;
    }
    Ok(())
}

// Returns whether the test makes this write fail. For a file of 200 bytes or more, at most three
// writes fail: that of the last byte, and those of the bytes at offsets 65,535 and 65,537, around
// the end of the first full buffer.
fn is_tried(call: u64, size: usize) -> bool {
    size < 200 || call.saturating_add(1) == size as u64 || call == 65_535 || call == 65_537
}

// Checks that the whole file is written to a device that accepts one byte per call, and that a
// prefix of it is written if a call fails. The flush is one more call.
pub(crate) fn expect_file_on_devices<S: Sharing>(
    alloc: Global,
    sending: Sending<'_>,
) -> Result<(), Wrong> {
    expect_nothing_before_last::<S>(alloc, sending.words)?;
    let flush = sending.bytes.len() as u64;
    for call in 0..flush {
        if is_tried(call, sending.bytes.len()) {
            expect_sent::<S>(alloc, sending, call, true)?;
        }
    }
    let flush_fails = matches!(sending.fault, DeviceFault::Fails(_));
    expect_sent::<S>(alloc, sending, flush, flush_fails)?;
    expect_sent::<S>(alloc, sending, flush.saturating_add(1), false)
}
