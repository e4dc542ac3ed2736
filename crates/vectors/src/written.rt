// Lines with what is written into a buffer of 16 bytes of EE or fewer: commands (rules 3.3 to 3.9) and objects (rules
// 7.1 to 7.3).
use crate::report::{Hex, Shown};
use crate::text;
use abi::builder_by_numbers;
use basis::Refusal;
use std::fmt;
use std::fmt::Write;
use tlv_write::put_data_object;

// Writes the command 00A40400 with these data into a buffer from a place on, and returns its length.
fn write_command(
    mode: u32,
    le: u32,
    data: &[u8],
    buffer: &mut [u8],
    place: usize,
) -> Result<usize, Refusal> {
    let mode = (mode % 256) as u8;
    builder_by_numbers(0x00, 0xA4, 0x04, 0x00, le, mode, data)?.serialize_into(data, buffer, place)
}

// Prints the length of what was written into the first `len` bytes of a buffer, and these bytes.
pub(crate) fn show(
    shown: &mut Shown<'_>,
    written: Result<usize, Refusal>,
    buffer: &[u8],
    len: usize,
) -> fmt::Result {
    match written {
        Err(refusal) => write!(shown, "refusal {}", refusal.number())?,
        Ok(n) => write!(shown, "length {n}")?,
    }
    write!(shown, " in {}", Hex(buffer.get(..len).unwrap_or(&[])))
}

// A line: made; name; mode, Le, length of the buffer, place; data; expected.
pub(crate) fn command(line: &[u8]) -> fmt::Result {
    let [mode, le, len, place] = text::numbers::<4>(text::field(line, 2));
    let len = len as usize;
    let mut space = [0u8; 600];
    let data = text::bytes(text::field(line, 3), &mut space);
    let mut buffer = [0xEEu8; 16];
    let end = len.min(16);
    let written = write_command(mode, le, data, &mut buffer[..end], place as usize);
    let mut shown = Shown::start(text::field(line, 1), ": expected ", text::field(line, 4));
    show(&mut shown, written, &buffer, len)?;
    shown.verdict()
}

// A line: value; name; length of the buffer, place; tag; value; expected.
pub(crate) fn object(line: &[u8]) -> fmt::Result {
    let [len, place] = text::numbers::<2>(text::field(line, 2));
    let len = len as usize;
    let mut tag = [0u8; 3];
    text::read(text::field(line, 3), &mut tag);
    let mut space = [0u8; 600];
    let value = text::bytes(text::field(line, 4), &mut space);
    let mut buffer = [0xEEu8; 16];
    let end = len.min(16);
    let written = put_data_object(tag, value, &mut buffer[..end], place as usize);
    let mut shown = Shown::start(text::field(line, 1), ": expected ", text::field(line, 5));
    show(&mut shown, written, &buffer, len)?;
    shown.verdict()
}
