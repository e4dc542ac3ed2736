// Lines with indexes: the index of a record, the form of a file, and lookups through either (rules 17.1 to 17.10).
use crate::records::show_lookup;
use crate::report::{Hex, Shown};
use crate::text;
use std::fmt;
use std::fmt::Write;
use tlv_index::{build_index, check_index, get_indexed};

// Prints how many entries a file has.
fn show_form(shown: &mut Shown<'_>, file: &[u8]) -> fmt::Result {
    match check_index(file) {
        Err(refusal) => write!(shown, "refusal {}", refusal.number()),
        Ok(n) => write!(shown, "entries {n}"),
    }
}

// Prints the index of a record, built into a buffer: the bytes of its file, or how many entries it has if they are more
// than 100.
fn show_index(shown: &mut Shown<'_>, record: &[u8], buffer: &mut [u8]) -> fmt::Result {
    match build_index(record, buffer, 0) {
        Err(refusal) => write!(shown, "refusal {}", refusal.number()),
        Ok(n) => {
            let file = buffer.get(..n).unwrap_or(&[]);
            if file.len() <= 100 {
                return write!(shown, "{}", Hex(file));
            }
            show_form(shown, file)
        }
    }
}

// A line: index; name; record; length of the buffer; expected.
pub(crate) fn index(line: &[u8]) -> fmt::Result {
    let mut space = io::large_buffer();
    let record = text::long_bytes(text::field(line, 2), &mut space);
    let mut buffer = [0u8; 2000];
    let [len] = text::numbers::<1>(text::field(line, 3));
    let len = (len as usize).min(2000);
    let mut shown = Shown::start(text::field(line, 1), ": expected ", text::field(line, 4));
    show_index(&mut shown, record, &mut buffer[..len])?;
    shown.verdict()
}

// A line: file; name; file; expected.
pub(crate) fn file(line: &[u8]) -> fmt::Result {
    let mut space = [0u8; 2000];
    let file = text::long_bytes(text::field(line, 2), &mut space);
    let mut shown = Shown::start(text::field(line, 1), ": expected ", text::field(line, 3));
    show_form(&mut shown, file)?;
    shown.verdict()
}

// The value at a place of a record; no bytes if it lies outside.
fn value<'a>(record: &'a [u8], at: usize, len: usize) -> &'a [u8] {
    record.get(at..).unwrap_or(&[]).get(..len).unwrap_or(&[])
}

// Looks up the path of a line in its record, through a file, and prints what is found.
fn look_up(shown: &mut Shown<'_>, line: &[u8], file: &[u8]) -> fmt::Result {
    let mut space = io::large_buffer();
    let record = text::long_bytes(text::field(line, 3), &mut space);
    let mut tags = [0u32; 8];
    let path = text::path(text::field(line, 4), &mut tags);
    match get_indexed(file, record, path) {
        Err(refusal) => write!(shown, "refusal {}", refusal.number()),
        Ok(Err(halt)) => show_lookup(shown, Err(halt), &[]),
        Ok(Ok(found)) => show_lookup(shown, Ok(found), value(record, found.at, found.len)),
    }
}

// A line: built; name; record that the index is built from; record; path; expected.
pub(crate) fn built(line: &[u8]) -> fmt::Result {
    let mut space = io::large_buffer();
    let record = text::long_bytes(text::field(line, 2), &mut space);
    let mut buffer = [0u8; 2000];
    let mut shown = Shown::start(text::field(line, 1), ": expected ", text::field(line, 5));
    match build_index(record, &mut buffer, 0) {
        Err(refusal) => write!(shown, "refusal {}", refusal.number())?,
        Ok(n) => look_up(&mut shown, line, buffer.get(..n).unwrap_or(&[]))?,
    }
    shown.verdict()
}

// A line: given; name; file; record; path; expected.
pub(crate) fn given(line: &[u8]) -> fmt::Result {
    let mut space = [0u8; 2000];
    let file = text::long_bytes(text::field(line, 2), &mut space);
    let mut shown = Shown::start(text::field(line, 1), ": expected ", text::field(line, 5));
    look_up(&mut shown, line, file)?;
    shown.verdict()
}
