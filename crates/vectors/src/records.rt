// Lines with records: a path is looked up in both readings.
use crate::report::{Hex, Shown, in_both_readings};
use crate::text;
use std::fmt;
use std::fmt::Write;
use tlv::{Found, Halt, Reading, get_data_object, value};

// Prints where a lookup ended, and how many tags of the path matched; if a value was found, its length and its bytes.
pub(crate) fn show_lookup(
    shown: &mut Shown<'_>,
    lookup: Result<Found, Halt>,
    value: &[u8],
) -> fmt::Result {
    match lookup {
        Err(halt) => write!(
            shown,
            "refusal {} at {} matched {}",
            halt.stop.number(),
            halt.place,
            halt.matched
        ),
        Ok(found) => {
            write!(
                shown,
                "at {} length {} matched {}",
                found.at, found.len, found.matched
            )?;
            if value.is_empty() {
                return Ok(());
            }
            write!(shown, " {}", Hex(value))
        }
    }
}

// Prints what a lookup finds.
fn show(shown: &mut Shown<'_>, reading: Reading, record: &[u8], path: &[u32]) -> fmt::Result {
    let lookup = get_data_object(reading, record, path);
    show_lookup(shown, lookup, value(reading, record, path))
}

// A line: record; name; bytes; path; expected; expected by the standard.
pub(crate) fn run(line: &[u8]) -> fmt::Result {
    let mut space = [0u8; 600];
    let record = text::bytes(text::field(line, 2), &mut space);
    let mut tags = [0u32; 8];
    let path = text::path(text::field(line, 3), &mut tags);
    in_both_readings(
        line,
        4,
        Reading::Crate,
        Reading::Standard,
        |shown, reading| show(shown, reading, record, path),
    )
}
