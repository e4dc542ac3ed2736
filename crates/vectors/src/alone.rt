// Lines with a tag or a length that is read alone, in both readings (rules 6.8 and 16.5).
use crate::report::{Shown, in_both_readings};
use crate::text;
use std::fmt;
use std::fmt::Write;
use tlv::{Reading, take_len, take_tag};

// Prints the tag that some bytes start with.
fn show_tag(shown: &mut Shown<'_>, reading: Reading, bytes: &[u8]) -> fmt::Result {
    match take_tag(reading, bytes) {
        Err(stop) => write!(shown, "refusal {}", stop.number()),
        Ok(tag) => write!(shown, "tag {} bytes {}", tag.number, tag.size),
    }
}

// Prints the length that some bytes start with.
fn show_len(shown: &mut Shown<'_>, reading: Reading, bytes: &[u8]) -> fmt::Result {
    match take_len(reading, bytes) {
        Err(stop) => write!(shown, "refusal {}", stop.number()),
        Ok(len) => write!(shown, "length {} bytes {}", len.number, len.size),
    }
}

// Runs a line with bytes, of which this is shown in a reading.
fn run<F>(line: &[u8], show: F) -> fmt::Result
where
    F: Fn(&mut Shown<'_>, Reading, &[u8]) -> fmt::Result,
    requires { F.IsAlwaysCallable show }
{
    let mut space = [0u8; 600];
    let bytes = text::bytes(text::field(line, 2), &mut space);
    in_both_readings(
        line,
        3,
        Reading::Crate,
        Reading::Standard,
        |shown, reading| show(shown, reading, bytes),
    )
}

// A line: tag; name; bytes; expected; expected by the standard.
pub(crate) fn tag(line: &[u8]) -> fmt::Result {
    run(line, show_tag)
}

// A line: length; name; bytes; expected; expected by the standard.
pub(crate) fn length(line: &[u8]) -> fmt::Result {
    run(line, show_len)
}
