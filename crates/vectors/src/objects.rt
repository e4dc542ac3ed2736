// Lines with objects: the object at a place of a record is read in both readings.
use crate::report::{Shown, in_both_readings};
use crate::text;
use std::fmt;
use std::fmt::Write;
use tlv::{Reading, take_data_object};

// Prints what is read at a place.
fn show(shown: &mut Shown<'_>, reading: Reading, record: &[u8], place: usize) -> fmt::Result {
    match take_data_object(reading, record, place) {
        Err(halt) => write!(shown, "refusal {} at {}", halt.stop.number(), halt.place),
        Ok(object) => write!(
            shown,
            "at {} tag {} value at {} length {}",
            object.place, object.tag, object.at, object.len
        ),
    }
}

// A line: object; name; bytes; place; expected; expected by the standard.
pub(crate) fn run(line: &[u8]) -> fmt::Result {
    let mut space = [0u8; 600];
    let record = text::bytes(text::field(line, 2), &mut space);
    let [place] = text::numbers::<1>(text::field(line, 3));
    let place = place as usize;
    in_both_readings(
        line,
        4,
        Reading::Crate,
        Reading::Standard,
        |shown, reading| show(shown, reading, record, place),
    )
}
