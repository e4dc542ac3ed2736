// Lines with calibration records: one that is read (rules 19.1 to 19.5), held against a date (rule 19.6), its due date
// shown (rules 19.7 and 19.8), and one that is written (rule 19.9).
use crate::report::{Hex, Shown};
use crate::text::Base;
use crate::{text, written};
use calibration::{Date, DueShownFrom};
use std::fmt;
use std::fmt::Write;

// Prints the fields of a record.
fn show_fields(shown: &mut Shown<'_>, record: &[u8]) -> fmt::Result {
    match calibration::read_profile(record) {
        Err(refusal) => write!(shown, "refusal {}", refusal.number()),
        Ok(profile) => {
            let serial = Hex(calibration::serial(record));
            let Date { year, month, day } = profile.due;
            let capacity = profile.capacity;
            write!(
                shown,
                "serial {serial} due {year}-{month}-{day} mg {capacity}"
            )
        }
    }
}

// Prints whether a calibration has lapsed on a date.
fn show_lapsed(shown: &mut Shown<'_>, record: &[u8], on: Date) -> fmt::Result {
    match calibration::has_lapsed(record, on) {
        Err(refusal) => write!(shown, "refusal {}", refusal.number()),
        Ok(true) => write!(shown, "lapsed"),
        Ok(false) => write!(shown, "not lapsed"),
    }
}

// Prints whose due date is shown, its place, and its bytes.
fn show_due(shown: &mut Shown<'_>, card: &[u8], desk: &[u8]) -> fmt::Result {
    match calibration::due_shown_from(card, desk) {
        Ok(DueShownFrom::Card(place)) => write!(shown, "card at {place}")?,
        Ok(DueShownFrom::Desk(place)) => write!(shown, "desk at {place}")?,
        Err(refusal) => write!(shown, "refusal {}", refusal.number())?,
    }
    write!(shown, " {}", Hex(calibration::due_shown(card, desk)))
}

// A line: note; name; record; expected.
pub(crate) fn note(line: &[u8]) -> fmt::Result {
    let mut space = [0u8; 600];
    let record = text::bytes(text::field(line, 2), &mut space);
    let mut shown = Shown::start(text::field(line, 1), ": expected ", text::field(line, 3));
    show_fields(&mut shown, record)?;
    shown.verdict()
}

// A line: question; name; record; date; expected.
pub(crate) fn question(line: &[u8]) -> fmt::Result {
    let mut space = [0u8; 600];
    let record = text::bytes(text::field(line, 2), &mut space);
    let [year, month, day] = text::numbers::<3>(text::field(line, 3));
    let mut shown = Shown::start(text::field(line, 1), ": expected ", text::field(line, 4));
    show_lapsed(&mut shown, record, Date { year, month, day })?;
    shown.verdict()
}

// A line: holder; name; card's record; desk's record; expected.
pub(crate) fn holder(line: &[u8]) -> fmt::Result {
    let mut card_space = [0u8; 600];
    let card = text::bytes(text::field(line, 2), &mut card_space);
    let mut desk_space = [0u8; 600];
    let desk = text::bytes(text::field(line, 3), &mut desk_space);
    let mut shown = Shown::start(text::field(line, 1), ": expected ", text::field(line, 4));
    show_due(&mut shown, card, desk)?;
    shown.verdict()
}

// A line: assembled; name; serial; date, length of the buffer, place; capacity; expected.
pub(crate) fn assembled(line: &[u8]) -> fmt::Result {
    let mut space = [0u8; 600];
    let serial = text::bytes(text::field(line, 2), &mut space);
    let [year, month, day, len, place] = text::numbers::<5>(text::field(line, 3));
    let due = Date { year, month, day };
    let [capacity] = Base::Hexadecimal.numbers::<1>(text::field(line, 4));
    let mut buffer = [0xEEu8; 36];
    let len = len as usize;
    let end = len.min(36);
    let to = &mut buffer[..end];
    let put = calibration::put_profile(serial, due, capacity, to, place as usize);
    let mut shown = Shown::start(text::field(line, 1), ": expected ", text::field(line, 5));
    written::show(&mut shown, put, &buffer, len)?;
    shown.verdict()
}
