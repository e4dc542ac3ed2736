// Lines with responses: one that is split (rule 13.1), and the class and name of a status (rules 13.4 and 13.5).
use crate::report::{Hex, Shown};
use crate::text;
use response::{Status, StatusClass};
use std::fmt;
use std::fmt::Write;

// Prints the data and the status of a response.
fn show_split(shown: &mut Shown<'_>, response: &[u8]) -> fmt::Result {
    match response::split(response) {
        Err(refusal) => write!(shown, "refusal {}", refusal.number()),
        Ok(parts) => {
            let data = Hex(response::data(response));
            write!(shown, "data {data} status {:04x}", parts.status.word())
        }
    }
}

// The words of a class.
fn class_words(class: StatusClass) -> &'static str {
    match class {
        StatusClass::Normal => "normal",
        StatusClass::Warning => "warning",
        StatusClass::ExecutionError => "execution error",
        StatusClass::CheckingError => "checking error",
        StatusClass::Unknown => "unknown",
    }
}

// Prints the class of a status, and its name if it has one.
fn show_status(shown: &mut Shown<'_>, status: Status) -> fmt::Result {
    write!(shown, "{}", class_words(status.class()))?;
    let mut letters = [0u8; 32];
    match status.name(&mut letters) {
        Err(refusal) => write!(shown, " refusal {}", refusal.number()),
        Ok(0) => Ok(()),
        Ok(n) => {
            write!(shown, " ")?;
            shown.print(letters.get(..n).unwrap_or(&[]));
            Ok(())
        }
    }
}

// A line: split; name; bytes; expected.
pub(crate) fn split(line: &[u8]) -> fmt::Result {
    let mut space = [0u8; 600];
    let response = text::bytes(text::field(line, 2), &mut space);
    let mut shown = Shown::start(text::field(line, 1), ": expected ", text::field(line, 3));
    show_split(&mut shown, response)?;
    shown.verdict()
}

// A line: word; the bytes of a status; expected.
pub(crate) fn status(line: &[u8]) -> fmt::Result {
    let name = text::field(line, 1);
    let mut bytes = [0u8; 2];
    text::read(name, &mut bytes);
    let [sw1, sw2] = bytes;
    let mut shown = Shown::start(name, ": expected ", text::field(line, 2));
    show_status(&mut shown, Status { sw1, sw2 })?;
    shown.verdict()
}
