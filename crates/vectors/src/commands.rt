// Lines with commands: each is read in both readings.
use crate::report::{Shown, in_both_readings};
use crate::text;
use class::Reading;
use command::CommandView;
use std::fmt;
use std::fmt::Write;

// Prints what a command is read as: Lc, Le, and whether its lengths are extended.
fn show(shown: &mut Shown<'_>, reading: Reading, apdu: &[u8]) -> fmt::Result {
    match CommandView::try_from(reading, apdu) {
        Err(refusal) => write!(shown, "refusal {}", refusal.number()),
        Ok(view) => {
            let form = if view.extended { "extended" } else { "short" };
            write!(shown, "lc {} le {} {form}", view.len, view.le)
        }
    }
}

// A line: command; name; bytes; expected; expected by the standard.
pub(crate) fn run(line: &[u8]) -> fmt::Result {
    let mut space = [0u8; 600];
    let apdu = text::bytes(text::field(line, 2), &mut space);
    in_both_readings(
        line,
        3,
        Reading::Crate,
        Reading::Standard,
        |shown, reading| show(shown, reading, apdu),
    )
}
