// Lines with exchanges: a command and the responses to it, collected in a room of 8 bytes of EE or fewer (rules 14.1 to
// 14.8).
use crate::report::{Hex, Shown};
use crate::text;
use basis::Refusal;
use builder::{CommandBuilder, ExpectedLen, ExtendedLen};
use class::Reading;
use collect::{Collection, Step};
use command::CommandView;
use std::fmt;
use std::fmt::Write;

// Prints what is to be sent next.
fn show_sent(shown: &mut Shown<'_>, collection: Collection, data: &[u8]) -> fmt::Result {
    let mut buffer = [0u8; 261];
    match collection.write(data, &mut buffer, 0) {
        Err(refusal) => write!(shown, "refusal {}", refusal.number()),
        Ok(n) => write!(shown, "{}", Hex(buffer.get(..n).unwrap_or(&[]))),
    }
}

// Takes the responses, with commas between them, and prints what each comes to, with a comma after it.
fn show_steps(
    shown: &mut Shown<'_>,
    start: Collection,
    data: &[u8],
    responses: &[u8],
    room: &mut [u8],
) -> fmt::Result {
    let mut state = start;
    for response in responses.split_inclusive(|b| *b == b',') {
        let response = response.strip_suffix(b",").unwrap_or(response);
        let mut space = [0u8; 40];
        match state.step(text::bytes(response, &mut space), room) {
            Err(refusal) => write!(shown, "refusal {}", refusal.number())?,
            Ok(Step::Send(next)) => {
                state = next;
                show_sent(shown, state, data)?;
            }
            Ok(Step::Done(whole)) => {
                write!(shown, "done {:04x} with {}", whole.status.word(), whole.len)?;
            }
        }
        write!(shown, ", ")?;
    }
    Ok(())
}

// The exchange that a command begins, with extended lengths if they are needed. Its own Le is never sent here.
fn begin(apdu: &[u8]) -> Result<Collection, Refusal> {
    let view = CommandView::try_from(Reading::Crate, apdu)?;
    let command = CommandBuilder::new(
        view.class.into_inner(),
        view.instruction,
        view.p1,
        view.p2,
        command::data(Reading::Crate, apdu),
        ExpectedLen::Ne((view.le % 0x10000) as u16),
        ExtendedLen::Supported,
    )?;
    Ok(Collection::start(command))
}

// Prints the steps of an exchange, and the room after them.
fn show(shown: &mut Shown<'_>, apdu: &[u8], responses: &[u8], room: &mut [u8]) -> fmt::Result {
    match begin(apdu) {
        Err(refusal) => write!(shown, "refusal {}", refusal.number()),
        Ok(start) => {
            let data = command::data(Reading::Crate, apdu);
            show_steps(shown, start, data, responses, room)?;
            write!(shown, "room {}", Hex(room))
        }
    }
}

// A line: exchange; name; command; length of the room; responses; expected.
pub(crate) fn run(line: &[u8]) -> fmt::Result {
    let mut space = [0u8; 600];
    let apdu = text::bytes(text::field(line, 2), &mut space);
    let mut room = [0xEEu8; 8];
    let [len] = text::numbers::<1>(text::field(line, 3));
    let len = (len as usize).min(8);
    let mut shown = Shown::start(text::field(line, 1), ": expected ", text::field(line, 5));
    show(&mut shown, apdu, text::field(line, 4), &mut room[..len])?;
    shown.verdict()
}
