// What a host program calls for the data of a command, its owned copy and its extension (rule 12.6). Each function
// replies 0, or the number of a refusal. Numbers are written into the slice `out`.
#![tactic(auto)]

ghost use Rattle.std.specs.Prelude.{◌≡◌, ◌≤◌, length};
ghost use Rattle.basis.specs.Reply.{status, then};
ghost use Rattle.basis.specs.Refusal.{as_reply};
ghost use Rattle.command.specs.Command.{parse};
ghost use Rattle.command.specs.Owned.{owned_of};
ghost use Rattle.abi.specs.Answers.{too_short};
ghost use Rattle.abi.specs.Readings.{class_reading_by_number};
ghost use Rattle.command_owned_abi.specs.Copies.{DataCopied, OwnedCopied, Extends, Extended};

use abi::{
    class_reading_by_number, command_numbers, command_of_length, refusal_status, write_numbers,
};
use basis::Refusal;
use byte_slices::part;
use class::Reading;
use command::{Command, CommandView};

// Copies the data of a command to the beginning of `to`, and writes their length (rule 2.8).
#[unsafe(no_mangle)]
pub extern "C" fn gorvisclen_command_data(
    reading: u8,
    apdu: &[u8],
    to: &mut [u8],
    out: &mut [u64],
) -> u8
    ensures { DataCopied reading apdu.now to.old out.old result to.new out.new }
{
    match CommandView::try_from(class_reading_by_number(reading), apdu) {
        Ok(view) => abi::copy_bytes(part(apdu, view.at, view.len), to, out),
        Err(refusal) => refusal_status(refusal.number(), out.len(), 1),
    }
}

// The reply if `out` is too short for the numbers of an owned copy: what reading or copying refuses, else 16.
#[tactic(auto, unfolding(command::specs::Owned::owned_of))]
fn short_owned(reading: Reading, apdu: &[u8], room: usize) -> u8
    ensures { result ≡ status (too_short (then (parse reading apdu.now) (owned_of room))) }
{
    match CommandView::try_from(reading, apdu) {
        Ok(view) if room < view.len => Refusal::CopyTooLong.number(),
        Ok(_) => Refusal::DoesNotFit.number(),
        Err(refusal) => refusal_status(refusal.number(), 0, 7),
    }
}

#[tactic(auto, unfolding(abi::specs::Commands::command_numbers), using(crate::proofs::LentSlices::owned_short, crate::proofs::LentSlices::owned_refused, crate::proofs::LentSlices::owned_row))]
// Copies the data to the beginning of the room, and writes the 7 numbers of the command (rule 2.9).
#[unsafe(no_mangle)]
pub extern "C" fn gorvisclen_command_owned(
    reading: u8,
    apdu: &[u8],
    room: &mut [u8],
    out: &mut [u64],
) -> u8
    ensures { OwnedCopied (class_reading_by_number reading) apdu.now room.old out.old result
        room.new out.new }
{
    let chosen = class_reading_by_number(reading);
    if out.len() < 7 {
        return short_owned(chosen, apdu, room.len());
    }
    match Command::try_from(chosen, apdu, room) {
        Ok(command) => write_numbers(&command_numbers(command), out),
        Err(refusal) => refusal.number(),
    }
}

// The reply of an extension: 0 or the refusal.
fn extending_number(answer: Result<(), Refusal>) -> u8
    ensures { result ≡ status (as_reply answer) }
{
    answer.err().map_or(0, |refusal| refusal.number())
}

// Extends a held command in the room, and writes its numbers, also if the data do not fit (rule 1.26).
#[tactic(auto, unfolding(abi::specs::Commands::command_numbers), using(crate::proofs::LentSlices::extends))]
fn extend(len: usize, room: &mut [u8], view: CommandView, part: &[u8], out: &mut [u64]) -> u8
    requires { 7 ≤ length out.old }
    ensures { Extends len view part.now room.old out.old result room.new out.new }
{
    let extended = command_of_length(len).extend_from_command_view(view, part, room);
    write_numbers(&command_numbers(extended.command), out);
    extending_number(extended.answer)
}

#[tactic(auto, using(abi::proofs::AnswerLaws::refusal_fitted))]
// Puts the data of a command after the held ones, and writes the 7 numbers of the extended command, also with 18
// (rules 1.26 and 2.10).
#[unsafe(no_mangle)]
pub extern "C" fn gorvisclen_command_extend(
    len: usize,
    room: &mut [u8],
    apdu: &[u8],
    out: &mut [u64],
) -> u8
    ensures { Extended len apdu.now room.old out.old result room.new out.new }
{
    match CommandView::try_from(Reading::Crate, apdu) {
        Ok(_) if out.len() < 7 => Refusal::DoesNotFit.number(),
        Ok(view) => extend(len, room, view, part(apdu, view.at, view.len), out),
        Err(refusal) => refusal_status(refusal.number(), out.len(), 7),
    }
}
