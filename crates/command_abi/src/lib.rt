// What a host program calls to read a command: its numbers (rule 12.6). The function replies 0, or the number of a
// refusal, and writes the numbers into the slice `out` only if it replies 0.
#![tactic(auto)]

ghost use Rattle.abi.specs.Answers.{NumbersWritten};
ghost use Rattle.command_abi.specs.Numbers.{view_numbers, command_reply};
ghost use Rattle.std.specs.Prelude.{◌≡◌};

use abi::{class_reading_by_number, flag, refusal_status, write_numbers};
use command::CommandView;

// The row of numbers of a command that was read.
#[tactic(auto, unfolding(crate::specs::Numbers::view_numbers))]
fn view_numbers(view: CommandView) -> [u64; 8]
    ensures { result ≡ view_numbers view }
{
    [
        view.class.into_inner().into(),
        view.instruction.into(),
        view.p1.into(),
        view.p2.into(),
        view.at as u64,
        view.len as u64,
        view.le as u64,
        flag(view.extended),
    ]
}

#[tactic(auto, unfolding(crate::specs::Numbers::command_reply, crate::specs::Numbers::view_numbers), using(abi::proofs::AnswerLaws::refusal_written))]
// Writes 8 numbers for the host: class, instruction, P1, P2, place and length of the data, expected length, extended.
#[unsafe(no_mangle)]
pub extern "C" fn gorvisclen_command(reading: u8, apdu: &[u8], out: &mut [u64]) -> u8
    ensures { NumbersWritten 8 (command_reply reading apdu.now) out.old result out.new }
{
    match CommandView::try_from(class_reading_by_number(reading), apdu) {
        Ok(view) => write_numbers(&view_numbers(view), out),
        Err(refusal) => refusal_status(refusal.number(), out.len(), 8),
    }
}
