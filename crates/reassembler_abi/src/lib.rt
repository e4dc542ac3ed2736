// What a host program calls to join pieces (rules 5.1 to 5.9). The state of a reassembler goes into a call and out of
// it as six numbers. Each function returns 0, or the number of a refusal (rules 1.1 to 1.21).
#![tactic(auto)]

ghost use Rattle.std.specs.Prelude.{◌≡◌, ◌++◌};
ghost use Rattle.basis.specs.Refusal as answers;
ghost use Rattle.basis.specs.Reply.{ok};
ghost use Rattle.reassembler.specs.Join.{as_reply, ClosedIs};
ghost use Rattle.abi.specs.Answers.{NumbersWritten};
ghost use Rattle.reassembler_abi.specs.Numbers.{state_by_numbers, open_chain_numbers, state_numbers, command_answer_numbers};
ghost use Rattle.reassembler_abi.specs.Numbers.{opened_number, join_reply, state_met, PieceJoined, ResetIs, JoinedData};

use abi::{command_numbers, command_of_length, refusal_status, usable_len, write_numbers};
use basis::Refusal;
use class::Class;
use command::Command;
use reassembler::{Joined, OpenChain, Reassembler};

// The state that six numbers stand for: no chain is open if `opened` is 0, whatever the others are. No chain has the
// class byte 0xFF: 3.
#[tactic(auto, unfolding(crate::specs::Numbers::state_by_numbers))]
fn state_by_numbers(
    opened: u8,
    class: u8,
    instruction: u8,
    p1: u8,
    p2: u8,
    held: usize,
) -> Result<Reassembler, Refusal>
    ensures { answers.as_reply result ≡ state_by_numbers opened class instruction p1 p2 held }
{
    if opened == 0 {
        return Ok(Reassembler::new());
    }
    let chain = OpenChain {
        class: Class::from_byte(class)?,
        instruction,
        p1,
        p2,
        len: held,
    };
    Ok(Reassembler { open: Some(chain) })
}

// The six numbers of an open chain.
#[tactic(auto, unfolding(crate::specs::Numbers::open_chain_numbers))]
fn open_chain_numbers(chain: OpenChain) -> [u64; 6]
    ensures { result ≡ open_chain_numbers chain }
{
    [
        1,
        chain.class.into_inner().into(),
        chain.instruction.into(),
        chain.p1.into(),
        chain.p2.into(),
        chain.len as u64,
    ]
}

// The six numbers of a state: zeros if no chain is open.
fn state_numbers(state: Reassembler) -> [u64; 6]
    ensures { result ≡ state_numbers state }
{
    match state.open {
        Some(chain) => open_chain_numbers(chain),
        None => [0; 6],
    }
}

// The eight numbers of an answer that is a command: 1, and the seven of the command.
#[tactic(auto, unfolding(crate::specs::Numbers::command_answer_numbers, abi::specs::Commands::command_numbers))]
fn command_answer_numbers(command: Command) -> [u64; 8]
    ensures { result ≡ command_answer_numbers command }
{
    let [class, instruction, p1, p2, len, le, extended] = command_numbers(command);
    [1, class, instruction, p1, p2, len, le, extended]
}

// Writes the row: the eight numbers of an answer, and the six of the state after them. 16 if the host lent fewer than
// 14.
fn write_row(answer: &[u64; 8], state: Reassembler, out: &mut [u64]) -> u8
    ensures { NumbersWritten 14 (ok (answer.now ++ state_numbers state)) out.old result out.new }
{
    if out.len() < 14 {
        return Refusal::DoesNotFit.number();
    }
    write_numbers(answer, out);
    write_numbers(&state_numbers(state), &mut out[8..])
}

// Writes the answer to a piece and the state after it.
fn write_joined(joined: Joined, out: &mut [u64]) -> u8
    ensures { NumbersWritten 14 (join_reply (as_reply joined.answer) joined.state) out.old result out.new }
{
    match joined.answer {
        Ok(None) => write_row(&[0; 8], joined.state, out),
        Ok(Some(command)) => write_row(&command_answer_numbers(command), joined.state, out),
        Err(refusal) => refusal_status(refusal.number(), out.len(), 14),
    }
}

// Joins a piece. Writes 14 numbers for the host: 1 and the seven of the command, or eight zeros for "more"; then the
// six of the state after the piece. A refusal writes no number and no byte of the room.
#[unsafe(no_mangle)]
pub extern "C" fn gorvisclen_join(
    opened: u8,
    class: u8,
    instruction: u8,
    p1: u8,
    p2: u8,
    held: usize,
    piece: &[u8],
    room: &mut [u8],
    out: &mut [u64],
) -> u8
    ensures { PieceJoined (state_met piece.now (state_by_numbers opened class instruction p1 p2 held)) piece.now
        room.old out.old result room.new out.new }
{
    if piece.len() < 4 {
        return Refusal::CommandTooShort.number();
    }
    match state_by_numbers(opened, class, instruction, p1, p2, held) {
        Ok(before) => {
            let end = usable_len(room.len(), out.len(), 14);
            write_joined(before.join(piece, &mut room[..end]), out)
        }
        Err(refusal) => refusal_status(refusal.number(), out.len(), 14),
    }
}

// The state after a reset: no chain is open, also if the numbers stood for no state.
fn state_after_reset(numbered: Result<Reassembler, Refusal>) -> Reassembler
    ensures { ClosedIs result }
{
    numbered.unwrap_or(Reassembler::new()).reset()
}

// The first number of a state: whether a chain is open.
fn opened_number(state: Reassembler) -> u8
    ensures { result ≡ opened_number state }
{
    state.open.is_some().into()
}

// Returns the first number of the state after a reset. It is 0 whatever the state was: no chain is open, and then no
// other number counts (rule 5.8).
#[unsafe(no_mangle)]
pub extern "C" fn gorvisclen_reset(
    opened: u8,
    class: u8,
    instruction: u8,
    p1: u8,
    p2: u8,
    held: usize,
) -> u8
    ensures { ResetIs opened class instruction p1 p2 held result }
{
    let before = state_by_numbers(opened, class, instruction, p1, p2, held);
    opened_number(state_after_reset(before))
}

// Copies the joined data from the front of the room to the front of `to`, and writes their length (rule 5.9).
#[unsafe(no_mangle)]
pub extern "C" fn gorvisclen_joined_data(
    len: usize,
    room: &[u8],
    to: &mut [u8],
    out: &mut [u64],
) -> u8
    ensures { JoinedData len room.now to.old out.old result to.new out.new }
{
    abi::copy_bytes(reassembler::data(command_of_length(len), room), to, out)
}
