// What a host program calls to collect a response (rules 14.1 to 14.8). The state of a collection goes into a call and
// out of it as eight numbers: kind (0 for the command, any other for GET RESPONSE), class, instruction, P1, P2,
// expected length, mode, and how many bytes are held. Each function returns 0, or the number of a refusal.
// Stays: a builder goes in as numbers, one by one, and what is replied goes out as numbers: the C interface.
#![tactic(auto)]

ghost use Rattle.std.specs.Prelude.{◌≤◌, ◌≡◌, length};
ghost use Rattle.basis.specs.Reply.{ok};
ghost use Rattle.abi.specs.Answers.{NumbersWritten};
ghost use Rattle.abi.specs.Serialized.{Serialized};
ghost use Rattle.collect.specs.Collect.{as_reply};
ghost use Rattle.collect_abi.specs.Numbers.{mode_number, builder_numbers, state_numbers, sending_numbers, start_reply};
ghost use Rattle.collect_abi.specs.Numbers.{data_by_kind, sent_by_kind, state_by_numbers};
ghost use Rattle.collect_abi.specs.Numbers.{stepped_reply, ResponseTaken, SentWritten, CollectedData};

use abi::{builder_by_numbers, expected_len_number, refusal_status, write_numbers};
use basis::Refusal;
use builder::{CommandBuilder, ExtendedLen};
use collect::{Collection, Sent, Step};
use response::{Response, Status};

// The number of a mode: 0 short only, 1 extended supported, 2 extended forced.
fn mode_number(mode: ExtendedLen) -> u64
    ensures { result ≡ mode_number mode }
{
    match mode {
        ExtendedLen::Unsupported => 0,
        ExtendedLen::Supported => 1,
        ExtendedLen::Forced => 2,
    }
}

// The eight numbers of a state: of this kind, with this builder and so many bytes held.
#[tactic(auto, unfolding(crate::specs::Numbers::builder_numbers))]
fn builder_numbers(kind: u64, builder: CommandBuilder, held: usize) -> [u64; 8]
    ensures { result ≡ builder_numbers kind builder held }
{
    [
        kind,
        u64::from(builder.class.into_inner()),
        u64::from(builder.instruction),
        u64::from(builder.p1),
        u64::from(builder.p2),
        expected_len_number(builder.le),
        mode_number(builder.mode),
        held as u64,
    ]
}

// The eight numbers of a state: kind 0 for the command, 1 for GET RESPONSE.
fn state_numbers(state: Collection) -> [u64; 8]
    ensures { result ≡ state_numbers state }
{
    match state.sent {
        Sent::Command(builder) => builder_numbers(0, builder, state.len),
        Sent::GetResponse(builder) => builder_numbers(1, builder, state.len),
    }
}

// Writes 8 numbers for the host: the state after this command was sent (rule 14.1). Refused with 3, 13 or 16.
#[tactic(auto, unfolding(crate::specs::Numbers::start_reply))]
#[unsafe(no_mangle)]
pub extern "C" fn gorvisclen_collect_start(
    class: u8,
    instruction: u8,
    p1: u8,
    p2: u8,
    le: u32,
    mode: u8,
    data: &[u8],
    out: &mut [u64],
) -> u8
    ensures { NumbersWritten 8 (start_reply class instruction p1 p2 le mode «data».now) out.old result
        out.new }
{
    match builder_by_numbers(class, instruction, p1, p2, le, mode, data) {
        Err(refusal) => refusal_status(refusal.number(), out.len(), 8),
        Ok(builder) => write_numbers(&state_numbers(Collection::start(builder)), out),
    }
}

// The data that are sent with this kind: a command's, and none with GET RESPONSE (rule 14.7).
fn data_by_kind<'a>(kind: u8, data: &'a [u8]) -> &'a [u8]
    ensures { result.now ≡ data_by_kind kind «data».now }
{
    if kind == 0 { data } else { &[] }
}

// What was sent, by its kind: 0 for the command, any other for GET RESPONSE.
fn sent_by_kind(kind: u8, builder: CommandBuilder) -> Sent
    ensures { result ≡ sent_by_kind kind builder }
{
    match kind {
        0 => Sent::Command(builder),
        _ => Sent::GetResponse(builder),
    }
}

// The twelve numbers of an answer that goes on: four zeros, and the eight of the state.
#[tactic(auto, using(crate::proofs::LentSlices::sending_row))]
fn sending_numbers(state: Collection) -> [u64; 12]
    ensures { result ≡ sending_numbers state }
{
    let [kind, class, instruction, p1, p2, le, mode, held] = state_numbers(state);
    [0, 0, 0, 0, kind, class, instruction, p1, p2, le, mode, held]
}

// Writes the answer to a response: the end and eight zeros, or the state with what is to be sent next.
fn write_step(answer: Result<Step, Refusal>, out: &mut [u64]) -> u8
    ensures { NumbersWritten 12 (stepped_reply (as_reply answer)) out.old result out.new }
{
    match answer {
        Err(refusal) => refusal_status(refusal.number(), out.len(), 12),
        Ok(Step::Send(state)) => write_numbers(&sending_numbers(state), out),
        Ok(Step::Done(whole)) => {
            let row = [
                1,
                u64::from(whole.status.sw1),
                u64::from(whole.status.sw2),
                whole.len as u64,
                0,
                0,
                0,
                0,
                0,
                0,
                0,
                0,
            ];
            write_numbers(&row, out)
        }
    }
}

// Takes a response (rules 14.2 to 14.6). Writes 12 numbers for the host: 1, SW1, SW2 and the length if it is the end,
// else four zeros; then the eight of the state with what is to be sent next, zeros at the end. Refused with 3, 16, 22
// or 23: it writes no number and no byte of the room.
#[unsafe(no_mangle)]
pub extern "C" fn gorvisclen_collect_step(
    kind: u8,
    class: u8,
    instruction: u8,
    p1: u8,
    p2: u8,
    le: u32,
    mode: u8,
    held: usize,
    response: &[u8],
    room: &mut [u8],
    out: &mut [u64],
) -> u8
    ensures { ResponseTaken (state_by_numbers kind class instruction p1 p2 le mode held) response.now
        room.old out.old result room.new out.new }
{
    match builder_by_numbers(class, instruction, p1, p2, le, mode, &[]) {
        Err(not_made) => refusal_status(not_made.number(), out.len(), 12),
        Ok(builder) => {
            if out.len() < 12 {
                return Refusal::DoesNotFit.number();
            }
            let sent = sent_by_kind(kind, builder);
            let state = Collection { sent, len: held };
            let answer = state.step(response, room);
            write_step(answer, out)
        }
    }
}

// Writes what is to be sent into the buffer, and its length into a slice that has a place for it. How many bytes are
// held does not matter.
fn write_sent(
    kind: u8,
    builder: CommandBuilder,
    data: &[u8],
    buffer: &mut [u8],
    at: usize,
    out: &mut [u64],
) -> u8
    requires { 1 ≤ length out.old }
    ensures { Serialized (ok builder) (data_by_kind kind «data».now) at buffer.old out.old result
        buffer.new out.new }
{
    let to_send = sent_by_kind(kind, builder);
    let state = Collection {
        sent: to_send,
        len: 0,
    };
    match state.write(data, buffer, at) {
        Err(refusal) => refusal.number(),
        Ok(n) => {
            out[0] = n as u64;
            0
        }
    }
}

// Writes what is to be sent from a place of the buffer, and its length as one number for the host: the command with
// its data, or GET RESPONSE without any (rule 14.7). Refused with 3, 13 or 16.
#[unsafe(no_mangle)]
pub extern "C" fn gorvisclen_collect_write(
    kind: u8,
    class: u8,
    instruction: u8,
    p1: u8,
    p2: u8,
    le: u32,
    mode: u8,
    data: &[u8],
    buffer: &mut [u8],
    at: usize,
    out: &mut [u64],
) -> u8
    ensures { SentWritten kind class instruction p1 p2 le mode «data».now at buffer.old out.old result
        buffer.new out.new }
{
    let sent_data = data_by_kind(kind, data);
    match builder_by_numbers(class, instruction, p1, p2, le, mode, sent_data) {
        Err(refusal) => refusal_status(refusal.number(), out.len(), 1),
        Ok(builder) => {
            if out.len() < 1 {
                return Refusal::DoesNotFit.number();
            }
            write_sent(kind, builder, data, buffer, at, out)
        }
    }
}

// A response of which only the length of the data matters.
fn response_of_length(len: usize) -> Response
    ensures { result.len ≡ len }
{
    Response {
        len,
        status: Status { sw1: 0x90, sw2: 0 },
    }
}

// Copies the collected data from the front of the room to the front of `to`, and writes their length (rule 14.8).
#[unsafe(no_mangle)]
pub extern "C" fn gorvisclen_collected(
    len: usize,
    room: &[u8],
    to: &mut [u8],
    out: &mut [u64],
) -> u8
    ensures { CollectedData len room.now to.old out.old result to.new out.new }
{
    abi::copy_bytes(collect::collected(response_of_length(len), room), to, out)
}
