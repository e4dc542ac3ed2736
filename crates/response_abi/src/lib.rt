// What a host program calls of the crate `response`, in numbers (rules 13.1 to 13.6). Each function returns 0, or the
// number of a refusal (docs/RULES.md, section 1). It writes its numbers to the front of the slice `out`, unless it
// refuses.
#![tactic(auto)]

ghost use Rattle.std.specs.Prelude.{◌≡◌};
ghost use Rattle.abi.specs.Answers.{NumbersWritten, ReplyCopied};
ghost use Rattle.basis.specs.Refusal.{as_reply};
ghost use Rattle.response_abi.specs.Numbers.{response_numbers, response_reply, split_reply, data_reply, Appended};
ghost use Rattle.response_abi.specs.Numbers.{StatusIs, NameIs};

use abi::{copy_bytes, refusal_status, write_numbers};
use basis::Refusal;
use response::{Response, Status};

// The three numbers of a response: how many bytes of data it has, SW1, SW2.
#[tactic(auto, unfolding(crate::specs::Numbers::response_numbers))]
fn response_numbers(response: Response) -> [u64; 3]
    ensures { result ≡ response_numbers response }
{
    let Response { len, status } = response;
    [len as u64, status.sw1.into(), status.sw2.into()]
}

// Writes the three numbers of a response, unless it was refused.
#[tactic(auto, unfolding(crate::specs::Numbers::response_numbers), using(abi::proofs::AnswerLaws::refusal_written))]
fn write_answer(answer: Result<Response, Refusal>, out: &mut [u64]) -> u8
    ensures { NumbersWritten 3 (response_reply (as_reply answer)) out.old result out.new }
{
    match answer {
        Ok(response) => write_numbers(&response_numbers(response), out),
        Err(refusal) => refusal_status(refusal.number(), out.len(), 3),
    }
}

// Writes 3 numbers: how many bytes of the response are data, SW1, SW2 (rule 13.1). Refused with 16 or 22.
#[unsafe(no_mangle)]
pub extern "C" fn gorvisclen_response_split(response: &[u8], out: &mut [u64]) -> u8
    ensures { NumbersWritten 3 (split_reply response.now) out.old result out.new }
{
    write_answer(response::split(response), out)
}

// Copies the data of a response to the front of `to`, and writes how many bytes they are (rule 13.2). Refused with 16 or
// 22.
#[unsafe(no_mangle)]
pub extern "C" fn gorvisclen_response_data(response: &[u8], to: &mut [u8], out: &mut [u64]) -> u8
    ensures { ReplyCopied (data_reply response.now) to.old out.old result to.new out.new }
{
    match response::split(response) {
        Ok(_) => copy_bytes(response::data(response), to, out),
        Err(refusal) => refusal_status(refusal.number(), out.len(), 1),
    }
}

// Appends the data of a response to the room, behind the bytes that are held. Writes 3 numbers: how many bytes are held
// now, SW1, SW2 (rule 13.6). Refused with 16, 22 or 23.
#[tactic(auto, using(crate::proofs::LentSlices::too_short_lem))]
#[unsafe(no_mangle)]
pub extern "C" fn gorvisclen_response_append(
    response: &[u8],
    held: usize,
    room: &mut [u8],
    out: &mut [u64],
) -> u8
    ensures { Appended response.now held room.old out.old result room.new out.new }
{
    if out.len() < 3 {
        return 16;
    }
    write_answer(response::append(response, held, room), out)
}

// Writes 3 numbers: the word of a status, its class (rule 13.4), and its place in the table of the 21 listed words, 256
// if it is not listed (rule 13.5). Refused with 16.
#[tactic(auto, unfolding(crate::specs::Numbers::status_numbers))]
#[unsafe(no_mangle)]
pub extern "C" fn gorvisclen_status(sw1: u8, sw2: u8, out: &mut [u64]) -> u8
    ensures { StatusIs sw1 sw2 out.old result out.new }
{
    let status = Status { sw1, sw2 };
    let numbers = [
        status.word().into(),
        status.class() as u64,
        status.listed().map_or(256, |place| place as u64),
    ];
    write_numbers(&numbers, out)
}

// Copies the name of a status to the front of `to`, and writes how many bytes it has: none if it is not listed (rule
// 13.5). Refused with 16.
#[unsafe(no_mangle)]
pub extern "C" fn gorvisclen_status_name(sw1: u8, sw2: u8, to: &mut [u8], out: &mut [u64]) -> u8
    ensures { NameIs sw1 sw2 to.old out.old result to.new out.new }
{
    if out.len() < 1 {
        return 16;
    }
    let status = Status { sw1, sw2 };
    match status.name(to) {
        Ok(len) => write_numbers(&[len as u64], out),
        Err(refusal) => refusal.number(),
    }
}
