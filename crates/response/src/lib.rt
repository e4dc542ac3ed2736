// Responses, what a card says back: a response split into its data and its status (rules 13.1 and 13.2), and its data
// appended to a room that the caller lends (rule 13.6). status.rt says what a status means, words.rt names some.
#![tactic(auto)]

ghost use Rattle.response.specs.Response.{SplitIs, DataIs, Holds, AppendIs};

mod status;
mod words;

use basis::Refusal;
pub use status::{Status, StatusClass};

// A response as numbers: how many bytes of data it has, and its status.
#[derive(Clone, Copy)]
pub struct Response {
    pub len: usize,
    pub status: Status,
}

// Splits a response: all its bytes but the last two are data, the last two are SW1 and SW2 (rule 13.1).
#[tactic(auto, unfolding(crate::specs::Response::split_of, crate::specs::Response::status_of))]
pub fn split(response: &[u8]) -> Result<Response, Refusal>
    ensures { SplitIs response.now result }
{
    match response {
        [data @ .., sw1, sw2] => Ok(Response {
            len: data.len(),
            status: Status {
                sw1: *sw1,
                sw2: *sw2,
            },
        }),
        _ => Err(Refusal::ResponseTooShort),
    }
}

// The data of a response, as that very part of its bytes; no bytes if it is refused (rule 13.2).
#[tactic(auto, unfolding(crate::specs::Response::data_of))]
pub fn data<'a>(response: &'a [u8]) -> &'a [u8]
    ensures { DataIs response.now result.now }
{
    match response {
        [data @ .., _, _] => data,
        _ => &response[..0],
    }
}

// Puts data behind the bytes of a room that are held. The answer is the response so far: how many bytes are held now,
// and the status. 23 if they exceed the room: it stays as it was (rule 13.6).
#[tactic(auto, using(crate::proofs::Splitting::no_room, crate::proofs::Splitting::put_behind, basis::proofs::Over::copied_at))]
fn hold(status: Status, data: &[u8], held: usize, room: &mut [u8]) -> Result<Response, Refusal>
    ensures { Holds status «data».now held room.old result room.new }
{
    let n = data.len();
    if room.len() < held || room.len() - held < n {
        return Err(Refusal::ResponseRoomExceeded);
    }
    room[held..held + n].copy_from_slice(data);
    Ok(Response {
        len: held + n,
        status,
    })
}

// Appends the data of a response to a room, behind the bytes that are held: 22, then 23 (rule 13.6).
#[tactic(auto, using(crate::proofs::Splitting::unread))]
pub fn append(response: &[u8], held: usize, room: &mut [u8]) -> Result<Response, Refusal>
    ensures { AppendIs response.now held room.old result room.new }
{
    let new = split(response)?;
    hold(new.status, data(response), held, room)
}
