// Collecting what a card answers to a command: what to send next after each response, until none is asked for. The data
// of all responses stand in a room that the caller lends (rules 14.1 to 14.8).
#![tactic(auto)]

ghost use Rattle.std.specs.Prelude.{◌≡◌};
ghost use Rattle.basis.specs.Refusal.{as_option};
ghost use Rattle.collect.specs.Collect.{expected_by, get_response, with_le, builder_of, again, next_of};
ghost use Rattle.collect.specs.Collect.{StartIs, StepIs, WriteIs, CollectedIs};

use basis::Refusal;
use builder::{CommandBuilder, ExpectedLen, ExtendedLen};
use byte_slices::part;
use class::Class;
use response::{Response, Status};

// What was sent last: the command, whose data the caller keeps, or GET RESPONSE, which has none.
#[derive(Clone, Copy)]
pub enum Sent {
    Command(CommandBuilder),
    GetResponse(CommandBuilder),
}

// The state of a collection: what was sent last or is to be sent now, and how many bytes of the room are held.
#[derive(Clone, Copy)]
pub struct Collection {
    pub sent: Sent,
    pub len: usize,
}

// The answer to a response that is not refused. Send: what this state says is to be sent next. Done: nothing more is to
// be sent; this is the whole response, and its data are at the room's beginning.
#[derive(Clone, Copy)]
pub enum Step {
    Send(Collection),
    Done(Response),
}

// The expected length xx of a status 61xx or 6Cxx: 00 means 256 (rules 14.2 and 14.3).
fn expected(xx: u8) -> ExpectedLen
    ensures { result ≡ expected_by xx }
{
    match xx {
        0 => ExpectedLen::Ne(256),
        _ => ExpectedLen::Ne(u16::from(xx)),
    }
}

// GET RESPONSE for xx bytes, of this class, always with short lengths (rule 14.2).
fn get_response(class: Class, xx: u8) -> CommandBuilder
    ensures { result ≡ get_response class xx }
{
    CommandBuilder {
        class,
        instruction: 0xC0,
        p1: 0,
        p2: 0,
        le: expected(xx),
        mode: ExtendedLen::Unsupported,
    }
}

// A builder with Le xx, and nothing else changed (rule 14.3).
fn with_le(builder: CommandBuilder, xx: u8) -> CommandBuilder
    ensures { result ≡ with_le builder xx }
{
    CommandBuilder {
        le: expected(xx),
        ..builder
    }
}

// The builder of what was sent.
fn builder_of(sent: Sent) -> CommandBuilder
    ensures { result ≡ builder_of sent }
{
    match sent {
        Sent::Command(builder) | Sent::GetResponse(builder) => builder,
    }
}

// What was sent, with Le xx (rule 14.3).
fn again(sent: Sent, xx: u8) -> Sent
    ensures { result ≡ again sent xx }
{
    match sent {
        Sent::Command(builder) => Sent::Command(with_le(builder, xx)),
        Sent::GetResponse(builder) => Sent::GetResponse(with_le(builder, xx)),
    }
}

// What a status calls for: 61xx for GET RESPONSE with the command's class, 6Cxx for what was sent last again, any other
// for nothing (rules 14.2 to 14.4).
#[tactic(auto, unfolding(crate::specs::Collect::next_of))]
fn called_for(sent: Sent, status: Status) -> Option<Sent>
    ensures { as_option result ≡ next_of sent status }
{
    match status.sw1 {
        0x61 => Some(Sent::GetResponse(get_response(builder_of(sent).class, status.sw2))),
        0x6C => Some(again(sent, status.sw2)),
        _ => None,
    }
}

impl Collection {
    // The state after a command was sent: no byte is held (rule 14.1).
    pub fn start(command: CommandBuilder) -> Collection
        ensures { StartIs command result }
    {
        Collection {
            sent: Sent::Command(command),
            len: 0,
        }
    }

    // Takes a response: its data go into the room behind those held, whatever its status is, and the status says what
    // to send next (rules 14.2 to 14.6). Refused with 22 or 23; the state stays then.
    #[tactic(auto, unfolding(crate::specs::Collect::step_of, crate::specs::Collect::step_room))]
    pub fn step(self, response: &[u8], room: &mut [u8]) -> Result<Step, Refusal>
        ensures { StepIs self response.now room.old result room.new }
    {
        let so_far = response::append(response, self.len, room)?;
        match called_for(self.sent, so_far.status) {
            None => Ok(Step::Done(so_far)),
            Some(sent) => Ok(Step::Send(Collection {
                sent,
                len: so_far.len,
            })),
        }
    }

    // Writes what is to be sent into a buffer from a place: the command with its data, or GET RESPONSE without any.
    // Refused with 13 and 16 as every builder (rule 14.7).
    pub fn write(self, data: &[u8], buffer: &mut [u8], at: usize) -> Result<usize, Refusal>
        ensures { WriteIs self «data».now buffer.old at result buffer.new }
    {
        match self.sent {
            Sent::Command(builder) => builder.serialize_into(data, buffer, at),
            Sent::GetResponse(builder) => builder.serialize_into(&[], buffer, at),
        }
    }
}

// The data of a whole response: the front of the room, as long as the response says (rule 14.8).
pub fn collected<'a>(response: Response, room: &'a [u8]) -> &'a [u8]
    ensures { CollectedIs response room.now result.now }
{
    part(room, 0, response.len)
}
