// An owned copy of a command and its extension: its numbers by value, its data in a room that the caller lends.
// Rules 2.9 and 2.10.
// Ported, with changes, from src/command.rs of the crate iso7816 0.2.2 (see NOTICE).
ghost use Rattle.std.specs.Prelude.{◌≡◌, true};
ghost use Rattle.command.specs.Owned.{taken_of, FromIs, refused_extension, OwnedIs, ExtendFromCommandViewIs};

use crate::CommandView;
use basis::Refusal;
use class::{Class, Reading};

// An owned command: its numbers, and how many bytes of data stand at the beginning of its room.
#[derive(Clone, Copy)]
pub struct Command {
    pub class: Class,
    pub instruction: u8,
    pub p1: u8,
    pub p2: u8,
    pub len: usize,
    pub le: usize,
    pub extended: bool,
}

// The answer, 18 if held and new data together exceed the room (rule 1.18), and the command: its header, expected
// length and flag are the new ones, also with a refusal (rule 1.26).
// Stays: a refusal has a command too, which the promise ExtendFromCommandViewIs names.
#[derive(Clone, Copy)]
pub struct Extended {
    pub answer: Result<(), Refusal>,
    pub command: Command,
}

impl From<CommandView> for Command {
    ghost from_gives = { λ view made. FromIs view made };

    // The numbers of a command without the place of its data.
    fn from(view: CommandView) -> Command {
        Command {
            class: view.class,
            instruction: view.instruction,
            p1: view.p1,
            p2: view.p2,
            len: view.len,
            le: view.le,
            extended: view.extended,
        }
    }
}

impl Command {
    // Reads a command and copies its data to the beginning of a room. Bytes past them stay (rule 2.9). It is refused as
    // reading refuses it, then with 2 if the data are longer than the room (rules 1.2 and 1.23).
    #[tactic(auto, using(crate::proofs::Parsing::within))]
    pub fn try_from(reading: Reading, apdu: &[u8], room: &mut [u8]) -> Result<Command, Refusal>
        ensures { OwnedIs reading apdu.now room.old result room.new }
    {
        let view = CommandView::try_from(reading, apdu)?;
        if room.len() < view.len {
            return Err(Refusal::CopyTooLong);
        }
        let end = view.at + view.len;
        room[..view.len].copy_from_slice(&apdu[view.at..end]);
        Ok(view.into())
    }

    // Takes the header and expected length of the next command, sets the flag, and puts its data after those held.
    // Bytes past them stay (rule 2.10).
    pub fn extend_from_command_view(
        self,
        view: CommandView,
        data: &[u8],
        room: &mut [u8],
    ) -> Extended
        ensures { ExtendFromCommandViewIs self view «data».now room.old result room.new }
    {
        let held = self.len;
        let n = data.len();
        if room.len() < held || room.len() - held < n {
            return refused_extension(view, held);
        }
        room[held..held + n].copy_from_slice(data);
        Extended {
            answer: Ok(()),
            command: taken(view, held + n),
        }
    }
}

// The header and expected length of a view, with this many data bytes and the flag set.
fn taken(view: CommandView, len: usize) -> Command
    ensures { result ≡ taken_of view len true }
{
    Command {
        len,
        extended: true,
        ..Command::from(view)
    }
}

// The new data do not fit: header, expected length and flag are the new ones, the held data stay (rule 1.26).
fn refused_extension(view: CommandView, held: usize) -> Extended
    ensures { result ≡ refused_extension view held }
{
    Extended {
        answer: Err(Refusal::RoomExceeded),
        command: taken(view, held),
    }
}
