// The reassembler: joins the pieces of a chain to one command again, in a room that the caller lends (rules 5.1 to
// 5.9). Added by us: the Rust crate has no reassembler.
#![tactic(auto)]

ghost use Rattle.std.specs.Prelude.{◌≡◌};
ghost use Rattle.basis.specs.Reply.{ok};
ghost use Rattle.reassembler.specs.Join.{same_class, continues_open, continues, held_len, extended_in, command_in, answer_of, state_of, view_in, or_unchanged, Says, Joins, JoinIs, ClosedIs, DataIs};

use basis::Refusal;
use byte_slices::part;
use class::{Class, Reading};
use command::{Command, CommandView};

// An open chain: the header of its latest piece, and how many bytes of the room hold the data joined so far.
#[derive(Clone, Copy)]
pub struct OpenChain {
    pub class: Class,
    pub instruction: u8,
    pub p1: u8,
    pub p2: u8,
    pub len: usize,
}

// The state of a reassembler: no chain is open, or one is. It holds no Le (rule 5.7).
#[derive(Clone, Copy)]
pub struct Reassembler {
    pub open: Option<OpenChain>,
}

// The answer to a piece, and the state after it. No command: the chain goes on. A command: the whole one, whose data
// are at the room's beginning. It is refused with the parser's number (rule 5.1), with 17 (rule 5.2) or with 18 (rule
// 5.3).
// Stays: a refusal has a state too, which the promise JoinIs names.
#[derive(Clone, Copy)]
pub struct Joined {
    pub answer: Result<Option<Command>, Refusal>,
    pub state: Reassembler,
}

// Whether two classes are the same apart from bit 0x10: they are compared with the bit set in both (rule 5.2).
#[tactic(auto, unfolding(crate::specs::Join::same_class))]
fn same_class(before: Class, class: Class) -> bool
    ensures { result ≡ same_class before class }
{
    before.as_chained() == class.as_chained()
}

// Whether a piece has the header of an open chain, apart from bit 0x10 of the class (rule 5.2).
#[tactic(auto, unfolding(crate::specs::Join::continues_open))]
fn continues_open(chain: OpenChain, view: CommandView) -> bool
    ensures { result ≡ continues_open chain view }
{
    same_class(chain.class, view.class)
        && chain.instruction == view.instruction
        && chain.p1 == view.p1
        && chain.p2 == view.p2
}

// The answer to a piece whose data are in the room; the command has them all. Bit 0x10 set: more, and the chain is open
// (rule 5.4). Clear: the command, and the chain is closed (rule 5.5).
#[tactic(auto, unfolding(crate::specs::Join::answer_of, crate::specs::Join::state_of), using(crate::proofs::Headers::chaining_bit_is))]
fn accepted(view: CommandView, command: Command) -> Joined
    ensures { Says (ok (answer_of view command)) (state_of view command.len) result }
{
    if view.class.chain().not_the_last() {
        let chain = OpenChain {
            class: view.class,
            instruction: view.instruction,
            p1: view.p1,
            p2: view.p2,
            len: command.len,
        };
        return Joined {
            answer: Ok(None),
            state: Reassembler { open: Some(chain) },
        };
    }
    Joined {
        answer: Ok(Some(command)),
        state: Reassembler::new(),
    }
}

impl Reassembler {
    // A fresh reassembler: no chain is open.
    pub fn new() -> Reassembler
        ensures { ClosedIs result }
    {
        Reassembler { open: None }
    }

    // Forgets an open chain. It always succeeds, and has no room that it could change (rule 5.8).
    pub fn reset(self) -> Reassembler
        ensures { ClosedIs result }
    {
        Reassembler::new()
    }

    // Whether a piece may be joined: any piece if no chain is open, else one with its header (rule 5.2).
    fn continues(self, view: CommandView) -> bool
        ensures { result ≡ continues self view }
    {
        self.open.is_none_or(|chain| continues_open(chain, view))
    }

    // How many bytes of the room hold data of the open chain; none if no chain is open (rule 5.5).
    fn held_len(self) -> usize
        ensures { result ≡ held_len self }
    {
        self.open.map_or(0, |chain| chain.len)
    }

    // The extended flag of a command whose last piece this is: its own for a single piece, true for several (rule 5.6).
    fn extended(self, view: CommandView) -> bool
        ensures { result ≡ extended_in self view }
    {
        self.open.is_some() || view.extended
    }

    // The command before the data of this piece are joined to it: its length is that of the data held. The extension
    // replaces header and Le by those of the piece, so of the other fields only the flag counts.
    fn command(self, view: CommandView) -> Command
        ensures { result ≡ command_in self view (held_len self) }
    {
        Command {
            len: self.held_len(),
            extended: self.extended(view),
            ..Command::from(view)
        }
    }

    // Joins a piece that was parsed, and its data: 17 if it does not continue the chain, 18 if there is no room for its
    // data.
    fn join_view(self, view: CommandView, data: &[u8], room: &mut [u8]) -> Result<Joined, Refusal>
        ensures { Joins (view_in self room.old view «data».now) (or_unchanged self result) room.new }
    {
        if !self.continues(view) {
            return Err(Refusal::OtherChain);
        }
        let before = self.command(view);
        let joined = before.extend_from_command_view(view, data, room);
        joined.answer?;
        let command = Command {
            extended: before.extended,
            ..joined.command
        };
        Ok(accepted(view, command))
    }

    // Joins a piece, if it is not refused. It is parsed in the crate reading (rule 5.1), and its data go into the room
    // after those held (rule 5.3).
    #[tactic(auto, unfolding(crate::specs::Join::join_of))]
    fn try_join(self, piece: &[u8], room: &mut [u8]) -> Result<Joined, Refusal>
        ensures { JoinIs self piece.now room.old (or_unchanged self result) room.new }
    {
        let view = CommandView::try_from(Reading::Crate, piece)?;
        self.join_view(view, part(piece, view.at, view.len), room)
    }

    // Joins a piece. A refusal leaves the state as it was (rule 1.25).
    pub fn join(self, piece: &[u8], room: &mut [u8]) -> Joined
        ensures { JoinIs self piece.now room.old result room.new }
    {
        match self.try_join(piece, room) {
            Ok(joined) => joined,
            Err(refusal) => Joined {
                answer: Err(refusal),
                state: self,
            },
        }
    }
}

// The data of a command that was given back: the front of the room, as long as the command says (rule 5.9).
pub fn data<'a>(command: Command, room: &'a [u8]) -> &'a [u8]
    ensures { DataIs command room.now result.now }
{
    part(room, 0, command.len)
}
