// Reading a command, in the crate reading and the standard one: its numbers and its data. Rules 2.1, 2.2 and 2.8.
// body.rt reads the lengths of the body, owned.rt makes owned copies.
// Ported, with changes, from src/command.rs of the crate iso7816 0.2.2 (see NOTICE).
#![tactic(auto)]

ghost use Rattle.std.specs.Prelude.{◌≡◌, ◌≤◌, length};
ghost use Rattle.basis.specs.Refusal.{as_reply};
ghost use Rattle.command.specs.Command.{parse_body, TryFromIs, DataIs};

mod body;
mod owned;

use basis::Refusal;
use class::{Class, Reading};
pub use owned::{Command, Extended};

// A command as numbers: its header, where its data start and how many bytes they are, its expected length, and whether
// its lengths are extended.
#[derive(Clone, Copy)]
pub struct CommandView {
    pub class: Class,
    pub instruction: u8,
    pub p1: u8,
    pub p2: u8,
    pub at: usize,
    pub len: usize,
    pub le: usize,
    pub extended: bool,
}

impl CommandView {
    // Reads a command: 1 if it has under four bytes, 3 for the class byte 0xFF, else by its body, which may be refused
    // with 4, 5, and in the standard reading 21 (rules 1.1, 1.3 to 1.5 and 1.21). Instruction, P1 and P2 are any bytes,
    // and the body is the part of the command that starts after byte four (rules 2.1, 2.2 and 12.7).
    // Inlined, so that what is read stays in registers.
    #[tactic(auto, unfolding(crate::specs::Command::parse))]
    #[inline(always)]
    pub fn try_from(reading: Reading, apdu: &[u8]) -> Result<CommandView, Refusal>
        ensures { TryFromIs reading apdu.now result }
    {
        let [cla, instruction, p1, p2, body @ ..] = apdu else {
            return Err(Refusal::CommandTooShort);
        };
        let class = Class::from_byte(*cla)?;
        let lengths = body::parse_lengths(reading, body)?;
        Ok(CommandView {
            class,
            instruction: *instruction,
            p1: *p1,
            p2: *p2,
            at: 4 + lengths.offset,
            len: lengths.lc,
            le: lengths.le,
            extended: lengths.extended,
        })
    }
}

// The data of a command, as that very part of its bytes; no bytes if it is refused (rule 2.8).
pub fn data<'a>(reading: Reading, apdu: &'a [u8]) -> &'a [u8]
    ensures { DataIs reading apdu.now result.now }
{
    match CommandView::try_from(reading, apdu) {
        Ok(view) => byte_slices::part(apdu, view.at, view.len),
        Err(_) => &[],
    }
}
