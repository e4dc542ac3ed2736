// An owned command by numbers (rule 12.3).
ghost use Rattle.abi.specs.Commands.{CommandNumbersIs, CommandOfLengthIs};

use crate::answers::flag;
use command::Command;

// The seven numbers of a command: class, instruction, P1, P2, length of the data, Le, extended.
#[tactic(auto, unfolding(crate::specs::Commands::command_numbers))]
pub fn command_numbers(command: Command) -> [u64; 7]
    ensures { CommandNumbersIs command result }
{
    [
        u64::from(command.class.into_inner()),
        u64::from(command.instruction),
        u64::from(command.p1),
        u64::from(command.p2),
        command.len as u64,
        command.le as u64,
        flag(command.extended),
    ]
}

// A command of which only the length of the data matters.
pub fn command_of_length(len: usize) -> Command
    ensures { CommandOfLengthIs len result }
{
    Command {
        class: class::ZERO_CLA,
        instruction: 0,
        p1: 0,
        p2: 0,
        len,
        le: 0,
        extended: false,
    }
}
