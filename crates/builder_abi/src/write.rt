// A command written for a host program.
ghost use Rattle.std.specs.Prelude.{◌≤◌, length};
ghost use Rattle.basis.specs.Reply.{ok};
ghost use Rattle.abi.specs.Serialized.{Serialized};
ghost use Rattle.builder_abi.specs.Numbers.{CommandWritten};

use abi::{builder_by_numbers, refusal_status};
use basis::Refusal;
use builder::CommandBuilder;

// Writes a command into the buffer, and its length into a slice that has a place for it.
fn write(builder: CommandBuilder, data: &[u8], buffer: &mut [u8], at: usize, out: &mut [u64]) -> u8
    requires { 1 ≤ length out.old }
    ensures { Serialized (ok builder) «data».now at buffer.old out.old result buffer.new
        out.new }
{
    match builder.serialize_into(data, buffer, at) {
        Err(refusal) => refusal.number(),
        Ok(n) => {
            out[0] = n as u64;
            0
        }
    }
}

// Writes the command from a place of the buffer, and its length as one number for the host (rule 3.9).
#[unsafe(no_mangle)]
pub extern "C" fn gorvisclen_serialize_into(
    class: u8,
    instruction: u8,
    p1: u8,
    p2: u8,
    le: u32,
    mode: u8,
    data: &[u8],
    buffer: &mut [u8],
    at: usize,
    out: &mut [u64],
) -> u8
    ensures { CommandWritten class instruction p1 p2 le mode «data».now at buffer.old out.old result
        buffer.new out.new }
{
    match builder_by_numbers(class, instruction, p1, p2, le, mode, data) {
        Err(refusal) => refusal_status(refusal.number(), out.len(), 1),
        Ok(builder) => {
            if out.len() < 1 {
                return Refusal::DoesNotFit.number();
            }
            write(builder, data, buffer, at, out)
        }
    }
}
