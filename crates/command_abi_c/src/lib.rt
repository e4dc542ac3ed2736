// What C and Rust programs link of the library `command_abi`: each function calls the one there that has its
// name, and promises the same. host/exports writes this file.
#![tactic(auto)]

ghost use Rattle.abi.specs.Answers.{NumbersWritten};
ghost use Rattle.command_abi.specs.Numbers.{command_reply};

// Writes 8 numbers for the host: class, instruction, P1, P2, place and length of the data, expected length, extended.
#[unsafe(no_mangle)]
pub extern "C" fn gorvisclen_command(reading: u8, apdu: &[u8], out: &mut [u64]) -> u8
    ensures { NumbersWritten 8 (command_reply reading apdu.now) out.old result out.new }
{
    command_abi::gorvisclen_command(reading, apdu, out)
}
