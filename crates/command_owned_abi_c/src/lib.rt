// What C and Rust programs link of the library `command_owned_abi`: each function calls the one there that has its
// name, and promises the same. host/exports writes this file.
#![tactic(auto)]

ghost use Rattle.command_owned_abi.specs.Copies.{DataCopied, OwnedCopied, Extended};
ghost use Rattle.abi.specs.Readings.{class_reading_by_number};

// Copies the data of a command to the beginning of `to`, and writes their length (rule 2.8).
#[unsafe(no_mangle)]
pub extern "C" fn gorvisclen_command_data(
    reading: u8,
    apdu: &[u8],
    to: &mut [u8],
    out: &mut [u64],
) -> u8
    ensures { DataCopied reading apdu.now to.old out.old result to.new out.new }
{
    command_owned_abi::gorvisclen_command_data(reading, apdu, to, out)
}

// Copies the data to the beginning of the room, and writes the 7 numbers of the command (rule 2.9).
#[unsafe(no_mangle)]
pub extern "C" fn gorvisclen_command_owned(
    reading: u8,
    apdu: &[u8],
    room: &mut [u8],
    out: &mut [u64],
) -> u8
    ensures { OwnedCopied (class_reading_by_number reading) apdu.now room.old out.old result
        room.new out.new }
{
    command_owned_abi::gorvisclen_command_owned(reading, apdu, room, out)
}

// Puts the data of a command after the held ones, and writes the 7 numbers of the extended command, also with 18
// (rules 1.26 and 2.10).
#[unsafe(no_mangle)]
pub extern "C" fn gorvisclen_command_extend(
    len: usize,
    room: &mut [u8],
    apdu: &[u8],
    out: &mut [u64],
) -> u8
    ensures { Extended len apdu.now room.old out.old result room.new out.new }
{
    command_owned_abi::gorvisclen_command_extend(len, room, apdu, out)
}
