// What C and Rust programs link of the library `collect_abi`: each function calls the one there that has its
// name, and promises the same. host/exports writes this file.
#![tactic(auto)]

ghost use Rattle.abi.specs.Answers.{NumbersWritten};
ghost use Rattle.collect_abi.specs.Numbers.{start_reply, state_by_numbers, ResponseTaken, SentWritten, CollectedData};

// Writes 8 numbers for the host: the state after this command was sent (rule 14.1). Refused with 3, 13 or 16.
#[unsafe(no_mangle)]
pub extern "C" fn gorvisclen_collect_start(
    class: u8,
    instruction: u8,
    p1: u8,
    p2: u8,
    le: u32,
    mode: u8,
    data: &[u8],
    out: &mut [u64],
) -> u8
    ensures { NumbersWritten 8 (start_reply class instruction p1 p2 le mode «data».now) out.old result
        out.new }
{
    collect_abi::gorvisclen_collect_start(class, instruction, p1, p2, le, mode, data, out)
}

// Takes a response (rules 14.2 to 14.6). Writes 12 numbers for the host: 1, SW1, SW2 and the length if it is the end,
// else four zeros; then the eight of the state with what is to be sent next, zeros at the end. Refused with 3, 16, 22
// or 23: it writes no number and no byte of the room.
#[unsafe(no_mangle)]
pub extern "C" fn gorvisclen_collect_step(
    kind: u8,
    class: u8,
    instruction: u8,
    p1: u8,
    p2: u8,
    le: u32,
    mode: u8,
    held: usize,
    response: &[u8],
    room: &mut [u8],
    out: &mut [u64],
) -> u8
    ensures { ResponseTaken (state_by_numbers kind class instruction p1 p2 le mode held) response.now
        room.old out.old result room.new out.new }
{
    collect_abi::gorvisclen_collect_step(
        kind,
        class,
        instruction,
        p1,
        p2,
        le,
        mode,
        held,
        response,
        room,
        out,
    )
}

// Writes what is to be sent from a place of the buffer, and its length as one number for the host: the command with
// its data, or GET RESPONSE without any (rule 14.7). Refused with 3, 13 or 16.
#[unsafe(no_mangle)]
pub extern "C" fn gorvisclen_collect_write(
    kind: u8,
    class: u8,
    instruction: u8,
    p1: u8,
    p2: u8,
    le: u32,
    mode: u8,
    data: &[u8],
    buffer: &mut [u8],
    at: usize,
    out: &mut [u64],
) -> u8
    ensures { SentWritten kind class instruction p1 p2 le mode «data».now at buffer.old out.old result
        buffer.new out.new }
{
    collect_abi::gorvisclen_collect_write(
        kind,
        class,
        instruction,
        p1,
        p2,
        le,
        mode,
        data,
        buffer,
        at,
        out,
    )
}

// Copies the collected data from the front of the room to the front of `to`, and writes their length (rule 14.8).
#[unsafe(no_mangle)]
pub extern "C" fn gorvisclen_collected(
    len: usize,
    room: &[u8],
    to: &mut [u8],
    out: &mut [u64],
) -> u8
    ensures { CollectedData len room.now to.old out.old result to.new out.new }
{
    collect_abi::gorvisclen_collected(len, room, to, out)
}
