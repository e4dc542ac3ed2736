// What C and Rust programs link of the library `reassembler_abi`: each function calls the one there that has its
// name, and promises the same. host/exports writes this file.
#![tactic(auto)]

ghost use Rattle.reassembler_abi.specs.Numbers.{state_by_numbers, state_met, PieceJoined, ResetIs, JoinedData};

// Joins a piece. Writes 14 numbers for the host: 1 and the seven of the command, or eight zeros for "more"; then the
// six of the state after the piece. A refusal writes no number and no byte of the room.
#[unsafe(no_mangle)]
pub extern "C" fn gorvisclen_join(
    opened: u8,
    class: u8,
    instruction: u8,
    p1: u8,
    p2: u8,
    held: usize,
    piece: &[u8],
    room: &mut [u8],
    out: &mut [u64],
) -> u8
    ensures { PieceJoined (state_met piece.now (state_by_numbers opened class instruction p1 p2 held)) piece.now
        room.old out.old result room.new out.new }
{
    reassembler_abi::gorvisclen_join(opened, class, instruction, p1, p2, held, piece, room, out)
}

// Returns the first number of the state after a reset. It is 0 whatever the state was: no chain is open, and then no
// other number counts (rule 5.8).
#[unsafe(no_mangle)]
pub extern "C" fn gorvisclen_reset(
    opened: u8,
    class: u8,
    instruction: u8,
    p1: u8,
    p2: u8,
    held: usize,
) -> u8
    ensures { ResetIs opened class instruction p1 p2 held result }
{
    reassembler_abi::gorvisclen_reset(opened, class, instruction, p1, p2, held)
}

// Copies the joined data from the front of the room to the front of `to`, and writes their length (rule 5.9).
#[unsafe(no_mangle)]
pub extern "C" fn gorvisclen_joined_data(
    len: usize,
    room: &[u8],
    to: &mut [u8],
    out: &mut [u64],
) -> u8
    ensures { JoinedData len room.now to.old out.old result to.new out.new }
{
    reassembler_abi::gorvisclen_joined_data(len, room, to, out)
}
