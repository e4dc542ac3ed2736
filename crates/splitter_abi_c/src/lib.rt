// What C and Rust programs link of the library `splitter_abi`: each function calls the one there that has its
// name, and promises the same. host/exports writes this file.
#![tactic(auto)]

ghost use Rattle.abi.specs.Answers.{NumbersWritten};
ghost use Rattle.splitter_abi.specs.Numbers.{should_split_reply, NewNonExtendedIs, pieces_by_numbers, PieceWritten};

// Writes 6 numbers for the host: 1, then data bytes, class and expected length of the first part, then class and
// expected length of the rest; zeros if the command is not split (rules 4.3 to 4.6).
#[unsafe(no_mangle)]
pub extern "C" fn gorvisclen_should_split(
    class: u8,
    instruction: u8,
    p1: u8,
    p2: u8,
    le: u32,
    mode: u8,
    data: &[u8],
    available: usize,
    out: &mut [u64],
) -> u8
    ensures { NumbersWritten 6 (should_split_reply class instruction p1 p2 le mode «data».now available) out.old result
        out.new }
{
    splitter_abi::gorvisclen_should_split(
        class,
        instruction,
        p1,
        p2,
        le,
        mode,
        data,
        available,
        out,
    )
}

// Whether the pieces of this command can be made: 0, or 3, 13, 14 (rule 4.7).
#[unsafe(no_mangle)]
pub extern "C" fn gorvisclen_new_non_extended(
    class: u8,
    instruction: u8,
    p1: u8,
    p2: u8,
    data: &[u8],
    le: u16,
    available: usize,
) -> u8
    ensures { NewNonExtendedIs class instruction p1 p2 «data».now le available result }
{
    splitter_abi::gorvisclen_new_non_extended(class, instruction, p1, p2, data, le, available)
}

// Writes the next piece into the buffer, and 5 numbers for the host: 1 and how many bytes the piece has; then 1, place
// and expected length of what is left after it; zeros for what is not there (rules 4.8 to 4.10).
#[unsafe(no_mangle)]
pub extern "C" fn gorvisclen_write_next(
    class: u8,
    instruction: u8,
    p1: u8,
    p2: u8,
    le: u16,
    available: usize,
    place: usize,
    done: u8,
    data: &[u8],
    buffer: &mut [u8],
    at: usize,
    out: &mut [u64],
) -> u8
    ensures { PieceWritten (pieces_by_numbers class instruction p1 p2 le available place done «data».now)
        «data».now at buffer.old out.old result buffer.new out.new }
{
    splitter_abi::gorvisclen_write_next(
        class,
        instruction,
        p1,
        p2,
        le,
        available,
        place,
        done,
        data,
        buffer,
        at,
        out,
    )
}
