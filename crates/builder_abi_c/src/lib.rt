// What C and Rust programs link of the library `builder_abi`: each function calls the one there that has its
// name, and promises the same. host/exports writes this file.
#![tactic(auto)]

ghost use Rattle.abi.specs.Answers.{NumbersWritten};
ghost use Rattle.builder_abi.specs.Numbers.{required_len_reply, force_extended_reply, builder_eq_reply, CommandWritten};

// Writes one number for the host: the length of the command (rule 11.9).
#[unsafe(no_mangle)]
pub extern "C" fn gorvisclen_required_len(
    class: u8,
    instruction: u8,
    p1: u8,
    p2: u8,
    le: u32,
    mode: u8,
    data: &[u8],
    out: &mut [u64],
) -> u8
    ensures { NumbersWritten 1 (required_len_reply class instruction p1 p2 le mode «data».now) out.old result
        out.new }
{
    builder_abi::gorvisclen_required_len(class, instruction, p1, p2, le, mode, data, out)
}

// Writes the same with extended lengths forced; 15 if they are unsupported (rule 3.2).
#[unsafe(no_mangle)]
pub extern "C" fn gorvisclen_force_extended(
    class: u8,
    instruction: u8,
    p1: u8,
    p2: u8,
    le: u32,
    mode: u8,
    data: &[u8],
    out: &mut [u64],
) -> u8
    ensures { NumbersWritten 1 (force_extended_reply class instruction p1 p2 le mode «data».now) out.old result
        out.new }
{
    builder_abi::gorvisclen_force_extended(class, instruction, p1, p2, le, mode, data, out)
}

// Writes one number for the host: 1 if the builder equals the command, else 0 (rule 3.10).
#[unsafe(no_mangle)]
pub extern "C" fn gorvisclen_builder_eq(
    class: u8,
    instruction: u8,
    p1: u8,
    p2: u8,
    le: u32,
    mode: u8,
    data: &[u8],
    apdu: &[u8],
    out: &mut [u64],
) -> u8
    ensures { NumbersWritten 1 (builder_eq_reply class instruction p1 p2 le mode «data».now apdu.now) out.old
        result out.new }
{
    builder_abi::gorvisclen_builder_eq(class, instruction, p1, p2, le, mode, data, apdu, out)
}

// Writes the command from a place of the buffer, and its length as one number for the host (rule 3.9).
#[unsafe(no_mangle)]
pub extern "C" fn gorvisclen_serialize_into(
    class: u8,
    instruction: u8,
    p1: u8,
    p2: u8,
    le: u32,
    mode: u8,
    data: &[u8],
    buffer: &mut [u8],
    at: usize,
    out: &mut [u64],
) -> u8
    ensures { CommandWritten class instruction p1 p2 le mode «data».now at buffer.old out.old result
        buffer.new out.new }
{
    builder_abi::gorvisclen_serialize_into(
        class,
        instruction,
        p1,
        p2,
        le,
        mode,
        data,
        buffer,
        at,
        out,
    )
}
