// What C and Rust programs link of the library `tlv_chunks_abi`: each function calls the one there that has its
// name, and promises the same. host/exports writes this file.
#![tactic(auto)]

ghost use Rattle.tlv_chunks_abi.specs.Numbers.{ChunkTold, CloseTold};

// Takes bytes of a chunk up to the next reply, or all of them (rules 18.1 to 18.4). Writes 8 numbers: 1 if a header is
// complete, else 0; 1 if a value is complete, else 0; the tag and the length of its value, or 0 and 0; how many bytes
// were taken; the three of the state after them. Refused with 11 and 12, which write the 8 numbers too, and with 16.
#[unsafe(no_mangle)]
pub extern "C" fn gorvisclen_take_chunk(
    kind: u8,
    tag: u32,
    number: u16,
    chunk: &[u8],
    out: &mut [u64],
) -> u8
    ensures { ChunkTold kind tag number chunk.now out.old result out.new }
{
    tlv_chunks_abi::gorvisclen_take_chunk(kind, tag, number, chunk, out)
}

// Closes the walk, when no bytes come any more (rules 18.6 and 18.7). Writes the same 8 numbers: five zeros, and the
// state, which has stopped. Refused with 11 at a boundary, or if the walk has stopped with 11, and otherwise with 12.
#[unsafe(no_mangle)]
pub extern "C" fn gorvisclen_close_chunks(kind: u8, tag: u32, number: u16, out: &mut [u64]) -> u8
    ensures { CloseTold kind tag number out.old result out.new }
{
    tlv_chunks_abi::gorvisclen_close_chunks(kind, tag, number, out)
}
