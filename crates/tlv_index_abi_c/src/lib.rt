// What C and Rust programs link of the library `tlv_index_abi`: each function calls the one there that has its
// name, and promises the same. host/exports writes this file.
#![tactic(auto)]

ghost use Rattle.tlv_index_abi.specs.Told.{IndexBuilt, check_index_reply, IndexedTold};
ghost use Rattle.abi.specs.Answers.{NumbersWritten};

// Builds the index of a record, writes its file into the buffer from a place, and writes to `out` how many bytes these
// are (rule 17.4). If `out` is too short nothing is built: 16, which is below 24 (rule 1.22).
#[unsafe(no_mangle)]
pub extern "C" fn gorvisclen_build_index(
    record: &[u8],
    buffer: &mut [u8],
    at: usize,
    out: &mut [u64],
) -> u8
    ensures { IndexBuilt «record».now at buffer.old out.old result buffer.new out.new }
{
    tlv_index_abi::gorvisclen_build_index(record, buffer, at, out)
}

// Writes 1 number: how many entries the index in the file has (rule 17.6).
#[unsafe(no_mangle)]
pub extern "C" fn gorvisclen_check_index(file: &[u8], out: &mut [u64]) -> u8
    ensures { NumbersWritten 1 (check_index_reply file.now) out.old result out.new }
{
    tlv_index_abi::gorvisclen_check_index(file, out)
}

// Looks a path up through the index in a file (rule 17.10). Writes the 3 numbers of a lookup, with 11 and 12 too; none
// with 25.
#[unsafe(no_mangle)]
pub extern "C" fn gorvisclen_get_indexed(
    file: &[u8],
    record: &[u8],
    path: &[u32],
    out: &mut [u64],
) -> u8
    ensures { IndexedTold file.now «record».now path.now out.old result out.new }
{
    tlv_index_abi::gorvisclen_get_indexed(file, record, path, out)
}
