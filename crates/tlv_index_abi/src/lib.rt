// What a host program calls to build an index, to check the form of an index file, and to look a path up through it.
// Each function returns 0, or the number of a refusal (docs/RULES.md, section 1). It writes its numbers to the front of
// the slice `out`, unless it refuses; a lookup also if it refuses with 11 or 12 (rule 15.7).
#![tactic(auto)]

ghost use Rattle.abi.specs.Answers.{NumbersWritten};
ghost use Rattle.tlv_index_abi.specs.Told.{IndexBuilt, check_index_reply, IndexedTold};

use abi::{refusal_status, tell_lookup, write_numbers};
use tlv_index::{build_index, check_index, get_indexed};

// Builds the index of a record, writes its file into the buffer from a place, and writes to `out` how many bytes these
// are (rule 17.4). If `out` is too short nothing is built: 16, which is below 24 (rule 1.22).
#[unsafe(no_mangle)]
pub extern "C" fn gorvisclen_build_index(
    record: &[u8],
    buffer: &mut [u8],
    at: usize,
    out: &mut [u64],
) -> u8
    ensures { IndexBuilt «record».now at buffer.old out.old result buffer.new out.new }
{
    if out.is_empty() {
        return 16;
    }
    match build_index(record, buffer, at) {
        Err(refusal) => refusal.number(),
        Ok(size) => write_numbers(&[size as u64], out),
    }
}

// Writes 1 number: how many entries the index in the file has (rule 17.6).
#[tactic(auto, unfolding(crate::specs::Told::check_index_reply))]
#[unsafe(no_mangle)]
pub extern "C" fn gorvisclen_check_index(file: &[u8], out: &mut [u64]) -> u8
    ensures { NumbersWritten 1 (check_index_reply file.now) out.old result out.new }
{
    match check_index(file) {
        Err(refusal) => refusal_status(refusal.number(), out.len(), 1),
        Ok(n) => write_numbers(&[n as u64], out),
    }
}

// Looks a path up through the index in a file (rule 17.10). Writes the 3 numbers of a lookup, with 11 and 12 too; none
// with 25.
#[unsafe(no_mangle)]
pub extern "C" fn gorvisclen_get_indexed(
    file: &[u8],
    record: &[u8],
    path: &[u32],
    out: &mut [u64],
) -> u8
    ensures { IndexedTold file.now «record».now path.now out.old result out.new }
{
    match get_indexed(file, record, path) {
        Err(refusal) => refusal_status(refusal.number(), out.len(), 3),
        Ok(answer) => tell_lookup(answer, out),
    }
}
