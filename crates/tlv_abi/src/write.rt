// An object written for a host program.
ghost use Rattle.std.specs.Prelude.{[], ◌∷◌};
ghost use Rattle.tlv_abi.specs.Written.{ObjectWritten};

use abi::usable_len;
use tlv_write::put_data_object;

// Writes an object from a place of the buffer, and writes to `out` how many bytes it takes (rule 7.3). If `out` is too
// short, the writer gets none of the buffer: so it refuses with 16, but tests 19 first.
#[unsafe(no_mangle)]
pub extern "C" fn gorvisclen_put_data_object(
    b1: u8,
    b2: u8,
    b3: u8,
    value: &[u8],
    buffer: &mut [u8],
    at: usize,
    out: &mut [u64],
) -> u8
    ensures { ObjectWritten (b1 ∷ b2 ∷ b3 ∷ []) value.now at buffer.old out.old result
        buffer.new out.new }
{
    let end = usable_len(buffer.len(), out.len(), 1);
    match put_data_object([b1, b2, b3], value, &mut buffer[..end], at) {
        Err(refusal) => refusal.number(),
        Ok(n) => {
            out[0] = n as u64;
            0
        }
    }
}
