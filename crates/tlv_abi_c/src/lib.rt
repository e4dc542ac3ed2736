// What C and Rust programs link of the library `tlv_abi`: each function calls the one there that has its
// name, and promises the same. host/exports writes this file.
#![tactic(auto)]

ghost use Rattle.abi.specs.Answers.{NumbersWritten, RowTold};
ghost use Rattle.tlv_abi.specs.Numbers.{take_tag_reply, take_len_reply, take_data_object_row, ValueCopied};
ghost use Rattle.std.specs.Prelude.{[], ◌∷◌};
ghost use Rattle.tlv_abi.specs.Written.{ObjectWritten};

// Writes 2 numbers: the tag, and how many bytes it takes (rules 6.1 to 6.4).
#[unsafe(no_mangle)]
pub extern "C" fn gorvisclen_take_tag(reading: u8, bytes: &[u8], out: &mut [u64]) -> u8
    ensures { NumbersWritten 2 (take_tag_reply reading bytes.now) out.old result out.new }
{
    tlv_abi::gorvisclen_take_tag(reading, bytes, out)
}

// Writes 2 numbers: the length, and how many bytes it takes (rule 6.6).
#[unsafe(no_mangle)]
pub extern "C" fn gorvisclen_take_len(reading: u8, bytes: &[u8], out: &mut [u64]) -> u8
    ensures { NumbersWritten 2 (take_len_reply reading bytes.now) out.old result out.new }
{
    tlv_abi::gorvisclen_take_len(reading, bytes, out)
}

// Reads the object at a place of a record. Writes 4 numbers: its place, its tag, the place of its value, and the length
// of the value (rule 15.1). With 11 and 12 too: the place of the end or of the object, and three zeros (rule 15.2).
#[unsafe(no_mangle)]
pub extern "C" fn gorvisclen_take_data_object(
    reading: u8,
    record: &[u8],
    at: usize,
    out: &mut [u64],
) -> u8
    ensures { RowTold (take_data_object_row reading «record».now at) out.old result out.new }
{
    tlv_abi::gorvisclen_take_data_object(reading, record, at, out)
}

// Looks a path up, and copies the value to the front of `to` (rule 6.15). Writes the 3 numbers of the lookup, with 11
// and 12 too (rules 15.3 and 15.4).
#[unsafe(no_mangle)]
pub extern "C" fn gorvisclen_value(
    reading: u8,
    record: &[u8],
    path: &[u32],
    to: &mut [u8],
    out: &mut [u64],
) -> u8
    ensures { ValueCopied reading «record».now path.now to.old out.old result
        to.new out.new }
{
    tlv_abi::gorvisclen_value(reading, record, path, to, out)
}

// Writes an object from a place of the buffer, and writes to `out` how many bytes it takes (rule 7.3). If `out` is too
// short, the writer gets none of the buffer: so it refuses with 16, but tests 19 first.
#[unsafe(no_mangle)]
pub extern "C" fn gorvisclen_put_data_object(
    b1: u8,
    b2: u8,
    b3: u8,
    value: &[u8],
    buffer: &mut [u8],
    at: usize,
    out: &mut [u64],
) -> u8
    ensures { ObjectWritten (b1 ∷ b2 ∷ b3 ∷ []) value.now at buffer.old out.old result
        buffer.new out.new }
{
    tlv_abi::gorvisclen_put_data_object(b1, b2, b3, value, buffer, at, out)
}
