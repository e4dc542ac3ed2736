// What C and Rust programs link of the library `tlv_lookup_abi`: each function calls the one there that has its
// name, and promises the same. host/exports writes this file.
#![tactic(auto)]

ghost use Rattle.abi.specs.Answers.{RowTold};
ghost use Rattle.tlv_lookup_abi.specs.Place.{get_data_object_row};

// Writes 3 numbers, with 11 and 12 too: the place in the record of the value, of the end reached (11) or of the object
// that cannot be read (12); the length of the value, or 0; how many tags of the path matched (rules 15.3 and 15.4).
#[unsafe(no_mangle)]
pub extern "C" fn gorvisclen_get_data_object(
    reading: u8,
    record: &[u8],
    path: &[u32],
    out: &mut [u64],
) -> u8
    ensures { RowTold (get_data_object_row reading «record».now path.now) out.old result out.new }
{
    tlv_lookup_abi::gorvisclen_get_data_object(reading, record, path, out)
}
