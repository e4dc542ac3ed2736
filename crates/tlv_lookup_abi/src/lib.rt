// What a host program calls to look a path up: the place and the length of the value, or where the lookup ended. The
// function returns 0, or the number of a refusal (docs/RULES.md, section 1).
#![tactic(auto)]

ghost use Rattle.abi.specs.Answers.{RowTold};
ghost use Rattle.tlv_lookup_abi.specs.Place.{get_data_object_row};

use abi::{tell_lookup, tlv_reading_by_number};

// Writes 3 numbers, with 11 and 12 too: the place in the record of the value, of the end reached (11) or of the object
// that cannot be read (12); the length of the value, or 0; how many tags of the path matched (rules 15.3 and 15.4).
#[unsafe(no_mangle)]
pub extern "C" fn gorvisclen_get_data_object(
    reading: u8,
    record: &[u8],
    path: &[u32],
    out: &mut [u64],
) -> u8
    ensures { RowTold (get_data_object_row reading «record».now path.now) out.old result out.new }
{
    let by = tlv_reading_by_number(reading);
    tell_lookup(tlv::get_data_object(by, record, path), out)
}
