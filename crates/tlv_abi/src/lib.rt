// What a host program calls to read a tag, a length or an object, to copy a value, and to write an object. Each
// function returns 0, or the number of a refusal (docs/RULES.md, section 1). It writes its numbers to the front of the
// slice `out`, unless it refuses; for an object and a value also if it refuses with 11 or 12 (rule 15.7).
#![tactic(auto)]

ghost use Rattle.abi.specs.Answers.{NumbersWritten, NumbersOf, RowTold};
ghost use Rattle.tlv.specs.Tag as tag;
ghost use Rattle.tlv.specs.Len as len;
ghost use Rattle.tlv_abi.specs.Numbers.{tag_numbers, len_numbers, take_tag_reply, take_len_reply, take_data_object_row, ValueCopied};

mod write;

use abi::{
    Numbers, copy_and_tell, tell_lookup, tell_row, tlv_reading_by_number, write_unless_refused,
};
use byte_slices::part;
use tlv::{DataObject, Found, Len, Stop, StopAt, Tag};
pub use write::gorvisclen_put_data_object;

// A tag as numbers.
fn tag_numbers(taken: Result<Tag, Stop>) -> Numbers
    ensures { NumbersOf (tag_numbers (tag.as_reply taken)) result }
{
    match taken {
        Ok(Tag { number, size }) => Numbers(0, u64::from(number), size as u64),
        Err(stop) => Numbers(stop.number(), 0, 0),
    }
}

// A length as numbers.
fn len_numbers(taken: Result<Len, Stop>) -> Numbers
    ensures { NumbersOf (len_numbers (len.as_reply taken)) result }
{
    match taken {
        Ok(Len { number, size }) => Numbers(0, number as u64, size as u64),
        Err(stop) => Numbers(stop.number(), 0, 0),
    }
}

// Writes 2 numbers: the tag, and how many bytes it takes (rules 6.1 to 6.4).
#[tactic(auto, unfolding(crate::specs::Numbers::take_tag_reply))]
#[unsafe(no_mangle)]
pub extern "C" fn gorvisclen_take_tag(reading: u8, bytes: &[u8], out: &mut [u64]) -> u8
    ensures { NumbersWritten 2 (take_tag_reply reading bytes.now) out.old result out.new }
{
    let tag = tag_numbers(tlv::take_tag(tlv_reading_by_number(reading), bytes));
    write_unless_refused(tag.0, &[tag.1, tag.2], out)
}

// Writes 2 numbers: the length, and how many bytes it takes (rule 6.6).
#[tactic(auto, unfolding(crate::specs::Numbers::take_len_reply))]
#[unsafe(no_mangle)]
pub extern "C" fn gorvisclen_take_len(reading: u8, bytes: &[u8], out: &mut [u64]) -> u8
    ensures { NumbersWritten 2 (take_len_reply reading bytes.now) out.old result out.new }
{
    let len = len_numbers(tlv::take_len(tlv_reading_by_number(reading), bytes));
    write_unless_refused(len.0, &[len.1, len.2], out)
}

// Reads the object at a place of a record. Writes 4 numbers: its place, its tag, the place of its value, and the length
// of the value (rule 15.1). With 11 and 12 too: the place of the end or of the object, and three zeros (rule 15.2).
#[tactic(auto, unfolding(crate::specs::Numbers::take_data_object_row))]
#[unsafe(no_mangle)]
pub extern "C" fn gorvisclen_take_data_object(
    reading: u8,
    record: &[u8],
    at: usize,
    out: &mut [u64],
) -> u8
    ensures { RowTold (take_data_object_row reading «record».now at) out.old result out.new }
{
    match tlv::take_data_object(tlv_reading_by_number(reading), record, at) {
        Err(StopAt { stop, place }) => tell_row(stop.number(), &[place as u64, 0, 0, 0], out),
        Ok(
            DataObject {
                place,
                tag,
                at,
                len,
            },
        ) => tell_row(
            0,
            &[place as u64, u64::from(tag), at as u64, len as u64],
            out,
        ),
    }
}

// Looks a path up, and copies the value to the front of `to` (rule 6.15). Writes the 3 numbers of the lookup, with 11
// and 12 too (rules 15.3 and 15.4).
#[unsafe(no_mangle)]
pub extern "C" fn gorvisclen_value(
    reading: u8,
    record: &[u8],
    path: &[u32],
    to: &mut [u8],
    out: &mut [u64],
) -> u8
    ensures { ValueCopied reading «record».now path.now to.old out.old result
        to.new out.new }
{
    let found = tlv::get_data_object(tlv_reading_by_number(reading), record, path);
    match found {
        Err(_) => tell_lookup(found, out),
        Ok(Found { at, len, matched }) => copy_and_tell(
            part(record, at, len),
            to,
            &[at as u64, len as u64, matched as u64],
            out,
        ),
    }
}
