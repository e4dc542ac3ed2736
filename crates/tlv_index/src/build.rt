// An index built from a record, and written as the bytes of its file (rules 17.1 to 17.4).
ghost use Rattle.std.specs.Prelude.{◌≡◌, ◌+◌, ◌≤◌, ◌<◌, length};
ghost use Rattle.basis.specs.Over.{over, over_at};
ghost use Rattle.tlv.specs.Object.{stop_of};
ghost use Rattle.tlv.specs.Walk.{walk};
ghost use Rattle.tlv.specs.declared.Reading.TheVariants.{Crate};
ghost use Rattle.tlv_index.specs.Index.{index_of};
ghost use Rattle.tlv_index.specs.File.{end_section, file_of, end_count, file_size};
ghost use Rattle.tlv_index.specs.Build.{IndexWritten, BuildIndexIs};
ghost use Rattle.tlv_index.specs.Steps.{counted_reply, counted, entry_put, entries_put, counts_put, index_to};

use crate::numbers::put_number;
use basis::Refusal;
use tlv::{DataObject, Reading, StopAt, take_data_object};

// How many objects a record has, and where its walk stops.
#[derive(Clone, Copy)]
pub struct Counted {
    pub objects: usize,
    pub stop: StopAt,
}

// Walks a record and counts its objects (rules 17.2 and 17.3). More than 255 are refused (24).
fn count_objects(record: &[u8]) -> Result<Counted, Refusal>
    ensures { counted_reply result ≡ counted (walk Crate 0 «record».now) }
{
    let mut at = 0;
    let mut objects = 0;
    loop {
        match take_data_object(Reading::Crate, record, at) {
            Err(stop) => {
                return Ok(Counted { objects, stop });
            }
            Ok(object) => {
                if objects == 255 {
                    return Err(Refusal::RecordTooLarge);
                }
                objects += 1;
                at = object.at + object.len;
            }
        }
    }
}

// Stays: (file, n) in the functions below, with what is required of them. A struct that holds the lent slice would have
// each contract say also that it keeps that slice.

// Writes entry number i of n: the object's length, its place and its tag, each into its section.
fn put_entry(file: &mut [u8], n: usize, i: usize, object: DataObject)
    requires { (i < n) × (n ≤ 255) × (file_size 2 n ≤ length file.old) }
    ensures { file.new ≡ entry_put 2 n i (record { tag = object.tag; at = object.at; len = object.len }) file.old }
{
    put_number::<2>(file, 6 + 5 * n + 2 * i, object.len);
    put_number::<2>(file, 4 + 3 * n + 2 * i, object.at);
    put_number::<3>(file, 2 + 3 * i, object.tag as usize);
}

// Walks a record of n objects again and writes its entries.
fn put_entries(record: &[u8], file: &mut [u8], n: usize)
    requires { (length (walk Crate 0 «record».now).items ≡ n) × (n ≤ 255) × (file_size 2 n ≤ length file.old) }
    ensures { file.new ≡ entries_put 2 n 0 (index_of (walk Crate 0 «record».now)).entries file.old }
{
    let mut at = 0;
    for i in 0..n {
        let Ok(object) = take_data_object(Reading::Crate, record, at) else {
            return;
        };
        put_entry(file, n, i, object);
        at = object.at + object.len;
    }
}

// Writes the last section of a file of n entries: its count, the reason and the place.
fn put_end(file: &mut [u8], n: usize, stop: StopAt)
    requires { (n ≤ 255) × (file_size 2 n ≤ length file.old) }
    ensures { file.new ≡ over_at (end_count 2 n) (end_section 2 (stop_of stop)) file.old }
{
    let end = 6 + 7 * n;
    put_number::<2>(file, end, 1);
    put_number::<2>(file, end + 2, usize::from(stop.stop.number()));
    put_number::<2>(file, end + 4, stop.place);
}

// Writes the counts of the first three sections.
fn put_counts(file: &mut [u8], n: usize)
    requires { (n ≤ 255) × (file_size 2 n ≤ length file.old) }
    ensures { file.new ≡ counts_put 2 n file.old }
{
    put_number::<2>(file, 4 + 5 * n, n);
    put_number::<2>(file, 2 + 3 * n, n);
    put_number::<2>(file, 0, n);
}

// Writes the index of a record over the front of a part.
fn put_index(record: &[u8], file: &mut [u8], counted: Counted)
    requires { (length (walk Crate 0 «record».now).items ≡ counted.objects) × (counted.objects ≤ 255) × (file_size 2 counted.objects ≤ length file.old) }
    ensures { file.new ≡ over (file_of 2 (index_to (walk Crate 0 «record».now).items (stop_of counted.stop))) file.old }
{
    put_end(file, counted.objects, counted.stop);
    put_entries(record, file, counted.objects);
    put_counts(file, counted.objects);
}

// Writes the index of a record into a buffer from a place, if it fits, and says how many bytes it has; else it is
// refused (16).
fn write_index(
    record: &[u8],
    buffer: &mut [u8],
    at: usize,
    counted: Counted,
) -> Result<usize, Refusal>
    requires { (length (walk Crate 0 «record».now).items ≡ counted.objects) × (counted.objects ≤ 255) }
    ensures { IndexWritten (index_to (walk Crate 0 «record».now).items (stop_of counted.stop)) buffer.old at result
        buffer.new }
{
    let size = 12 + 7 * counted.objects;
    if buffer.len() < at || buffer.len() - at < size {
        return Err(Refusal::DoesNotFit);
    }
    put_index(record, &mut buffer[at..], counted);
    Ok(size)
}

// Builds the index of a record, writes it into a buffer from a place (rule 17.4), and says how many bytes were written.
// Bytes before it and after it stay. Refused if the record is above 65,535 bytes or has more than 255 objects (24), or
// if the index does not fit from the place (16). A refusal changes nothing.
pub fn build_index(record: &[u8], buffer: &mut [u8], at: usize) -> Result<usize, Refusal>
    ensures { BuildIndexIs «record».now buffer.old at result buffer.new }
{
    if 65535 < record.len() {
        return Err(Refusal::RecordTooLarge);
    }
    let counted = count_objects(record)?;
    write_index(record, buffer, at, counted)
}
