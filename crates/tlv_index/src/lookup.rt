// A lookup through an index (rules 17.7 to 17.10).
ghost use Rattle.std.specs.Prelude.{◌≡◌, true, ◌+◌, ◌≤◌, length, drop};
ghost use Rattle.tlv.specs.Object.{stop_of};
ghost use Rattle.tlv.specs.Lookup.{follow, sought_reply, as_reply};
ghost use Rattle.tlv.specs.declared.Reading.TheVariants.{Crate};
ghost use Rattle.tlv_index.specs.File.{field, end_count, file_size, is_reason, stop_in, index_in};
ghost use Rattle.tlv_index.specs.Lookup.{first_entry, used_in, indexed_reply, GetIndexedIs};

use crate::file::{IndexFile, check_index};
use crate::numbers::number_at;
use basis::Refusal;
use tlv::{Found, Halt, Reading, Span, Stop, StopAt, get_data_object};

impl<'a> IndexFile<'a> {
    // The end that the index keeps.
    #[tactic(auto, using(crate::proofs::Files::reason_12), unfolding(crate::specs::File::stop_in))]
    fn kept_stop(self) -> StopAt
        requires { is_reason (field 2 (end_count 2 self.n + 2) self.bytes.now) ≡ true }
        ensures { stop_of result ≡ stop_in 2 self.entry.n self.entry.bytes.now }
    {
        let place = number_at::<2>(self.bytes, 10 + 7 * self.n);
        let stop = if number_at::<2>(self.bytes, 8 + 7 * self.n) == 11 {
            Stop::End
        } else {
            Stop::Unreadable
        };
        StopAt { stop, place }
    }

    // The place of the value of the first entry with the tag, and its length; the end that is kept if there is none
    // (rule 17.7).
    #[tactic(auto, using(crate::proofs::Entries::entry_here, crate::proofs::Entries::entry_next, crate::proofs::Entries::entry_none), unfolding(crate::specs::File::index_in))]
    fn seek_entry(self, tag: u32) -> Result<Span, StopAt>
        requires { is_reason (field 2 (end_count 2 self.n + 2) self.bytes.now) ≡ true }
        ensures { sought_reply result ≡ first_entry tag (index_in 2 self.entry.n self.entry.bytes.now).entries (index_in 2 self.entry.n self.entry.bytes.now).stop }
    {
        let sought = tag as usize;
        for i in 0..self.n {
            if number_at::<3>(self.bytes, 2 + 3 * i) == sought {
                let at = number_at::<2>(self.bytes, 4 + 3 * self.n + 2 * i);
                let len = number_at::<2>(self.bytes, 6 + 5 * self.n + 2 * i);
                return Ok(Span { at, len });
            }
        }
        Err(self.kept_stop())
    }
}

// The rest of a path, after its first tag, followed from the value at a place of the record.
// Inlined, as `used_in` is, so that the answer stays in registers.
#[inline(always)]
fn enter(record: &[u8], value: Span, path: &[u32]) -> Result<Found, Halt>
    requires { (value.at + value.len ≤ length «record».now) × (1 ≤ length path.now) }
    ensures { as_reply result ≡ follow Crate «record».now 1 (record { at = value.at; len = value.len }) (drop 1 path.now) }
{
    let end = value.at + value.len;
    match get_data_object(Reading::Crate, &record[value.at..end], &path[1..]) {
        Ok(found) => Ok(Found {
            at: value.at + found.at,
            matched: 1 + found.matched,
            ..found
        }),
        Err(halt) => Err(Halt {
            place: value.at + halt.place,
            matched: 1 + halt.matched,
            ..halt
        }),
    }
}

// The lookup of a path that is not empty, from the entry used on (rules 17.8 and 17.9).
#[inline(always)]
fn used_in(
    sought: Result<Span, StopAt>,
    record: &[u8],
    path: &[u32],
) -> Result<Result<Found, Halt>, Refusal>
    requires { 1 ≤ length path.now }
    ensures { indexed_reply result ≡ used_in Crate «record».now (drop 1 path.now) (sought_reply sought) }
{
    let size = record.len();
    match sought {
        Ok(value) => {
            if value.at <= size && value.len <= size - value.at {
                return Ok(enter(record, value, path));
            }
        }
        Err(end) => {
            if end.place <= size {
                return Ok(Err(Halt {
                    stop: end.stop,
                    place: end.place,
                    matched: 0,
                }));
            }
        }
    }
    Err(Refusal::NotAnIndex)
}

// The lookup of a path through the index in a file (rule 17.10): where the value stands in the record or where the
// lookup ended, as in a lookup without an index. Refused if the file has another form, or if the entry used lies
// outside of the record (25). An empty path leads to the whole record.
#[tactic(auto, using(crate::proofs::Entries::indexed_refused, crate::proofs::Entries::indexed_empty, crate::proofs::Entries::indexed_used, crate::proofs::Entries::entries_of_file))]
pub fn get_indexed(file: &[u8], record: &[u8], path: &[u32]) -> Result<Result<Found, Halt>, Refusal>
    ensures { GetIndexedIs file.now «record».now path.now result }
{
    let n = check_index(file)?;
    if path.is_empty() {
        return Ok(Ok(Found {
            at: 0,
            len: record.len(),
            matched: 0,
        }));
    }
    let index = IndexFile { bytes: file, n };
    used_in(index.seek_entry(path[0]), record, path)
}
