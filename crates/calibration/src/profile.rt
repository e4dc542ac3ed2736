// A calibration record read: exactly E1 with C1, C2 and C3 in that order (rules 19.1, 19.2 and 19.5).
ghost use Rattle.std.specs.Prelude.{◌≡◌, ◌+◌, ◌≤◌, length, take, drop};
ghost use Rattle.calibration.specs.Profile.{is_profile, head_test, heads_test, serial_len, ReadProfileIs, SerialIs};

use crate::date::{Date, read_date};
use basis::Refusal;

// The fields of a record: how many bytes the serial has, which stands at place 4; the due date; the capacity in
// milligrams.
#[derive(Clone, Copy)]
pub struct Profile {
    pub serial: usize,
    pub due: Date,
    pub capacity: u32,
}

// Whether a tag and a length of one byte each stand at a place.
fn is_head(record: &[u8], at: usize, tag: u8, len: u8) -> bool
    requires { at + 2 ≤ length «record».now }
    ensures { result ≡ head_test «record».now at tag len }
{
    record[at] == tag && record[at + 1] == len
}

// Whether the four heads of a record whose serial has all its bytes but 16 stand at their places.
fn has_heads(record: &[u8]) -> bool
    requires { (17 ≤ length «record».now) × (length «record».now ≤ 32) }
    ensures { result ≡ heads_test «record».now (serial_len «record».now) }
{
    let n = record.len() - 16;
    is_head(record, 0, 0xE1, (n + 14) as u8)
        && is_head(record, 2, 0xC1, n as u8)
        && is_head(record, n + 4, 0xC2, 4)
        && is_head(record, n + 10, 0xC3, 4)
}

// Whether bytes are of the form `E1 (n + 14) C1 n (serial of n) C2 04 (date) C3 04 (capacity)`, n from 1 to 16, with
// nothing before, between or behind (rule 19.1).
#[tactic(auto, using(crate::proofs::Form::other_size, crate::proofs::Form::by_heads))]
fn is_profile(record: &[u8]) -> bool
    ensures { result ≡ is_profile «record».now }
{
    (17..=32).contains(&record.len()) && has_heads(record)
}

// The four bytes at a place.
fn four_at(record: &[u8], at: usize) -> [u8; 4]
    requires { at + 4 ≤ length «record».now }
    ensures { result ≡ take 4 (drop at «record».now) }
{
    [record[at], record[at + 1], record[at + 2], record[at + 3]]
}

// Reads a record (rules 19.1 to 19.5): 26 if the bytes are not of its form, which is tested whole, then 27 if there is
// no such date.
pub fn read_profile(record: &[u8]) -> Result<Profile, Refusal>
    ensures { ReadProfileIs «record».now result }
{
    if !is_profile(record) {
        return Err(Refusal::NotAProfile);
    }
    let serial = record.len() - 16;
    let at = serial + 6;
    let Some(due) = read_date(four_at(record, at)) else {
        return Err(Refusal::NoSuchDate);
    };
    Ok(Profile {
        serial,
        due,
        capacity: u32::from_be_bytes(four_at(record, at + 6)),
    })
}

// The serial, as that very part of the record; no bytes if the record is refused (rule 19.2).
pub fn serial<'a>(record: &'a [u8]) -> &'a [u8]
    ensures { SerialIs «record».now result.now }
{
    match read_profile(record) {
        Ok(profile) => &record[4..4 + profile.serial],
        Err(_) => &record[..0],
    }
}
