// What a host program calls of the crate `calibration`, in numbers (rule 19.12). Each function returns 0, or the number
// of a refusal (docs/RULES.md, section 1). It writes its numbers to the front of the slice `out`, unless it refuses. If
// `out` is too short: 16, before 26 and 27.
#![tactic(auto)]

ghost use Rattle.std.specs.Prelude.{◌≡◌};
ghost use Rattle.abi.specs.Answers.{NumbersWritten, ReplyCopied};
ghost use Rattle.calibration_abi.specs.Numbers.{date_by, profile_numbers, read_reply, serial_reply, lapsed_reply};
ghost use Rattle.calibration_abi.specs.Numbers.{shown_reply, shown_from_reply, fields_by, ProfilePut};

use abi::{copy_bytes, flag, refusal_status, write_numbers};
use calibration::{
    Date, DueShownFrom, Profile, due_shown, due_shown_from, has_lapsed, put_profile, read_profile,
    serial,
};

// The five numbers of a record (rule 19.12): how many bytes the serial has; the year, the month and the day of the due
// date; the capacity in milligrams.
#[tactic(auto, unfolding(crate::specs::Numbers::profile_numbers))]
fn profile_numbers(profile: Profile) -> [u64; 5]
    ensures { result ≡ profile_numbers profile }
{
    let Date { year, month, day } = profile.due;
    [
        profile.serial as u64,
        year.into(),
        month.into(),
        day.into(),
        profile.capacity.into(),
    ]
}

// Reads a record, and writes its 5 numbers (rules 19.5 and 19.12). Refused with 16, then 26, then 27.
#[tactic(auto, unfolding(crate::specs::Numbers::profile_numbers), using(crate::proofs::Replies::numbers_by, abi::proofs::AnswerLaws::refusal_written))]
#[unsafe(no_mangle)]
pub extern "C" fn gorvisclen_read_profile(record: &[u8], out: &mut [u64]) -> u8
    ensures { NumbersWritten 5 (read_reply «record».now) out.old result out.new }
{
    match read_profile(record) {
        Ok(profile) => write_numbers(&profile_numbers(profile), out),
        Err(refusal) => refusal_status(refusal.number(), out.len(), 5),
    }
}

// Copies the serial of a record to the front of `to`, and writes how many bytes it has (rules 19.2 and 19.12). Refused
// with 16 if `out` is too short, then 26, 27, then 16 if `to` is too short.
#[tactic(auto, using(crate::proofs::Replies::serial_of))]
#[unsafe(no_mangle)]
pub extern "C" fn gorvisclen_profile_serial(record: &[u8], to: &mut [u8], out: &mut [u64]) -> u8
    ensures { ReplyCopied (serial_reply «record».now) to.old out.old result to.new out.new }
{
    match read_profile(record) {
        Ok(_) => copy_bytes(serial(record), to, out),
        Err(refusal) => refusal_status(refusal.number(), out.len(), 1),
    }
}

// Writes 1 if the calibration has lapsed on a date, and 0 if not (rules 19.6 and 19.12). Refused with 16, then 26 and
// 27 of the record, then 27 if there is no such date.
#[tactic(auto, using(crate::proofs::Replies::lapsed_by, abi::proofs::AnswerLaws::refusal_written))]
#[unsafe(no_mangle)]
pub extern "C" fn gorvisclen_has_lapsed(
    record: &[u8],
    year: u32,
    month: u32,
    day: u32,
    out: &mut [u64],
) -> u8
    ensures { NumbersWritten 1 (lapsed_reply «record».now (date_by year month day)) out.old result out.new }
{
    let on = Date { year, month, day };
    match has_lapsed(record, on) {
        Ok(lapsed) => write_numbers(&[flag(lapsed)], out),
        Err(refusal) => refusal_status(refusal.number(), out.len(), 1),
    }
}

// Copies the four bytes of the due date shown to the front of `to`, and writes how many they are (rules 19.7 and
// 19.12). Refused with 16 if `out` is too short, then as the desk's record if both are refused, then with 16 if `to` is
// too short.
#[tactic(auto, using(crate::proofs::Replies::shown_of))]
#[unsafe(no_mangle)]
pub extern "C" fn gorvisclen_due_shown<'a>(
    card: &'a [u8],
    desk: &'a [u8],
    to: &mut [u8],
    out: &mut [u64],
) -> u8
    ensures { ReplyCopied (shown_reply card.now desk.now) to.old out.old result to.new out.new }
{
    match due_shown_from(card, desk) {
        Ok(_) => copy_bytes(due_shown(card, desk), to, out),
        Err(refusal) => refusal_status(refusal.number(), out.len(), 1),
    }
}

// Writes 2 numbers: whose due date is shown, 0 the card's, 1 the desk's, and its place in that record (rules 19.8 and
// 19.12). Refused with 16, then as the desk's record if both are refused.
#[tactic(auto, using(crate::proofs::Replies::whose_by, abi::proofs::AnswerLaws::refusal_written))]
#[unsafe(no_mangle)]
pub extern "C" fn gorvisclen_due_shown_from(card: &[u8], desk: &[u8], out: &mut [u64]) -> u8
    ensures { NumbersWritten 2 (shown_from_reply card.now desk.now) out.old result out.new }
{
    match due_shown_from(card, desk) {
        Ok(DueShownFrom::Card(at)) => write_numbers(&[0, at as u64], out),
        Ok(DueShownFrom::Desk(at)) => write_numbers(&[1, at as u64], out),
        Err(refusal) => refusal_status(refusal.number(), out.len(), 2),
    }
}

// Writes the record of a serial, a due date and a capacity into the buffer from a place, and writes to `out` how many
// bytes it has (rules 19.9 and 19.12). If `out` is too short nothing is written: 16; then 26, 27, then 16 if the record
// does not fit.
#[tactic(auto, using(crate::proofs::Replies::no_row, crate::proofs::Replies::put_refused, crate::proofs::Replies::profile_written))]
#[unsafe(no_mangle)]
pub extern "C" fn gorvisclen_put_profile(
    serial: &[u8],
    year: u32,
    month: u32,
    day: u32,
    capacity: u32,
    buffer: &mut [u8],
    at: usize,
    out: &mut [u64],
) -> u8
    ensures { ProfilePut (fields_by serial.now year month day capacity) at buffer.old out.old result buffer.new out.new }
{
    if out.len() < 1 {
        return 16;
    }
    let due = Date { year, month, day };
    match put_profile(serial, due, capacity, buffer, at) {
        Ok(len) => write_numbers(&[len as u64], out),
        Err(refusal) => refusal.number(),
    }
}
