// What C and Rust programs link of the library `calibration_abi`: each function calls the one there that has its
// name, and promises the same. host/exports writes this file.
#![tactic(auto)]

ghost use Rattle.abi.specs.Answers.{NumbersWritten, ReplyCopied};
ghost use Rattle.calibration_abi.specs.Numbers.{read_reply, serial_reply, date_by, lapsed_reply, shown_reply, shown_from_reply, fields_by, ProfilePut};

// Reads a record, and writes its 5 numbers (rules 19.5 and 19.12). Refused with 16, then 26, then 27.
#[unsafe(no_mangle)]
pub extern "C" fn gorvisclen_read_profile(record: &[u8], out: &mut [u64]) -> u8
    ensures { NumbersWritten 5 (read_reply «record».now) out.old result out.new }
{
    calibration_abi::gorvisclen_read_profile(record, out)
}

// Copies the serial of a record to the front of `to`, and writes how many bytes it has (rules 19.2 and 19.12). Refused
// with 16 if `out` is too short, then 26, 27, then 16 if `to` is too short.
#[unsafe(no_mangle)]
pub extern "C" fn gorvisclen_profile_serial(record: &[u8], to: &mut [u8], out: &mut [u64]) -> u8
    ensures { ReplyCopied (serial_reply «record».now) to.old out.old result to.new out.new }
{
    calibration_abi::gorvisclen_profile_serial(record, to, out)
}

// Writes 1 if the calibration has lapsed on a date, and 0 if not (rules 19.6 and 19.12). Refused with 16, then 26 and
// 27 of the record, then 27 if there is no such date.
#[unsafe(no_mangle)]
pub extern "C" fn gorvisclen_has_lapsed(
    record: &[u8],
    year: u32,
    month: u32,
    day: u32,
    out: &mut [u64],
) -> u8
    ensures { NumbersWritten 1 (lapsed_reply «record».now (date_by year month day)) out.old result out.new }
{
    calibration_abi::gorvisclen_has_lapsed(record, year, month, day, out)
}

// Copies the four bytes of the due date shown to the front of `to`, and writes how many they are (rules 19.7 and
// 19.12). Refused with 16 if `out` is too short, then as the desk's record if both are refused, then with 16 if `to` is
// too short.
#[unsafe(no_mangle)]
pub extern "C" fn gorvisclen_due_shown<'a>(
    card: &'a [u8],
    desk: &'a [u8],
    to: &mut [u8],
    out: &mut [u64],
) -> u8
    ensures { ReplyCopied (shown_reply card.now desk.now) to.old out.old result to.new out.new }
{
    calibration_abi::gorvisclen_due_shown(card, desk, to, out)
}

// Writes 2 numbers: whose due date is shown, 0 the card's, 1 the desk's, and its place in that record (rules 19.8 and
// 19.12). Refused with 16, then as the desk's record if both are refused.
#[unsafe(no_mangle)]
pub extern "C" fn gorvisclen_due_shown_from(card: &[u8], desk: &[u8], out: &mut [u64]) -> u8
    ensures { NumbersWritten 2 (shown_from_reply card.now desk.now) out.old result out.new }
{
    calibration_abi::gorvisclen_due_shown_from(card, desk, out)
}

// Writes the record of a serial, a due date and a capacity into the buffer from a place, and writes to `out` how many
// bytes it has (rules 19.9 and 19.12). If `out` is too short nothing is written: 16; then 26, 27, then 16 if the record
// does not fit.
#[unsafe(no_mangle)]
pub extern "C" fn gorvisclen_put_profile(
    serial: &[u8],
    year: u32,
    month: u32,
    day: u32,
    capacity: u32,
    buffer: &mut [u8],
    at: usize,
    out: &mut [u64],
) -> u8
    ensures { ProfilePut (fields_by serial.now year month day capacity) at buffer.old out.old result buffer.new out.new }
{
    calibration_abi::gorvisclen_put_profile(serial, year, month, day, capacity, buffer, at, out)
}
