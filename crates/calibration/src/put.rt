// A calibration record written into a lent buffer from a place (rule 19.9).
ghost use Rattle.std.specs.Prelude.{◌≡◌, true, [], ◌∷◌, ◌+◌, ◌≤◌, length};
ghost use Rattle.basis.specs.Over.{over, over_at};
ghost use Rattle.calibration.specs.Date.{is_real};
ghost use Rattle.calibration.specs.Profile.{object, fields, record_of};
ghost use Rattle.calibration.specs.Put.{PutProfileIs};

use crate::date::{Date, date_bytes, is_real};
use basis::Refusal;

// Writes the first four bytes of a record over the front of a part: the template and its length, the serial's tag and
// its length.
fn put_front(n: usize, part: &mut [u8])
    requires { (n ≤ 16) × (4 ≤ length part.old) }
    ensures { part.new ≡ over (0xE1 ∷ (n + 14) ∷ 0xC1 ∷ n ∷ []) part.old }
{
    part[..4].copy_from_slice(&[0xE1, (n + 14) as u8, 0xC1, n as u8]);
}

// Writes an object with a value of four bytes over the front of a part.
fn put_object(tag: u8, value: [u8; 4], part: &mut [u8])
    requires { 6 ≤ length part.old }
    ensures { part.new ≡ over (object tag value) part.old }
{
    part[..2].copy_from_slice(&[tag, 4]);
    part[2..6].copy_from_slice(&value);
}

// Writes a record that fits: each of its fields into the part of the buffer that starts at its place.
fn write(serial: &[u8], due: Date, capacity: u32, buffer: &mut [u8], at: usize)
    requires { (length serial.now ≤ 16) × (is_real due ≡ true) × (at + (length serial.now + 16) ≤ length buffer.old) }
    ensures { buffer.new ≡ over_at at (record_of (fields serial.now due capacity)) buffer.old }
{
    let n = serial.len();
    let at_serial = at + 4;
    let at_due = at_serial + n;
    let at_capacity = at_due + 6;
    put_front(n, &mut buffer[at..]);
    buffer[at_serial..at_serial + n].copy_from_slice(serial);
    put_object(0xC2, date_bytes(due), &mut buffer[at_due..]);
    put_object(0xC3, capacity.to_be_bytes(), &mut buffer[at_capacity..]);
}

// Writes the record of these fields into a buffer from a place, and says how many bytes it has. Bytes before it and
// after it stay. A refusal changes nothing: 26 if the serial has no bytes or more than 16, then 27 if there is no such
// date, then 16 if the record does not fit.
#[tactic(auto, using(crate::proofs::Written::no_serial, crate::proofs::Written::no_date, crate::proofs::Written::no_room, crate::proofs::Written::written))]
pub fn put_profile(
    serial: &[u8],
    due: Date,
    capacity: u32,
    buffer: &mut [u8],
    at: usize,
) -> Result<usize, Refusal>
    ensures { PutProfileIs (fields serial.now due capacity) buffer.old at result buffer.new }
{
    let n = serial.len();
    if n < 1 || 16 < n {
        return Err(Refusal::NotAProfile);
    }
    if !is_real(due) {
        return Err(Refusal::NoSuchDate);
    }
    if buffer.len() < at || buffer.len() - at < n + 16 {
        return Err(Refusal::DoesNotFit);
    }
    write(serial, due, capacity, buffer, at);
    Ok(n + 16)
}
