// BER objects written: the tag, the shortest length, and the value, each straight into the output (rule 12.15).
// Ported, with changes, from src/tlv.rs of the crate iso7816 0.2.2 (see NOTICE).
#![tactic(auto)]

ghost use Rattle.std.specs.Prelude.{◌≡◌, ◌+◌, ◌≤◌, length};
ghost use Rattle.basis.specs.Over.{over, over_at};
ghost use Rattle.tlv_write.specs.Written.{tag_bytes, len_bytes, object_bytes, PutDataObjectIs};

use basis::Refusal;

// How many bytes a tag takes without the zero bytes in front; the last byte stays (rule 7.1).
#[tactic(auto, using(crate::proofs::Shown::tag_one, crate::proofs::Shown::tag_two, crate::proofs::Shown::tag_three))]
fn tag_size(tag: [u8; 3]) -> usize
    ensures { (result ≡ length (tag_bytes tag)) × (result ≤ 3) }
{
    match tag {
        [0, 0, _] => 1,
        [0, _, _] => 2,
        _ => 3,
    }
}

// How many bytes a length takes in the shortest form (rule 7.2).
#[tactic(auto, using(crate::proofs::Shown::len_one, crate::proofs::Shown::len_two, crate::proofs::Shown::len_three))]
fn len_size(len: usize) -> usize
    requires { len ≤ 65535 }
    ensures { (result ≡ length (len_bytes len)) × (result ≤ 3) }
{
    match len {
        0x00..=0x7F => 1,
        0x80..=0xFF => 2,
        _ => 3,
    }
}

// Writes a tag without the zero bytes in front over the front of a part; the last byte stays (rule 7.1). Any three
// bytes are taken, and none is changed (rule 7.5).
// Stays: the bytes are stored one by one; `copy_from_slice` of one to three bytes would call memmove.
#[tactic(auto, using(crate::proofs::Shown::tag_written))]
fn put_tag(tag: [u8; 3], part: &mut [u8])
    requires { length (tag_bytes tag) ≤ length part.old }
    ensures { part.new ≡ over (tag_bytes tag) part.old }
{
    match tag {
        [0, 0, b3] => {
            part[0] = b3;
        }
        [0, b2, b3] => {
            part[0] = b2;
            part[1] = b3;
        }
        [b1, b2, b3] => {
            part[0] = b1;
            part[1] = b2;
            part[2] = b3;
        }
    }
}

// Writes a length in the shortest form over the front of a part (rule 7.2).
// Stays: its two bytes are taken one by one, since no scratch array, as that of `to_be_bytes`, holds them (rule 12.15).
#[tactic(auto, using(crate::proofs::Shown::len_written))]
fn put_len(n: usize, part: &mut [u8])
    requires { (n ≤ 65535) × (length (len_bytes n) ≤ length part.old) }
    ensures { part.new ≡ over (len_bytes n) part.old }
{
    match n {
        0x00..=0x7F => {
            part[0] = n as u8;
        }
        0x80..=0xFF => {
            part[0] = 0x81;
            part[1] = n as u8;
        }
        _ => {
            part[0] = 0x82;
            part[1] = (n / 256) as u8;
            part[2] = (n % 256) as u8;
        }
    }
}

// Writes a value over the front of a part.
fn put_value(value: &[u8], part: &mut [u8])
    requires { length value.now ≤ length part.old }
    ensures { part.new ≡ over value.now part.old }
{
    part[..value.len()].copy_from_slice(value);
}

// Writes an object that fits: tag, length and value, each into the part of the buffer that starts at its place.
fn write(tag: [u8; 3], value: &[u8], buffer: &mut [u8], at: usize)
    requires { (length value.now ≤ 65535)
        × (at + (length (tag_bytes tag) + length (len_bytes (length value.now)) + length value.now) ≤ length buffer.old) }
    ensures { buffer.new ≡ over_at at (object_bytes tag value.now) buffer.old }
{
    let n = value.len();
    put_tag(tag, &mut buffer[at..]);
    let at_len = at + tag_size(tag);
    put_len(n, &mut buffer[at_len..]);
    let at_value = at_len + len_size(n);
    put_value(value, &mut buffer[at_value..]);
}

// Writes an object into a buffer from a place (rule 7.3), and returns how many bytes were written. Bytes before it and
// after it stay. A refusal changes nothing: 19 if the value is above 65,535 bytes, 16 if the object does not fit.
#[tactic(auto, using(crate::proofs::Objects::too_long, crate::proofs::Objects::no_room, crate::proofs::Objects::written))]
pub fn put_data_object(
    tag: [u8; 3],
    value: &[u8],
    buffer: &mut [u8],
    at: usize,
) -> Result<usize, Refusal>
    ensures { PutDataObjectIs tag value.now buffer.old at result buffer.new }
{
    let n = value.len();
    if n > 65535 {
        return Err(Refusal::ValueTooLong);
    }
    let size = tag_size(tag) + len_size(n) + n;
    if buffer.len() < at || buffer.len() - at < size {
        return Err(Refusal::DoesNotFit);
    }
    write(tag, value, buffer, at);
    Ok(size)
}
