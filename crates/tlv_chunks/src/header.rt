// The header of an object, tag and length, byte by byte (rule 18.2).
ghost use Rattle.std.specs.Prelude.{◌≡◌};
ghost use Rattle.tlv_chunks.specs.Header.{first_of, byte_of};

use tlv::{Stop, crate_tag_size, crate_third_byte};

// What was read of a header: the first byte of a tag that has more; its first two bytes, of three; the whole tag; the
// tag and 81; the tag and 82; the tag, 82 and one byte. A whole tag is kept as its number.
#[derive(Clone, Copy)]
pub enum Header {
    Tag1(u8),
    Tag2(u8, u8),
    Tag(u32),
    Length81(u32),
    Length82(u32),
    Length82High(u32, u8),
}

// A header and one byte more: it goes on; it is complete, with its tag and its length.
#[derive(Clone, Copy)]
pub enum HeaderByte {
    More(Header),
    Complete(u32, u16),
}

// The first byte of a tag: its low five bits, all set, ask for a second.
#[tactic(auto, unfolding(crate::specs::Header::first_of))]
pub(crate) fn first_byte(b1: u8) -> Header
    ensures { result ≡ first_of b1 }
{
    if b1 % 32 == 31 {
        return Header::Tag1(b1);
    }
    Header::Tag(u32::from(b1))
}

// The second byte of a tag, by its ranges in the crate `tlv`.
#[tactic(auto, unfolding(crate::specs::Header::byte_of, crate::specs::Header::second_of))]
fn second_byte(b1: u8, b2: u8) -> Result<HeaderByte, Stop>
    ensures { result ≡ byte_of (Header.Tag1 b1) b2 }
{
    match crate_tag_size(b2) {
        0 => Err(Stop::Unreadable),
        2 => Ok(HeaderByte::More(Header::Tag(u32::from_be_bytes([0, 0, b1, b2])))),
        _ => Ok(HeaderByte::More(Header::Tag2(b1, b2))),
    }
}

// The third byte of a tag, likewise.
#[tactic(auto, unfolding(crate::specs::Header::byte_of, crate::specs::Header::third_of))]
fn third_byte(b1: u8, b2: u8, b3: u8) -> Result<HeaderByte, Stop>
    ensures { result ≡ byte_of (Header.Tag2 b1 b2) b3 }
{
    if crate_third_byte(b3) {
        Ok(HeaderByte::More(Header::Tag(u32::from_be_bytes([0, b1, b2, b3]))))
    } else {
        Err(Stop::Unreadable)
    }
}

// The first byte of a length.
#[tactic(auto, unfolding(crate::specs::Header::byte_of, crate::specs::Header::length_of))]
fn first_of_length(tag: u32, l1: u8) -> Result<HeaderByte, Stop>
    ensures { result ≡ byte_of (Header.Tag tag) l1 }
{
    match l1 {
        0x00..=0x7F => Ok(HeaderByte::Complete(tag, u16::from(l1))),
        0x81 => Ok(HeaderByte::More(Header::Length81(tag))),
        0x82 => Ok(HeaderByte::More(Header::Length82(tag))),
        _ => Err(Stop::Unreadable),
    }
}

// Any byte of a header after its first.
#[tactic(auto, unfolding(crate::specs::Header::byte_of))]
#[inline(always)]
pub(crate) fn next_byte(header: Header, b: u8) -> Result<HeaderByte, Stop>
    ensures { result ≡ byte_of header b }
{
    match header {
        Header::Tag1(b1) => second_byte(b1, b),
        Header::Tag2(b1, b2) => third_byte(b1, b2, b),
        Header::Tag(tag) => first_of_length(tag, b),
        Header::Length81(tag) => Ok(HeaderByte::Complete(tag, u16::from(b))),
        Header::Length82(tag) => Ok(HeaderByte::More(Header::Length82High(tag, b))),
        Header::Length82High(tag, high) => {
            Ok(HeaderByte::Complete(tag, u16::from_be_bytes([high, b])))
        }
    }
}
