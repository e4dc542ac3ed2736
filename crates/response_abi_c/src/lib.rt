// What C and Rust programs link of the library `response_abi`: each function calls the one there that has its
// name, and promises the same. host/exports writes this file.
#![tactic(auto)]

ghost use Rattle.abi.specs.Answers.{NumbersWritten, ReplyCopied};
ghost use Rattle.response_abi.specs.Numbers.{split_reply, data_reply, Appended, StatusIs, NameIs};

// Writes 3 numbers: how many bytes of the response are data, SW1, SW2 (rule 13.1). Refused with 16 or 22.
#[unsafe(no_mangle)]
pub extern "C" fn gorvisclen_response_split(response: &[u8], out: &mut [u64]) -> u8
    ensures { NumbersWritten 3 (split_reply response.now) out.old result out.new }
{
    response_abi::gorvisclen_response_split(response, out)
}

// Copies the data of a response to the front of `to`, and writes how many bytes they are (rule 13.2). Refused with 16 or
// 22.
#[unsafe(no_mangle)]
pub extern "C" fn gorvisclen_response_data(response: &[u8], to: &mut [u8], out: &mut [u64]) -> u8
    ensures { ReplyCopied (data_reply response.now) to.old out.old result to.new out.new }
{
    response_abi::gorvisclen_response_data(response, to, out)
}

// Appends the data of a response to the room, behind the bytes that are held. Writes 3 numbers: how many bytes are held
// now, SW1, SW2 (rule 13.6). Refused with 16, 22 or 23.
#[unsafe(no_mangle)]
pub extern "C" fn gorvisclen_response_append(
    response: &[u8],
    held: usize,
    room: &mut [u8],
    out: &mut [u64],
) -> u8
    ensures { Appended response.now held room.old out.old result room.new out.new }
{
    response_abi::gorvisclen_response_append(response, held, room, out)
}

// Writes 3 numbers: the word of a status, its class (rule 13.4), and its place in the table of the 21 listed words, 256
// if it is not listed (rule 13.5). Refused with 16.
#[unsafe(no_mangle)]
pub extern "C" fn gorvisclen_status(sw1: u8, sw2: u8, out: &mut [u64]) -> u8
    ensures { StatusIs sw1 sw2 out.old result out.new }
{
    response_abi::gorvisclen_status(sw1, sw2, out)
}

// Copies the name of a status to the front of `to`, and writes how many bytes it has: none if it is not listed (rule
// 13.5). Refused with 16.
#[unsafe(no_mangle)]
pub extern "C" fn gorvisclen_status_name(sw1: u8, sw2: u8, to: &mut [u8], out: &mut [u64]) -> u8
    ensures { NameIs sw1 sw2 to.old out.old result to.new out.new }
{
    response_abi::gorvisclen_status_name(sw1, sw2, to, out)
}
