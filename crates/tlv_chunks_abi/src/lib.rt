// What a host program calls for a record that comes in chunks (rule 18.10). The state of a walk goes into a call and
// out of it as three numbers: kind, tag and number. Each function returns 0, or the number of a refusal, and writes 8
// numbers to the front of the slice `out`, with 11 and 12 too. If `out` is too short nothing is written: 16, but 11 and
// 12 are returned all the same (rule 1.22).
#![tactic(auto)]

ghost use Rattle.std.specs.Prelude.{◌≡◌};
ghost use Rattle.tlv_chunks.specs.Call.{events_of};
ghost use Rattle.tlv_chunks_abi.specs.Numbers.{length_by_numbers, header_by_numbers, walk_by_numbers, header_numbers, walk_numbers};
ghost use Rattle.tlv_chunks_abi.specs.Numbers.{told_status, told_numbers, AnswerTold, ChunkTold, CloseTold};

use abi::tell_row;
use tlv::Stop;
use tlv_chunks::{ChunkTaken, ChunkWalk, Header, TakeChunk};

// The header that three numbers stand for, after its tag. Kind 4: the tag and 81 were read; 5: the tag and 82; 6: the
// tag, 82 and the low byte of the number.
#[tactic(auto, unfolding(crate::specs::Numbers::length_by_numbers))]
fn length_by_numbers(kind: u8, tag: u32, number: u16) -> Header
    ensures { result ≡ length_by_numbers kind tag number }
{
    let [_, low] = number.to_be_bytes();
    match kind {
        4 => Header::Length81(tag),
        5 => Header::Length82(tag),
        _ => Header::Length82High(tag, low),
    }
}

// The header that three numbers stand for. Kind 1: the low byte of the tag was read; 2: its two low bytes, the high one
// first; 3: the whole tag; 4 to 6: more.
#[tactic(auto, unfolding(crate::specs::Numbers::header_by_numbers))]
fn header_by_numbers(kind: u8, tag: u32, number: u16) -> Header
    ensures { result ≡ header_by_numbers kind tag number }
{
    let [_, _, high, low] = tag.to_be_bytes();
    match kind {
        1 => Header::Tag1(low),
        2 => Header::Tag2(high, low),
        3 => Header::Tag(tag),
        _ => length_by_numbers(kind, tag, number),
    }
}

// The state that three numbers stand for. Kind 0: at a boundary; 1 to 6: in a header; 7: in a value, of which as many
// bytes as the number says and one more are missing; 8: stopped with 11; 9 and above: stopped with 12. So any three
// numbers are a state.
#[tactic(auto, unfolding(crate::specs::Numbers::walk_by_numbers))]
fn walk_by_numbers(kind: u8, tag: u32, number: u16) -> ChunkWalk
    ensures { result ≡ walk_by_numbers kind tag number }
{
    match kind {
        0 => ChunkWalk::Boundary,
        1..=6 => ChunkWalk::Header(header_by_numbers(kind, tag, number)),
        7 => ChunkWalk::Value(number),
        8 => ChunkWalk::Stopped(Stop::End),
        _ => ChunkWalk::Stopped(Stop::Unreadable),
    }
}

// The three numbers of a header: its kind, its tag as a number, and the byte after 82, or 0.
fn header_numbers(header: Header) -> [u64; 3]
    ensures { result ≡ header_numbers header }
{
    match header {
        Header::Tag1(b1) => [1, u64::from(b1), 0],
        Header::Tag2(b1, b2) => [2, u64::from(u16::from_be_bytes([b1, b2])), 0],
        Header::Tag(tag) => [3, u64::from(tag), 0],
        Header::Length81(tag) => [4, u64::from(tag), 0],
        Header::Length82(tag) => [5, u64::from(tag), 0],
        Header::Length82High(tag, high) => [6, u64::from(tag), u64::from(high)],
    }
}

// The three numbers of a state: 0 for what a state of its kind has not.
fn walk_numbers(walk: ChunkWalk) -> [u64; 3]
    ensures { result ≡ walk_numbers walk }
{
    match walk {
        ChunkWalk::Boundary => [0, 0, 0],
        ChunkWalk::Header(header) => header_numbers(header),
        ChunkWalk::Value(more) => [7, 0, u64::from(more)],
        ChunkWalk::Stopped(Stop::End) => [8, 0, 0],
        ChunkWalk::Stopped(Stop::Unreadable) => [9, 0, 0],
    }
}

// The status of an answer: 11 and 12 if the walk has stopped, else 0.
fn told_status(answer: Result<TakeChunk, Stop>) -> u8
    ensures { result ≡ told_status (events_of answer) }
{
    match answer {
        Ok(_) => 0,
        Err(stop) => stop.number(),
    }
}

// The first four numbers of an answer: 1 if a header is complete, 1 if a value is complete, the tag, the length.
fn told_numbers(answer: Result<TakeChunk, Stop>) -> [u64; 4]
    ensures { result ≡ told_numbers (events_of answer) }
{
    match answer {
        Ok(TakeChunk::NeedMore) => [0, 0, 0, 0],
        Ok(TakeChunk::Head(tag, len)) => [1, 0, u64::from(tag), u64::from(len)],
        Ok(TakeChunk::Empty(tag)) => [1, 1, u64::from(tag), 0],
        Ok(TakeChunk::ValueEnd) => [0, 1, 0, 0],
        Err(_) => [0, 0, 0, 0],
    }
}

// Writes the 8 numbers of an answer: its first four, how many bytes were taken, and the three of the state after them.
// Inlined, so that the answer stays in registers.
#[tactic(auto, using(crate::proofs::Rows::row_said, crate::proofs::Rows::row_told))]
#[inline(always)]
fn tell_answer(call: ChunkTaken, out: &mut [u64]) -> u8
    ensures { AnswerTold call out.old result out.new }
{
    let [head, end, tag, len] = told_numbers(call.answer);
    let [kind, state_tag, number] = walk_numbers(call.walk);
    let row = [
        head,
        end,
        tag,
        len,
        call.taken as u64,
        kind,
        state_tag,
        number,
    ];
    tell_row(told_status(call.answer), &row, out)
}

// Takes bytes of a chunk up to the next reply, or all of them (rules 18.1 to 18.4). Writes 8 numbers: 1 if a header is
// complete, else 0; 1 if a value is complete, else 0; the tag and the length of its value, or 0 and 0; how many bytes
// were taken; the three of the state after them. Refused with 11 and 12, which write the 8 numbers too, and with 16.
#[tactic(auto, using(crate::proofs::Rows::chunk_told))]
#[unsafe(no_mangle)]
pub extern "C" fn gorvisclen_take_chunk(
    kind: u8,
    tag: u32,
    number: u16,
    chunk: &[u8],
    out: &mut [u64],
) -> u8
    ensures { ChunkTold kind tag number chunk.now out.old result out.new }
{
    tell_answer(walk_by_numbers(kind, tag, number).take(chunk), out)
}

// Closes the walk, when no bytes come any more (rules 18.6 and 18.7). Writes the same 8 numbers: five zeros, and the
// state, which has stopped. Refused with 11 at a boundary, or if the walk has stopped with 11, and otherwise with 12.
#[tactic(auto, using(crate::proofs::Rows::close_told))]
#[unsafe(no_mangle)]
pub extern "C" fn gorvisclen_close_chunks(kind: u8, tag: u32, number: u16, out: &mut [u64]) -> u8
    ensures { CloseTold kind tag number out.old result out.new }
{
    tell_answer(walk_by_numbers(kind, tag, number).close(), out)
}
