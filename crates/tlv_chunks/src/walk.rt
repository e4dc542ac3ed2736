// The walk of a record that comes in chunks (rules 18.1 to 18.8).
ghost use Rattle.std.specs.Prelude.{◌≤◌, length};
ghost use Rattle.tlv_chunks.specs.Call.{Says, answer_call, stopped_call, head_call, rest_call, value_call, NewIs, TakeIs, CloseIs};

use crate::header::{Header, HeaderByte, first_byte, next_byte};
use tlv::Stop;

// Where the walk is. Boundary: no byte of an object is read. Header: in a header, of which one byte or more is read.
// Value: in a value, of which so many bytes and one more are missing. Stopped: with 11 or 12; with 12 also because the
// record was closed in an object. It depends on the bytes so far alone (rule 18.5).
#[derive(Clone, Copy)]
pub enum ChunkWalk {
    Boundary,
    Header(Header),
    Value(u16),
    Stopped(Stop),
}

// What is replied to a chunk. NeedMore: nothing yet, and the chunk is used up. Head: a tag, and the length of its
// value, which is not 0. Empty: a tag with a value of no bytes, head and end in one. ValueEnd: the value is complete.
#[derive(Clone, Copy)]
pub enum TakeChunk {
    NeedMore,
    Head(u32, u16),
    Empty(u32),
    ValueEnd,
}

// The answer to a chunk, or 11 or 12; how many of its bytes were taken, and the walk after them.
#[derive(Clone, Copy)]
pub struct ChunkTaken {
    pub answer: Result<TakeChunk, Stop>,
    pub taken: usize,
    pub walk: ChunkWalk,
}

// The functions of `take` are inlined, so that an answer stays in registers: in memory it takes longer than the call.

// An answer, after so many bytes of the chunk, and the walk then.
fn answered(answer: TakeChunk, taken: usize, walk: ChunkWalk) -> ChunkTaken
    ensures { Says (answer_call answer taken walk) result }
{
    ChunkTaken {
        answer: Ok(answer),
        taken,
        walk,
    }
}

// The walk has stopped, after so many bytes of the chunk.
fn stopped(stop: Stop, taken: usize) -> ChunkTaken
    ensures { Says (stopped_call stop taken) result }
{
    ChunkTaken {
        answer: Err(stop),
        taken,
        walk: ChunkWalk::Stopped(stop),
    }
}

// A header is complete after so many bytes: the value follows, or it has no bytes and is complete too (rule 18.3).
#[inline(always)]
fn head(tag: u32, len: u16, taken: usize) -> ChunkTaken
    ensures { Says (head_call tag len taken) result }
{
    if len == 0 {
        return answered(TakeChunk::Empty(tag), taken, ChunkWalk::Boundary);
    }
    answered(TakeChunk::Head(tag, len), taken, ChunkWalk::Value(len - 1))
}

// The bytes of a header from a place of the chunk on.
#[inline(always)]
fn header_bytes(header: Header, chunk: &[u8], from: usize) -> ChunkTaken
    requires { from ≤ length chunk.now }
    ensures { Says (rest_call header chunk.now from) result }
{
    let mut header = header;
    for at in from..chunk.len() {
        match next_byte(header, chunk[at]) {
            Ok(HeaderByte::More(longer)) => {
                header = longer;
            }
            Ok(HeaderByte::Complete(tag, len)) => {
                return head(tag, len, at + 1);
            }
            Err(stop) => {
                return stopped(stop, at + 1);
            }
        }
    }
    answered(TakeChunk::NeedMore, chunk.len(), ChunkWalk::Header(header))
}

// The bytes of a chunk that starts where an object may start.
#[tactic(auto, using(crate::proofs::Calls::no_byte, crate::proofs::Calls::header_starts))]
#[inline(always)]
fn object_bytes(chunk: &[u8]) -> ChunkTaken
    ensures { TakeIs ChunkWalk.Boundary chunk.now result }
{
    if chunk.is_empty() {
        return answered(TakeChunk::NeedMore, 0, ChunkWalk::Boundary);
    }
    header_bytes(first_byte(chunk[0]), chunk, 1)
}

// The bytes of a value in a chunk of `len` bytes, in one step: none of them is looked at (rule 18.8).
#[tactic(auto, unfolding(crate::specs::Call::value_call))]
#[inline(always)]
fn value_bytes(more: u16, len: usize) -> ChunkTaken
    ensures { Says (value_call more len) result }
{
    let more = usize::from(more);
    if len <= more {
        return answered(
            TakeChunk::NeedMore,
            len,
            ChunkWalk::Value((more - len) as u16),
        );
    }
    answered(TakeChunk::ValueEnd, more + 1, ChunkWalk::Boundary)
}

impl ChunkWalk {
    // A walk before the first byte of a record.
    pub fn new() -> Self
        ensures { NewIs result }
    {
        Self::Boundary
    }

    // Takes bytes of a chunk up to the next reply. The rest of the chunk is handed in again, until more bytes are
    // needed or the reply is a refusal (rule 18.1). A walk that has stopped gives its number again, and nothing changes
    // (rule 18.7).
    #[tactic(auto, unfolding(crate::specs::Call::take_of), using(crate::proofs::Calls::from_the_start, crate::proofs::Calls::value_in_one_step))]
    pub fn take(self, chunk: &[u8]) -> ChunkTaken
        ensures { TakeIs self chunk.now result }
    {
        match self {
            ChunkWalk::Boundary => object_bytes(chunk),
            ChunkWalk::Header(header) => header_bytes(header, chunk, 0),
            ChunkWalk::Value(more) => value_bytes(more, chunk.len()),
            ChunkWalk::Stopped(stop) => stopped(stop, 0),
        }
    }

    // No bytes come any more: 11 at a boundary, 12 in an object (rule 18.6).
    pub fn close(self) -> ChunkTaken
        ensures { CloseIs self result }
    {
        match self {
            ChunkWalk::Boundary => stopped(Stop::End, 0),
            ChunkWalk::Header(_) | ChunkWalk::Value(_) => stopped(Stop::Unreadable, 0),
            ChunkWalk::Stopped(stop) => stopped(stop, 0),
        }
    }
}
