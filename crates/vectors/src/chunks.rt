// Lines with records in chunks: the replies to them, and the state after them (rules 18.1 to 18.7).
use crate::report::{Hex, Shown};
use crate::text;
use crate::text::Parts;
use std::fmt;
use std::fmt::Write;
use tlv::Stop;
use tlv_chunks::{ChunkWalk, Header, TakeChunk};

// Prints what is replied, with a comma after it; nothing if more bytes are needed.
fn show_answer(shown: &mut Shown<'_>, answer: Result<TakeChunk, Stop>) -> fmt::Result {
    match answer {
        Ok(TakeChunk::NeedMore) => Ok(()),
        Ok(TakeChunk::Head(tag, len)) => write!(shown, "head {tag:02x} {len}, "),
        Ok(TakeChunk::Empty(tag)) => write!(shown, "head {tag:02x} 0, end, "),
        Ok(TakeChunk::ValueEnd) => write!(shown, "end, "),
        Err(stop) => write!(shown, "refusal {}, ", stop.number()),
    }
}

// Hands in a chunk, and its rest after each answer, until it is used up. That takes at most one call more than it has
// bytes.
fn show_chunk(
    shown: &mut Shown<'_>,
    start: ChunkWalk,
    chunk: &[u8],
) -> Result<ChunkWalk, fmt::Error> {
    let mut walk = start;
    let mut rest = chunk;
    for _ in 0..=chunk.len() {
        let taken = walk.take(rest);
        walk = taken.walk;
        show_answer(shown, taken.answer)?;
        if matches!(taken.answer, Ok(TakeChunk::NeedMore) | Err(_)) {
            return Ok(walk);
        }
        rest = rest.get(taken.taken..).unwrap_or(&[]);
    }
    Ok(walk)
}

// Hands in the chunks of a line, with commas between them.
fn show_chunks(shown: &mut Shown<'_>, chunks: &[u8]) -> Result<ChunkWalk, fmt::Error> {
    let mut walk = ChunkWalk::new();
    for chunk in Parts::new(chunks, b',') {
        let mut space = [0u8; 600];
        walk = show_chunk(shown, walk, text::bytes(chunk, &mut space))?;
    }
    Ok(walk)
}

// A line: divided; name; chunks; expected.
pub(crate) fn divided(line: &[u8]) -> fmt::Result {
    let mut shown = Shown::start(text::field(line, 1), ": expected ", text::field(line, 3));
    let walk = show_chunks(&mut shown, text::field(line, 2))?;
    if let Err(stop) = walk.close().answer {
        write!(shown, "closed {}", stop.number())?;
    }
    shown.verdict()
}

// Prints the bytes that were read of a header.
fn show_header(shown: &mut Shown<'_>, header: Header) -> fmt::Result {
    match header {
        Header::Tag1(b1) => write!(shown, "{}", Hex(&[b1])),
        Header::Tag2(b1, b2) => write!(shown, "{}", Hex(&[b1, b2])),
        Header::Tag(tag) => write!(shown, "{tag:02x}"),
        Header::Length81(tag) => write!(shown, "{tag:02x}81"),
        Header::Length82(tag) => write!(shown, "{tag:02x}82"),
        Header::Length82High(tag, high) => write!(shown, "{tag:02x}82{high:02x}"),
    }
}

// Prints a state.
fn show_state(shown: &mut Shown<'_>, walk: ChunkWalk) -> fmt::Result {
    match walk {
        ChunkWalk::Boundary => write!(shown, "boundary"),
        ChunkWalk::Header(header) => {
            write!(shown, "header ")?;
            show_header(shown, header)
        }
        ChunkWalk::Value(more) => write!(shown, "missing {}", u32::from(more) + 1),
        ChunkWalk::Stopped(stop) => write!(shown, "stopped {}", stop.number()),
    }
}

// A line: kept; name; chunks; expected.
pub(crate) fn kept(line: &[u8]) -> fmt::Result {
    let mut shown = Shown::start(text::field(line, 1), ": expected ", text::field(line, 3));
    let walk = show_chunks(&mut shown, text::field(line, 2))?;
    show_state(&mut shown, walk)?;
    shown.verdict()
}
