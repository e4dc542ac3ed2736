// Lines with cuts: commands cut into a piece buffer of the program's own (rules 11.15 and 12.9).
use crate::report::{Shown, Stdout};
use crate::text;
use splitter::Pieces;
use std::fmt;
use std::fmt::Write;

// What is printed of a cut: how many pieces; how many data bytes the first, the last and all have; the length of the
// longest.
#[derive(Clone, Copy, Default)]
struct Cut {
    pieces: usize,
    first: usize,
    last: usize,
    total: usize,
    longest: usize,
}

impl Cut {
    // Adds a piece, which has so many data bytes and takes `len` bytes.
    fn add(&mut self, data: u8, len: usize) {
        let lc = usize::from(data);
        if self.pieces == 0 {
            self.first = lc;
        }
        self.pieces = self.pieces.saturating_add(1);
        self.last = lc;
        self.total = self.total.saturating_add(lc);
        self.longest = self.longest.max(len);
    }
}

// Prints a cut.
fn show_cut(shown: &mut Shown<'_>, cut: Cut) -> fmt::Result {
    write!(
        shown,
        "pieces {} first {} last {} total {} longest {}",
        cut.pieces, cut.first, cut.last, cut.total, cut.longest
    )
}

// Writes the pieces of a command into a buffer, each over the one before, and prints how many data bytes each of the
// first eight has: Lc, its fifth byte. No case has a thousand pieces.
fn write_pieces(start: Pieces, data: &[u8]) -> Result<Cut, fmt::Error> {
    let mut buffer = [0u8; 261];
    let mut left = start;
    let mut cut = Cut::default();
    for _ in 0..1000 {
        match left.write_next(data, &mut buffer, 0) {
            Ok(Some(written)) => {
                cut.add(buffer[4], written.len);
                left = written.rest;
            }
            _ => return Ok(cut),
        }
        if cut.pieces <= 8 {
            write!(Stdout, "{} ", cut.last)?;
        }
    }
    Ok(cut)
}

// Cuts a command: so many data bytes, Le, and the length of the buffer.
fn show(shown: &mut Shown<'_>, refusal: &str, data: usize, le: u16, len: usize) -> fmt::Result {
    let bytes = io::large_buffer();
    let data = bytes.get(..data).unwrap_or(&[]);
    match Pieces::new_non_extended(0x00, 0xDB, 0x3F, 0xFF, data, le, len) {
        Err(k) => write!(shown, "{refusal}{}", k.number()),
        Ok(all) => {
            let cut = write_pieces(all, data)?;
            show_cut(shown, cut)
        }
    }
}

// A line: its kind; the numbers of the command; expected. A refusal is printed after the label of the kind.
pub(crate) fn run(line: &[u8], label: &str, refusal: &str) -> fmt::Result {
    let name = text::field(line, 1);
    let mut shown = Shown::start(name, label, text::field(line, 2));
    let [data, le, len] = text::numbers::<3>(name);
    let le = (le % 0x10000) as u16;
    show(&mut shown, refusal, data as usize, le, len as usize)?;
    shown.verdict()
}
