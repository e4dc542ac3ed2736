// The program vectors: runs the cases that are run only (rule 11.15), and published vectors: commands of ISO/IEC 7816-3
// and -4, EMV and ICAO 9303, and records of payment and travel cards. It also runs commands and objects written into
// buffers (rules 3.3 to 3.9 and 7.1 to 7.3), responses (rules 13.1 to 13.5), exchanges with a card (rules 14.1 to
// 14.8), places in records (rules 15.1 to 15.5), zero bytes between objects (rules 16.1 to 16.6), indexes (rules 17.1 to
// 17.10), records in chunks (rules 18.1 to 18.7), and calibration records (rules 19.1 to 19.9). It prints for each what
// was expected and what was found.
//
// The cases are the lines of standard input, crates/vectors/stdin, which says at its top how each kind is written.
#![tactic(auto)]

mod alone;
mod balances;
mod chunks;
mod commands;
mod cuts;
mod exchanges;
mod indexes;
mod objects;
mod records;
mod report;
mod responses;
mod text;
mod written;

use std::fmt;

// Runs a line, by its first letter. A line that is empty, or starts with # or a zero byte, is no case.
fn run(line: &[u8]) -> fmt::Result {
    match line.first() {
        None | Some(0 | b'#') => Ok(()),
        Some(b'c') => commands::run(line),
        Some(b'r') => records::run(line),
        Some(b'o') => objects::run(line),
        Some(b't') => alone::tag(line),
        Some(b'l') => alone::length(line),
        Some(b'p') => cuts::run(line, ": expected ", "refusal "),
        Some(b'u') => cuts::run(line, ": expected refusal ", ""),
        Some(b'm') => written::command(line),
        Some(b'v') => written::object(line),
        Some(b's') => responses::split(line),
        Some(b'w') => responses::status(line),
        Some(b'e') => exchanges::run(line),
        Some(b'i') => indexes::index(line),
        Some(b'f') => indexes::file(line),
        Some(b'b') => indexes::built(line),
        Some(b'g') => indexes::given(line),
        Some(b'd') => chunks::divided(line),
        Some(b'k') => chunks::kept(line),
        Some(b'n') => balances::note(line),
        Some(b'q') => balances::question(line),
        Some(b'h') => balances::holder(line),
        Some(b'a') => balances::assembled(line),
        Some(_) => report::unknown(line),
    }
}

// Runs all lines.
fn run_all(file: &[u8]) -> fmt::Result {
    for line in file.split(|b| *b == b'\n') {
        run(line)?;
    }
    Ok(())
}

fn main() {
    let mut file = io::large_buffer();
    let n = io::read_full(0, &mut file);
    let _ = run_all(&file[..n]);
}
