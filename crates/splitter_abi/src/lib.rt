// What a host program calls to cut a command: one step, whether its pieces can be made, and the next piece (rule 12.6).
// Each function replies 0, or the number of a refusal. Numbers are written into the slice `out` only if it replies 0.
// Stays: a builder goes in as numbers, one by one, and what is replied goes out as numbers: the C interface.
#![tactic(auto)]

ghost use Rattle.std.specs.Prelude.{◌≡◌};
ghost use Rattle.basis.specs.Refusal.{as_reply};
ghost use Rattle.abi.specs.Answers.{NumbersWritten};
ghost use Rattle.splitter.specs.Step.{as_reply as optionAsReply};
ghost use Rattle.splitter_abi.specs.Numbers.{splitting, should_split_reply, NewNonExtendedIs, from_place, pieces_by_numbers};
ghost use Rattle.splitter_abi.specs.Numbers.{piece_reply, written_reply, PieceWritten};

use abi::{builder_by_numbers, expected_len_number, refusal_status, write_numbers};
use basis::Refusal;
use splitter::{Left, Pieces, Split, Written, should_split};

// Writes the two parts of a command, or zeros if it is not split.
fn write_split(answer: Result<Option<Split>, Refusal>, out: &mut [u64]) -> u8
    ensures { NumbersWritten 6 (splitting (optionAsReply answer)) out.old result out.new }
{
    match answer {
        Err(refusal) => refusal_status(refusal.number(), out.len(), 6),
        Ok(None) => write_numbers(&[0, 0, 0, 0, 0, 0], out),
        Ok(Some(split)) => {
            let row = [
                1,
                split.len as u64,
                u64::from(split.first.class.into_inner()),
                expected_len_number(split.first.le),
                u64::from(split.rest.class.into_inner()),
                expected_len_number(split.rest.le),
            ];
            write_numbers(&row, out)
        }
    }
}

// Writes 6 numbers for the host: 1, then data bytes, class and expected length of the first part, then class and
// expected length of the rest; zeros if the command is not split (rules 4.3 to 4.6).
#[tactic(auto, unfolding(crate::specs::Numbers::should_split_reply))]
#[unsafe(no_mangle)]
pub extern "C" fn gorvisclen_should_split(
    class: u8,
    instruction: u8,
    p1: u8,
    p2: u8,
    le: u32,
    mode: u8,
    data: &[u8],
    available: usize,
    out: &mut [u64],
) -> u8
    ensures { NumbersWritten 6 (should_split_reply class instruction p1 p2 le mode «data».now available) out.old result
        out.new }
{
    match builder_by_numbers(class, instruction, p1, p2, le, mode, data) {
        Err(refusal) => refusal_status(refusal.number(), out.len(), 6),
        Ok(builder) => write_split(should_split(builder, data, available), out),
    }
}

// Whether the pieces of this command can be made: 0, or 3, 13, 14 (rule 4.7).
#[unsafe(no_mangle)]
pub extern "C" fn gorvisclen_new_non_extended(
    class: u8,
    instruction: u8,
    p1: u8,
    p2: u8,
    data: &[u8],
    le: u16,
    available: usize,
) -> u8
    ensures { NewNonExtendedIs class instruction p1 p2 «data».now le available result }
{
    match Pieces::new_non_extended(class, instruction, p1, p2, data, le, available) {
        Err(refusal) => refusal.number(),
        Ok(_) => 0,
    }
}

// The pieces that are left from a place of the data on.
fn from_place(pieces: Pieces, place: usize) -> Pieces
    ensures { result ≡ from_place place pieces }
{
    Pieces {
        left: pieces.left.map(|left| Left { at: place, ..left }),
    }
}

// Pieces by numbers: none left if done is not 0, else those of the command that are left from a place of the data on.
#[tactic(auto, unfolding(crate::specs::Numbers::pieces_by_numbers))]
fn pieces_by_numbers(
    class: u8,
    instruction: u8,
    p1: u8,
    p2: u8,
    le: u16,
    available: usize,
    place: usize,
    done: u8,
    data: &[u8],
) -> Result<Pieces, Refusal>
    ensures { as_reply result ≡ pieces_by_numbers class instruction p1 p2 le available place done «data».now }
{
    if done != 0 {
        return Ok(Pieces { left: None });
    }
    let pieces = Pieces::new_non_extended(class, instruction, p1, p2, data, le, available)?;
    Ok(from_place(pieces, place))
}

// Writes the numbers of a piece and of what is left after it, zeros if nothing is.
fn write_piece(written: Written, out: &mut [u64]) -> u8
    ensures { NumbersWritten 5 (piece_reply written) out.old result out.new }
{
    match written.rest.left {
        None => write_numbers(&[1, written.len as u64, 0, 0, 0], out),
        Some(left) => {
            let le = expected_len_number(left.builder.le);
            write_numbers(&[1, written.len as u64, 1, left.at as u64, le], out)
        }
    }
}

// Writes the numbers of the next piece, zeros if none is left.
fn write_written(answer: Result<Option<Written>, Refusal>, out: &mut [u64]) -> u8
    ensures { NumbersWritten 5 (written_reply (optionAsReply answer)) out.old result out.new }
{
    match answer {
        Err(refusal) => refusal_status(refusal.number(), out.len(), 5),
        Ok(None) => write_numbers(&[0, 0, 0, 0, 0], out),
        Ok(Some(written)) => write_piece(written, out),
    }
}

// Writes the next piece into the buffer, and 5 numbers for the host: 1 and how many bytes the piece has; then 1, place
// and expected length of what is left after it; zeros for what is not there (rules 4.8 to 4.10).
#[unsafe(no_mangle)]
pub extern "C" fn gorvisclen_write_next(
    class: u8,
    instruction: u8,
    p1: u8,
    p2: u8,
    le: u16,
    available: usize,
    place: usize,
    done: u8,
    data: &[u8],
    buffer: &mut [u8],
    at: usize,
    out: &mut [u64],
) -> u8
    ensures { PieceWritten (pieces_by_numbers class instruction p1 p2 le available place done «data».now)
        «data».now at buffer.old out.old result buffer.new out.new }
{
    match pieces_by_numbers(class, instruction, p1, p2, le, available, place, done, data) {
        Err(not_made) => refusal_status(not_made.number(), out.len(), 5),
        Ok(pieces) => {
            if out.len() < 5 {
                return Refusal::DoesNotFit.number();
            }
            let answer = pieces.write_next(data, buffer, at);
            write_written(answer, out)
        }
    }
}
