// The pieces of a command in short mode, one at a time. Rules 4.7 to 4.10.
// Ported, with changes, from src/command.rs of the crate iso7816 0.2.2 (see NOTICE).
ghost use Rattle.std.specs.Prelude.{◌≡◌, ◌+◌, ◌≤◌, ◌<◌, length};
ghost use Rattle.splitter.specs.Pieces.{pieces_after, next_left_of, NextLeftIs, NewPiecesIs, NextIs, WritePieceIs, WriteNextIs};

use crate::step::{Split, should_split};
use basis::Refusal;
use builder::{CommandBuilder, ExpectedLen, ExtendedLen};

// What is left of a command: its builder, the place where the data that are left start, and how long a piece may be.
#[derive(Clone, Copy)]
pub struct Left {
    pub builder: CommandBuilder,
    pub at: usize,
    pub available: usize,
}

// The pieces that are still to come: some of the command is left, or nothing.
#[derive(Clone, Copy)]
pub struct Pieces {
    pub left: Option<Left>,
}

// A piece: its builder, place and length of its data, and the pieces after it.
#[derive(Clone, Copy)]
pub struct Piece {
    pub builder: CommandBuilder,
    pub at: usize,
    pub len: usize,
    pub rest: Pieces,
}

// How many bytes a piece takes in the buffer, and the pieces after it.
#[derive(Clone, Copy)]
pub struct Written {
    pub len: usize,
    pub rest: Pieces,
}

// The pieces after a part that was split off.
fn pieces_after(split: Split, at: usize, available: usize) -> Pieces
    requires { at + split.len < 0x10000000000000000 }
    ensures { result ≡ pieces_after split at available }
{
    let left = Left {
        builder: split.rest,
        at: at + split.len,
        available,
    };
    Pieces { left: Some(left) }
}

// The next piece of what is left, in data of at most 65,535 bytes: one step of splitting (rule 4.8).
#[tactic(auto, using(crate::proofs::Inside::left_refused, crate::proofs::Inside::left_whole, crate::proofs::Inside::left_split, crate::proofs::Inside::left_ends))]
fn next_left(left: Left, data: &[u8]) -> Result<Option<Piece>, Refusal>
    requires { length «data».now ≤ 65535 }
    ensures { NextLeftIs (next_left_of left «data».now) result }
{
    let at = left.at.min(data.len());
    let part = &data[at..];
    match should_split(left.builder, part, left.available)? {
        None => Ok(Some(Piece {
            builder: left.builder,
            at,
            len: part.len(),
            rest: Pieces { left: None },
        })),
        Some(split) => Ok(Some(Piece {
            builder: split.first,
            at,
            len: split.len,
            rest: pieces_after(split, at, left.available),
        })),
    }
}

// Writes a piece into a buffer from a place (rule 4.10).
fn write_piece(
    piece: Piece,
    data: &[u8],
    buffer: &mut [u8],
    at: usize,
) -> Result<Option<Written>, Refusal>
    requires { piece.at + piece.len ≤ length «data».now }
    ensures { WritePieceIs piece «data».now buffer.old at result buffer.new }
{
    let part = &data[piece.at..piece.at + piece.len];
    let len = piece.builder.serialize_into(part, buffer, at)?;
    Ok(Some(Written {
        len,
        rest: piece.rest,
    }))
}

impl Pieces {
    // The pieces of a command in short mode, each of at most this many bytes: 3, 13, and 14 for a buffer under 10 (rule
    // 4.7).
    // Stays: the parameters go in one by one, as into `CommandBuilder::new`, which this function calls.
    #[tactic(auto, unfolding(crate::specs::Pieces::new_pieces_of))]
    pub fn new_non_extended(
        class: u8,
        instruction: u8,
        p1: u8,
        p2: u8,
        data: &[u8],
        le: u16,
        available: usize,
    ) -> Result<Pieces, Refusal>
        ensures { NewPiecesIs class instruction p1 p2 «data».now le available result }
    {
        let short = ExtendedLen::Unsupported;
        let builder = CommandBuilder::new(
            class,
            instruction,
            p1,
            p2,
            data,
            ExpectedLen::Ne(le),
            short,
        )?;
        if available < 10 {
            return Err(Refusal::NoRoomForPiece);
        }
        let left = Left {
            builder,
            at: 0,
            available,
        };
        Ok(Pieces { left: Some(left) })
    }

    // The next piece, in the data that each call is given again; none left after the last one (rules 4.8 and 4.9).
    // Refused are data above 65,535 bytes (13), and a buffer in which no data fit (14).
    #[tactic(auto, unfolding(crate::specs::Pieces::next_left_of), using(builder::proofs::Data::too_many))]
    pub fn next(self, data: &[u8]) -> Result<Option<Piece>, Refusal>
        ensures { NextIs self «data».now result }
    {
        match self.left {
            None => Ok(None),
            Some(left) => {
                if 65535 < data.len() {
                    return Err(Refusal::DataTooLong);
                }
                next_left(left, data)
            }
        }
    }

    // Writes the next piece into a buffer from a place. Bytes before it and after it stay (rule 4.10). Refused as the
    // next piece, or with 16 if it does not fit the buffer.
    #[tactic(auto, using(crate::proofs::Inside::next_ends))]
    pub fn write_next(
        self,
        data: &[u8],
        buffer: &mut [u8],
        at: usize,
    ) -> Result<Option<Written>, Refusal>
        ensures { WriteNextIs self «data».now buffer.old at result buffer.new }
    {
        match self.next(data)? {
            None => Ok(None),
            Some(piece) => write_piece(piece, data, buffer, at),
        }
    }
}
