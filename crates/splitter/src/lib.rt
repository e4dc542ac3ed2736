// Cutting a command that is too long for a buffer: one step in every mode (step.rt), and all its pieces in short mode,
// one at a time (pieces.rt). Rules 4.1 to 4.10 and 12.10.
// Ported, with changes, from src/command.rs of the crate iso7816 0.2.2 (see NOTICE).
#![tactic(auto)]

mod pieces;
mod step;

pub use pieces::{Left, Piece, Pieces, Written};
pub use step::{Split, should_split};

// The default buffer, for a short command with 255 data bytes and Le: 4 + 1 + 255 + 1 bytes (rule 4.2).
pub const BUFFER_LEN: usize = 261;
