// One step of splitting. Rules 4.1 to 4.6.
// Ported, with changes, from src/command.rs of the crate iso7816 0.2.2 (see NOTICE).
ghost use Rattle.std.specs.Prelude.{◌≡◌};
ghost use Rattle.splitter.specs.Step.{most_data, room_in, first_of, ShouldSplitIs};

use basis::Refusal;
use builder::{CommandBuilder, ExpectedLen, ExtendedLen};

// The builder of the first part and how many bytes of the data it takes, and the builder of the rest.
#[derive(Clone, Copy)]
pub struct Split {
    pub first: CommandBuilder,
    pub len: usize,
    pub rest: CommandBuilder,
}

// The most data bytes of a part: 255 in short mode, else 65,535 (rule 4.1).
fn most_data(mode: ExtendedLen) -> usize
    ensures { result ≡ most_data mode }
{
    match mode {
        ExtendedLen::Unsupported => 255,
        ExtendedLen::Supported | ExtendedLen::Forced => 65535,
    }
}

// The room for data in a buffer, next to this many other bytes; not below 0 (rule 4.1).
#[tactic(auto, unfolding(crate::specs::Step::room_in))]
fn room(mode: ExtendedLen, extra: usize, available: usize) -> usize
    ensures { result ≡ room_in mode extra available }
{
    available.saturating_sub(extra).min(most_data(mode))
}

// The first part: class bit 0x10 set and Le 0, else as the command (rule 4.4).
fn first(builder: CommandBuilder) -> CommandBuilder
    ensures { result ≡ first_of builder }
{
    CommandBuilder {
        class: builder.class.as_chained(),
        le: ExpectedLen::Ne(0),
        ..builder
    }
}

// Whether a command with these data fits a buffer of this many bytes (none), and its two parts if it does not. The room
// counts the bytes of Lc and Le for all remaining data, extended ones if they are over 255 bytes (rules 4.2 to 4.6).
// Refused are data above 65,535 bytes (13), and a buffer without room for data (14).
#[tactic(auto, using(crate::proofs::Steps::length_refused, crate::proofs::Steps::data_counted, crate::proofs::Steps::small_refused, crate::proofs::Steps::whole_fits, crate::proofs::Steps::no_room_refused, crate::proofs::Steps::split_found))]
pub fn should_split(
    builder: CommandBuilder,
    data: &[u8],
    available: usize,
) -> Result<Option<Split>, Refusal>
    ensures { ShouldSplitIs builder «data».now available result }
{
    let total = builder.required_len(data)?;
    if available < 4 {
        return Err(Refusal::NoRoomForPiece);
    }
    let n = data.len();
    let len = room(builder.mode, total - n, available);
    if n <= len {
        return Ok(None);
    }
    if len == 0 {
        return Err(Refusal::NoRoomForPiece);
    }
    Ok(Some(Split {
        first: first(builder),
        len,
        rest: builder.lowered(),
    }))
}
