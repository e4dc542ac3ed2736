// A builder by numbers (rules 3.1 and 3.2).
ghost use Rattle.abi.specs.Builders.{ExpectedLenByNumberIs, ModeByNumberIs, BuilderByNumbersIs};

use basis::Refusal;
use builder::{CommandBuilder, ExpectedLen, ExtendedLen};

// The expected length by number: any above 65,535 is Max (rule 3.1).
#[tactic(auto, unfolding(crate::specs::Builders::expected_len_by_number))]
pub fn expected_len_by_number(le: u32) -> ExpectedLen
    ensures { ExpectedLenByNumberIs le result }
{
    match u16::try_from(le) {
        Ok(n) => ExpectedLen::Ne(n),
        Err(_) => ExpectedLen::Max,
    }
}

// The mode by number: 0 short only, 1 extended supported, any other extended forced (rule 3.1).
#[tactic(auto, unfolding(crate::specs::Builders::mode_by_number))]
pub fn mode_by_number(mode: u8) -> ExtendedLen
    ensures { ModeByNumberIs mode result }
{
    match mode {
        0 => ExtendedLen::Unsupported,
        1 => ExtendedLen::Supported,
        _ => ExtendedLen::Forced,
    }
}

// The builder for these data, with its expected length and its mode by number.
#[tactic(auto, unfolding(crate::specs::Builders::builder_by_numbers))]
pub fn builder_by_numbers(
    class: u8,
    instruction: u8,
    p1: u8,
    p2: u8,
    le: u32,
    mode: u8,
    data: &[u8],
) -> Result<CommandBuilder, Refusal>
    ensures { BuilderByNumbersIs class instruction p1 p2 le mode «data».now result }
{
    let expected = expected_len_by_number(le);
    let lengths = mode_by_number(mode);
    CommandBuilder::new(class, instruction, p1, p2, data, expected, lengths)
}
