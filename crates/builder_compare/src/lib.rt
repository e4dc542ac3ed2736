// Comparing a builder with a command that was read. Rules 3.10 and 3.11.
// Ported, with changes, from src/command.rs of the crate iso7816 0.2.2 (see NOTICE).
#![tactic(auto)]

ghost use Rattle.std.specs.Prelude.{◌≡◌};
ghost use Rattle.builder_compare.specs.Compare.{le_compared, same_header, EqIs};

use basis::Refusal;
use builder::{CommandBuilder, ExpectedLen};
use command::CommandView;

// The expected length as it is compared: not lowered, and Max as 65,535 (rule 3.11).
fn le_compared(le: ExpectedLen) -> usize
    ensures { result ≡ le_compared le }
{
    match le {
        ExpectedLen::Ne(n) => usize::from(n),
        ExpectedLen::Max => 65535,
    }
}

// Whether class, instruction, P1 and P2 agree.
#[tactic(auto, unfolding(crate::specs::Compare::same_header))]
fn same_header(builder: CommandBuilder, view: CommandView) -> bool
    ensures { result ≡ same_header builder view }
{
    builder.class == view.class
        && builder.instruction == view.instruction
        && builder.p1 == view.p1
        && builder.p2 == view.p2
}

// Whether a builder and its data equal a command that was read and its data: header, Le and data agree (rule 3.10).
// Refused are data above 65,535 bytes (13).
#[tactic(auto, unfolding(crate::specs::Compare::equal_to))]
pub fn eq(
    builder: CommandBuilder,
    data: &[u8],
    view: CommandView,
    other: &[u8],
) -> Result<bool, Refusal>
    ensures { EqIs builder «data».now view other.now result }
{
    if 65535 < data.len() {
        return Err(Refusal::DataTooLong);
    }
    Ok(
        same_header(builder, view)
            && le_compared(builder.le) == view.le
            && byte_slices::same(data, other),
    )
}
