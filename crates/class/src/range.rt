// The four ranges of class bytes (rule 8.1).
// Ported, with changes, from src/command/class.rs of the crate iso7816 0.2.2 (see NOTICE).
ghost use Rattle.class.specs.Range.{RangeIs, FromClaIs};

use crate::Class;
use basis::Refusal;

// The range of a class.
#[derive(Clone, Copy)]
pub enum Range {
    Interindustry(Interindustry),
    Proprietary,
}

// The ranges of interindustry classes.
#[derive(Clone, Copy)]
pub enum Interindustry {
    First,
    Further,
    Reserved,
}

impl Range {
    // The range of a class byte; 0xFF is refused with 3.
    #[tactic(auto, unfolding(crate::specs::Range::from_cla))]
    pub fn from_cla(cla: u8) -> Result<Range, Refusal>
        ensures { FromClaIs cla result }
    {
        Ok(Class::from_byte(cla)?.range())
    }
}

impl Class {
    // The range in which the byte lies (rule 8.1).
    #[tactic(auto, unfolding(crate::specs::Range::range_of))]
    pub fn range(self) -> Range
        ensures { RangeIs self result }
    {
        match self.cla {
            0x00..=0x1F => Range::Interindustry(Interindustry::First),
            0x20..=0x3F => Range::Interindustry(Interindustry::Reserved),
            0x40..=0x7F => Range::Interindustry(Interindustry::Further),
            _ => Range::Proprietary,
        }
    }
}
