// The chaining bit, 0x10 (rules 8.2 and 8.3).
// Ported, with changes, from src/command/class.rs of the crate iso7816 0.2.2 (see NOTICE).
ghost use Rattle.class.specs.Chain.{ChainIs, AsChainedIs, LastOrOnlyIs, NotTheLastIs};

use crate::Class;

// What bit 0x10 says of a command. No operation returns `Unknown`.
#[derive(Clone, Copy, PartialEq, Eq)]
pub enum Chain {
    LastOrOnly,
    NotTheLast,
    Unknown,
}

impl Chain {
    // Whether it is the last or only command.
    pub fn last_or_only(self) -> bool
        ensures { LastOrOnlyIs self result }
    {
        self == Chain::LastOrOnly
    }

    // Whether others follow.
    pub fn not_the_last(self) -> bool
        ensures { NotTheLastIs self result }
    {
        self == Chain::NotTheLast
    }
}

impl Class {
    // What bit 0x10 of the byte says (rule 8.2).
    #[tactic(auto, using(crate::proofs::Bits::chaining_bit_and))]
    pub fn chain(self) -> Chain
        ensures { ChainIs self result }
    {
        if self.cla & 0x10 != 0 {
            Chain::NotTheLast
        } else {
            Chain::LastOrOnly
        }
    }

    // The class with bit 0x10 set; of 0xEF that is 0xFF, which is no class (rule 8.3).
    #[tactic(auto, using(crate::proofs::Bits::chained_or))]
    pub fn as_chained(self) -> Class
        ensures { AsChainedIs self result }
    {
        Class {
            cla: self.cla | 0x10,
        }
    }
}
