// Building a command: a builder by value, made (rule 3.2) and forced to extended lengths. sizes.rt says how many bytes
// its command takes, write.rt writes it.
// Ported, with changes, from src/command.rs of the crate iso7816 0.2.2 (see NOTICE).
#![tactic(auto)]

ghost use Rattle.builder.specs.Builder.{NewIs, ForceExtendedIs};

mod sizes;
mod write;

use basis::Refusal;
use class::Class;

// The expected length: how many bytes are expected in return, a number or the most there can be (rule 3.1).
#[derive(Clone, Copy)]
pub enum ExpectedLen {
    Ne(u16),
    Max,
}

// The mode: short lengths only, extended ones if they are needed, or extended ones always (rule 3.1).
#[derive(Clone, Copy, PartialEq, Eq)]
pub enum ExtendedLen {
    Unsupported,
    Supported,
    Forced,
}

// A command without its data, which each function takes as plain bytes (rule 12.4).
#[derive(Clone, Copy)]
pub struct CommandBuilder {
    pub class: Class,
    pub instruction: u8,
    pub p1: u8,
    pub p2: u8,
    pub le: ExpectedLen,
    pub mode: ExtendedLen,
}

impl CommandBuilder {
    // Makes a builder: the class byte is tested first (3), then the length of the data (13), which are not kept (rules
    // 1.3, 1.13 and 3.2).
    // Stays: class, instruction, P1 and P2 go in one by one; the struct that holds them is what this function makes.
    #[tactic(auto, unfolding(crate::specs::Builder::new_of))]
    pub fn new(
        class: u8,
        instruction: u8,
        p1: u8,
        p2: u8,
        data: &[u8],
        le: ExpectedLen,
        mode: ExtendedLen,
    ) -> Result<CommandBuilder, Refusal>
        ensures { NewIs class instruction p1 p2 «data».now le mode result }
    {
        let class = Class::from_byte(class)?;
        if 65535 < data.len() {
            return Err(Refusal::DataTooLong);
        }
        Ok(CommandBuilder {
            class,
            instruction,
            p1,
            p2,
            le,
            mode,
        })
    }

    // The builder with extended lengths always, and nothing else changed; 15 if it is short only (rules 1.15 and 3.2).
    pub fn force_extended(self) -> Result<CommandBuilder, Refusal>
        ensures { ForceExtendedIs self result }
    {
        if self.mode == ExtendedLen::Unsupported {
            return Err(Refusal::ExtendedUnsupported);
        }
        Ok(CommandBuilder {
            mode: ExtendedLen::Forced,
            ..self
        })
    }
}
