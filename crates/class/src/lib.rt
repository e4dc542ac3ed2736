// The class byte of a command: its range, secure messaging, chaining and channel, in the crate and the standard
// reading.
// Ported, with changes, from src/command/class.rs of the crate iso7816 0.2.2 (see NOTICE).
#![tactic(auto)]

ghost use Rattle.class.specs.Class.{FromByteIs, IntoInnerIs};

mod chain;
mod channel;
mod range;
mod secure_messaging;

use basis::Refusal;
pub use chain::Chain;
pub use range::{Interindustry, Range};
pub use secure_messaging::SecureMessaging;

// A class byte. Only `from_byte`, `as_chained` and the constants make one.
#[derive(Clone, Copy, PartialEq, Eq)]
pub struct Class {
    cla: u8,
}

// The two readings: what the Rust says of a class, and what ISO/IEC 7816-4 says.
#[derive(Clone, Copy)]
pub enum Reading {
    Crate,
    Standard,
}

// The three constants of the Rust (rule 8.8): interindustry; proprietary without secure messaging, and with it.
pub const ZERO_CLA: Class = Class { cla: 0x00 };

pub const NO_SM_CLA: Class = Class { cla: 0x80 };

pub const SM_CLA: Class = Class { cla: 0x84 };

impl Class {
    // The class of a byte; 0xFF is refused with 3 (rule 1.3).
    #[tactic(auto, unfolding(crate::specs::Class::from_byte))]
    pub fn from_byte(cla: u8) -> Result<Class, Refusal>
        ensures { FromByteIs cla result }
    {
        if cla == 0xFF {
            return Err(Refusal::NoClass);
        }
        Ok(Class { cla })
    }

    // The byte of a class.
    pub fn into_inner(self) -> u8
        ensures { IntoInnerIs self result }
    {
        self.cla
    }
}
