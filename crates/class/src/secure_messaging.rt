// The secure messaging indication (rules 8.4 and 8.5).
// Ported, with changes, from src/command/class.rs of the crate iso7816 0.2.2 (see NOTICE).
ghost use Rattle.std.specs.Prelude.{◌≡◌};
ghost use Rattle.class.specs.SecureMessaging.{first_of, further_of, secure_messaging_as_number, SecureMessagingIs, NoneIs};

use crate::{Class, Interindustry, Range, Reading};

// The indication; `Unknown` of a reserved or proprietary class.
#[derive(Clone, Copy, PartialEq, Eq)]
pub enum SecureMessaging {
    None,
    Proprietary,
    Standard,
    Authenticated,
    Unknown,
}

impl SecureMessaging {
    // Whether there is no secure messaging.
    pub fn none(self) -> bool
        ensures { NoneIs self result }
    {
        self == SecureMessaging::None
    }
}

// The indication of a first interindustry class: bits 4 and 3 (rule 8.4).
fn first(cla: u8) -> SecureMessaging
    ensures { secure_messaging_as_number result ≡ first_of cla }
{
    match cla / 4 % 4 {
        0 => SecureMessaging::None,
        1 => SecureMessaging::Proprietary,
        2 => SecureMessaging::Standard,
        _ => SecureMessaging::Authenticated,
    }
}

// The indication of a further interindustry class, 40 to 7F (rule 8.5).
#[tactic(auto, unfolding(crate::specs::SecureMessaging::further_of))]
fn further(reading: Reading, cla: u8) -> SecureMessaging
    ensures { secure_messaging_as_number result ≡ further_of reading cla }
{
    match reading {
        Reading::Crate => SecureMessaging::Standard,
        Reading::Standard => {
            if cla / 32 % 2 == 0 {
                SecureMessaging::None
            } else {
                SecureMessaging::Standard
            }
        }
    }
}

impl Class {
    // The indication in a reading (rule 8.4 outside 40 to 7F).
    #[tactic(auto, unfolding(crate::specs::SecureMessaging::secure_messaging_of))]
    pub fn secure_messaging(self, reading: Reading) -> SecureMessaging
        ensures { SecureMessagingIs reading self result }
    {
        match self.range() {
            Range::Interindustry(Interindustry::First) => first(self.cla),
            Range::Interindustry(Interindustry::Further) => further(reading, self.cla),
            Range::Interindustry(Interindustry::Reserved) | Range::Proprietary => {
                SecureMessaging::Unknown
            }
        }
    }
}
