// The status of a response: its word and its class by ISO/IEC 7816-4 (rules 13.3 and 13.4).
ghost use Rattle.response.specs.Status.{WordIs, ClassIs};

// The two status bytes of a response.
#[derive(Clone, Copy, PartialEq, Eq)]
pub struct Status {
    pub sw1: u8,
    pub sw2: u8,
}

// The class of a status.
#[derive(Clone, Copy, PartialEq, Eq)]
pub enum StatusClass {
    Normal,
    Warning,
    ExecutionError,
    CheckingError,
    Unknown,
}

impl Status {
    // The status as one number: SW1 is its high byte (rule 13.3).
    #[tactic(auto, unfolding(crate::specs::Status::word_of))]
    pub fn word(self) -> u16
        ensures { WordIs self result }
    {
        u16::from_be_bytes([self.sw1, self.sw2])
    }

    // The class: 9000 and 61xx normal, 62 and 63 warning, 64 to 66 execution error, 67 to 6F checking error, the rest
    // unknown (rule 13.4).
    #[tactic(auto, unfolding(crate::specs::Status::class_of, crate::specs::Status::class_by_sw1))]
    pub fn class(self) -> StatusClass
        ensures { ClassIs self result }
    {
        match (self.sw1, self.sw2) {
            (0x61, _) | (0x90, 0x00) => StatusClass::Normal,
            (0x62..=0x63, _) => StatusClass::Warning,
            (0x64..=0x66, _) => StatusClass::ExecutionError,
            (0x67..=0x6F, _) => StatusClass::CheckingError,
            _ => StatusClass::Unknown,
        }
    }
}
