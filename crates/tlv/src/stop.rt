// Why no object is read where one is looked for (rules 1.11 and 1.12), and where (rule 15.2).
ghost use Rattle.tlv.specs.Stop.{StopNumberIs};

// The end was reached; what stands there cannot be read. Each with the number of its refusal.
#[derive(Clone, Copy, PartialEq, Eq)]
pub enum Stop {
    End = 11,
    Unreadable = 12,
}

impl Stop {
    // The number of the refusal.
    pub fn number(self) -> u8
        ensures { StopNumberIs self result }
    {
        self as u8
    }
}

// The same, and the place in the record of that end or of the object that cannot be read.
#[derive(Clone, Copy)]
pub struct StopAt {
    pub stop: Stop,
    pub place: usize,
}
