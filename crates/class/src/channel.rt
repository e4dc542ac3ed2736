// The logical channel (rules 8.6 and 8.7).
// Ported, with changes, from src/command/class.rs of the crate iso7816 0.2.2 (see NOTICE).
ghost use Rattle.std.specs.Prelude.{◌≡◌};
ghost use Rattle.class.specs.Channel.{further_of, ChannelIs};

use crate::{Class, Interindustry, Range, Reading};

// The channel of a further interindustry class, 40 to 7F (rule 8.7).
fn further(reading: Reading, cla: u8) -> u8
    ensures { result ≡ further_of reading cla }
{
    match reading {
        Reading::Crate => (4 + cla % 8) % 8,
        Reading::Standard => 4 + cla % 16,
    }
}

impl Class {
    // The channel in a reading (rule 8.6 outside 40 to 7F); a reserved or proprietary class has none.
    #[tactic(auto, unfolding(crate::specs::Channel::channel_of))]
    pub fn channel(self, reading: Reading) -> Option<u8>
        ensures { ChannelIs reading self result }
    {
        match self.range() {
            Range::Interindustry(Interindustry::First) => Some(self.cla % 4),
            Range::Interindustry(Interindustry::Further) => Some(further(reading, self.cla)),
            Range::Interindustry(Interindustry::Reserved) | Range::Proprietary => None,
        }
    }
}
