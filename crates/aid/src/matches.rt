// Whether a name matches an AID (rules 9.5 and 9.6).
// Ported, with changes, from src/aid.rs of the crate iso7816 0.2.2 (see NOTICE).
ghost use Rattle.aid.specs.Matches.{MatchesIs};

use crate::Aid;

impl Aid {
    // Whether a name matches: it is a prefix of the AID, and at least as long as the truncated length (rule 9.5). With
    // truncated length 0 the empty name matches (rule 9.6).
    #[tactic(auto, using(crate::proofs::Prefix::too_short, crate::proofs::Prefix::tested_as_front))]
    pub fn matches(self, aid: &[u8]) -> bool
        ensures { MatchesIs self aid.now result }
    {
        self.truncated <= aid.len() && self.bytes[..self.len.min(16)].starts_with(aid)
    }
}
