// The due date shown: the card's or, if its record is refused, the desk's (rules 19.7 and 19.8).
ghost use Rattle.calibration.specs.Shown.{DueShownFromIs, DueShownIs};

use crate::profile::read_profile;
use basis::Refusal;

// The place of the due date in the card's record or in the desk's.
#[derive(Clone, Copy, PartialEq, Eq)]
pub enum DueShownFrom {
    Card(usize),
    Desk(usize),
}

// Whose due date is shown, and its place in that record; if both are refused, the desk's refusal, 26 or 27 (rule 19.8).
#[tactic(auto, using(crate::proofs::Due::none_shown))]
pub fn due_shown_from(card: &[u8], desk: &[u8]) -> Result<DueShownFrom, Refusal>
    ensures { DueShownFromIs card.now desk.now result }
{
    match read_profile(card) {
        Ok(profile) => Ok(DueShownFrom::Card(profile.serial + 6)),
        Err(_) => Ok(DueShownFrom::Desk(read_profile(desk)?.serial + 6)),
    }
}

// The four bytes of the due date shown, as that very part of the card's record or of the desk's; no bytes if both are
// refused (rules 19.7 and 12.16).
pub fn due_shown<'a>(card: &'a [u8], desk: &'a [u8]) -> &'a [u8]
    ensures { DueShownIs card.now desk.now result.now }
{
    match due_shown_from(card, desk) {
        Ok(DueShownFrom::Card(at)) => &card[at..at + 4],
        Ok(DueShownFrom::Desk(at)) => &desk[at..at + 4],
        Err(_) => &desk[..0],
    }
}
