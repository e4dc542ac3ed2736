// Whether a calibration has lapsed (rule 19.6).
ghost use Rattle.calibration.specs.Lapsed.{HasLapsedIs};

use crate::date::{Date, is_earlier, is_real};
use crate::profile::read_profile;
use basis::Refusal;

// Whether the due date of a record is earlier than a given date, by the calendar. On the day itself it is not. Refused
// like the record (26, 27), then if there is no such date as the given one (27).
#[tactic(auto, using(crate::proofs::Lapsing::told_refused, crate::proofs::Lapsing::told_unreal, crate::proofs::Lapsing::told_compared))]
pub fn has_lapsed(record: &[u8], on: Date) -> Result<bool, Refusal>
    ensures { HasLapsedIs «record».now on result }
{
    let profile = read_profile(record)?;
    if !is_real(on) {
        return Err(Refusal::NoSuchDate);
    }
    Ok(is_earlier(profile.due, on))
}
