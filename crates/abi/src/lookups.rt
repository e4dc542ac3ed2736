// A lookup told to a host program (rules 15.3, 15.4 and 15.7).
ghost use Rattle.tlv.specs.Lookup.{as_reply};
ghost use Rattle.abi.specs.Answers.{RowTold};
ghost use Rattle.abi.specs.Lookups.{lookup_row};

use crate::answers::tell_row;
use tlv::{Found, Halt};

// Writes 3 numbers, with 11 and 12 too: the place in the record of the value, of the end reached (11) or of the object
// that cannot be read (12); the length of the value, or 0; how many tags of the path matched.
pub fn tell_lookup(found: Result<Found, Halt>, out: &mut [u64]) -> u8
    ensures { RowTold (lookup_row (as_reply found)) out.old result out.new }
{
    match found {
        Err(
            Halt {
                stop,
                place,
                matched,
            },
        ) => tell_row(stop.number(), &[place as u64, 0, matched as u64], out),
        Ok(Found { at, len, matched }) => {
            tell_row(0, &[at as u64, len as u64, matched as u64], out)
        }
    }
}
