// Reading the body of a command: where its data start, how many bytes they are, and Le. Rules 2.3 to 2.7.
// Ported, with changes, from src/command.rs of the crate iso7816 0.2.2 (see NOTICE).
ghost use Rattle.std.specs.Prelude.{◌≡◌, ◌+◌, ◌*◌, ◌<◌, ◌≤◌, length};
ghost use Rattle.basis.specs.Refusal.{as_reply};
ghost use Rattle.command.specs.Body.{or_most, pair, short_body, long_body, extended_body, extended_by_standard, body_of};

use basis::Refusal;
use class::Reading;

// Where the data of a body start, how many bytes they are, the expected length, and whether the lengths are extended.
#[derive(Clone, Copy)]
pub struct ParsedLengths {
    pub offset: usize,
    pub lc: usize,
    pub le: usize,
    pub extended: bool,
}

// The number in two bytes, the high one first.
fn pair(high: u8, low: u8) -> usize
    ensures { (result ≡ high * 256 + low) × (result < 65536) }
{
    usize::from(u16::from_be_bytes([high, low]))
}

// A value, or its replacement if it is zero: in an Le, zero means the most (rules 2.3 to 2.6).
fn replace_zero(value: usize, replacement: usize) -> usize
    ensures { result ≡ or_most replacement value }
{
    if value == 0 { replacement } else { value }
}

// A body whose first byte n is not 0: n data bytes, alone or with an Le byte after them; else 4 (rule 2.4).
#[tactic(auto, unfolding(crate::specs::Body::short_body))]
fn short_lengths(n: usize, body: &[u8]) -> Result<ParsedLengths, Refusal>
    requires { n < 256 }
    ensures { as_reply result ≡ short_body n body.now }
{
    // Stays: a match on body.get(1 + n..) is measurably slower.
    let l = body.len();
    if l == 1 + n {
        return Ok(ParsedLengths {
            offset: 1,
            lc: n,
            le: 0,
            extended: false,
        });
    }
    if l == 2 + n {
        return Ok(ParsedLengths {
            offset: 1,
            lc: n,
            le: replace_zero(usize::from(body[1 + n]), 256),
            extended: false,
        });
    }
    Err(Refusal::ShortLengths)
}

// A body of more than three bytes whose first byte is 0 and whose next two are n: n data bytes, alone or with two bytes
// of Le after them; else 5 (rule 2.6).
#[tactic(auto, unfolding(crate::specs::Body::long_body))]
fn long_lengths(n: usize, body: &[u8]) -> Result<ParsedLengths, Refusal>
    requires { n < 65536 }
    ensures { as_reply result ≡ long_body n body.now }
{
    // Stays: a match on body.get(3 + n..) is measurably slower.
    let l = body.len();
    if l == 3 + n {
        return Ok(ParsedLengths {
            offset: 3,
            lc: n,
            le: 0,
            extended: true,
        });
    }
    if l == 5 + n {
        return Ok(ParsedLengths {
            offset: 3,
            lc: n,
            le: replace_zero(pair(body[3 + n], body[4 + n]), 65536),
            extended: true,
        });
    }
    Err(Refusal::ExtendedLengths)
}

// A body of at least two bytes whose first byte is 0, in the crate reading: 5 for two bytes, Le for three, else by the
// number in the second and third byte (rules 2.5 and 2.6).
#[tactic(auto, unfolding(crate::specs::Body::extended_body))]
fn extended_lengths(body: &[u8]) -> Result<ParsedLengths, Refusal>
    requires { 2 ≤ length body.now }
    ensures { as_reply result ≡ extended_body body.now }
{
    match body {
        [_, _] => Err(Refusal::ExtendedLengths),
        [_, high, low] => Ok(ParsedLengths {
            offset: 0,
            lc: 0,
            le: replace_zero(pair(*high, *low), 65536),
            extended: true,
        }),
        _ => long_lengths(pair(body[1], body[2]), body),
    }
}

// The same in the standard reading, which refuses an Lc of zero with Le after it: 21 (rule 2.7).
#[tactic(auto, using(crate::proofs::Lengths::standard_zero_lc, crate::proofs::Lengths::standard_as_crate))]
fn extended_by_standard(body: &[u8]) -> Result<ParsedLengths, Refusal>
    requires { 2 ≤ length body.now }
    ensures { as_reply result ≡ extended_by_standard body.now }
{
    match body {
        [_, 0, 0, _, _] => Err(Refusal::ZeroLcWithLe),
        _ => extended_lengths(body),
    }
}

// The lengths of a body: all zero for no byte, Le for one byte (rule 2.3), else by its first byte and the reading.
#[tactic(auto, unfolding(crate::specs::Body::body_of))]
pub(crate) fn parse_lengths(reading: Reading, body: &[u8]) -> Result<ParsedLengths, Refusal>
    ensures { as_reply result ≡ body_of reading body.now }
{
    match body {
        [] => Ok(ParsedLengths {
            offset: 0,
            lc: 0,
            le: 0,
            extended: false,
        }),
        [le] => Ok(ParsedLengths {
            offset: 0,
            lc: 0,
            le: replace_zero(usize::from(*le), 256),
            extended: false,
        }),
        [0, ..] => match reading {
            Reading::Crate => extended_lengths(body),
            Reading::Standard => extended_by_standard(body),
        },
        [lc, ..] => short_lengths(usize::from(*lc), body),
    }
}
