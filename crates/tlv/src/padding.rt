// Padding: zero bytes without meaning where an object may start (rules 16.1 and 16.2). The Rust does not have it.
ghost use Rattle.std.specs.Prelude.{◌≡◌, leb};
ghost use Rattle.tlv.specs.Padding.{zeros, padding};

use crate::Reading;

// How many zero bytes some bytes start with.
#[tactic(auto, using(crate::proofs::Zeros::at_zero, crate::proofs::Zeros::at_other, crate::proofs::Zeros::at_end))]
pub(crate) fn zeros(bytes: &[u8]) -> usize
    ensures { result ≡ zeros bytes.now }
{
    for (i, b) in bytes.iter().enumerate() {
        if *b != 0 {
            return i;
        }
    }
    bytes.len()
}

// How many bytes of padding some bytes start with: zero bytes in the standard reading, none in the crate reading.
#[tactic(auto, unfolding(crate::specs::Padding::padding))]
#[inline(always)]
pub(crate) fn padding(reading: Reading, bytes: &[u8]) -> usize
    ensures { result ≡ padding reading bytes.now }
{
    match reading {
        Reading::Crate => 0,
        Reading::Standard => zeros(bytes),
    }
}

// Whether some bytes start with a zero byte.
#[tactic(auto, using(crate::proofs::Zeros::zeros_by_first, crate::proofs::Zeros::zeros_of_none))]
fn starts_zero(bytes: &[u8]) -> bool
    ensures { result ≡ leb 1 (zeros bytes.now) }
{
    matches!(bytes, [0, ..])
}

// Whether some bytes start with padding. Unlike `padding` this looks at the first byte only.
#[tactic(auto, unfolding(crate::specs::Padding::padding))]
pub(crate) fn starts_padded(reading: Reading, bytes: &[u8]) -> bool
    ensures { result ≡ leb 1 (padding reading bytes.now) }
{
    match reading {
        Reading::Crate => false,
        Reading::Standard => starts_zero(bytes),
    }
}
