// Slices of bytes: whether two hold the same bytes, and the part of a slice from a place with a length (rule 12.8).
#![tactic(auto)]

ghost use Rattle.byte_slices.specs.Slices.{SameIs, PartIs};

// Whether two slices hold the same bytes.
#[tactic(auto, using(crate::proofs::Slices::same_pointwise))]
pub fn same(a: &[u8], b: &[u8]) -> bool
    ensures { SameIs a.now b.now result }
{
    a == b
}

// The part of a slice that starts at `at` and has `len` bytes, or as many of them as there are. There is no refusal:
// past the end there are no bytes.
pub fn part<'a>(bytes: &'a [u8], at: usize, len: usize) -> &'a [u8]
    ensures { PartIs bytes.now at len result.now }
{
    let rest = bytes.get(at..).unwrap_or(&[]);
    rest.get(..len).unwrap_or(rest)
}
