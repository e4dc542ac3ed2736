// The form of an index file: four sections in fixed order, each after its two-byte count (rules 17.5 and 17.6).
ghost use Rattle.std.specs.Prelude.{◌≡◌, length};
ghost use Rattle.tlv_index.specs.File.{file_size, is_reason, ends_as, counts_agree, CheckIndexIs};

use crate::numbers::number_at;
use basis::Refusal;

// Whether a number is 11 or 12.
#[tactic(auto, unfolding(crate::specs::File::is_reason))]
fn is_reason(number: usize) -> bool
    ensures { result ≡ is_reason number }
{
    number == 11 || number == 12
}

// A file that is as long as that of an index of n entries.
#[derive(Clone, Copy)]
pub(crate) struct IndexFile<'a> {
    pub bytes: &'a [u8],
    pub n: usize,
    ghost size: { file_size 2 n ≡ length bytes.now },
}

impl<'a> IndexFile<'a> {
    // Whether the last section has one entry, and its reason is 11 or 12.
    #[tactic(auto, unfolding(crate::specs::File::ends_as))]
    fn ends_as(self) -> bool
        ensures { result ≡ ends_as 2 self.entry.n self.entry.bytes.now }
    {
        number_at::<2>(self.bytes, 6 + 7 * self.n) == 1
            && is_reason(number_at::<2>(self.bytes, 8 + 7 * self.n))
    }

    // Whether the counts of the second and the third section are n, and the last section is right.
    #[tactic(auto, unfolding(crate::specs::File::counts_agree))]
    fn counts_agree(self) -> bool
        ensures { result ≡ counts_agree 2 self.entry.n self.entry.bytes.now }
    {
        number_at::<2>(self.bytes, 2 + 3 * self.n) == self.n
            && number_at::<2>(self.bytes, 4 + 5 * self.n) == self.n
            && self.ends_as()
    }
}

// Checks the form of a file: how many entries it has, or 25 if it has another form (rule 17.6). Nothing is converted:
// the file is the index.
#[tactic(auto, using(crate::proofs::Files::too_short, crate::proofs::Files::too_many, crate::proofs::Files::other_size, crate::proofs::Files::right_size, crate::proofs::Files::checked_ok, crate::proofs::Files::checked_refused))]
pub fn check_index(file: &[u8]) -> Result<usize, Refusal>
    ensures { CheckIndexIs file.now result }
{
    if file.len() < 2 {
        return Err(Refusal::NotAnIndex);
    }
    let n = number_at::<2>(file, 0);
    if n <= 255 && file.len() == 12 + 7 * n {
        let index = IndexFile { bytes: file, n };
        if index.counts_agree() {
            return Ok(n);
        }
    }
    Err(Refusal::NotAnIndex)
}
