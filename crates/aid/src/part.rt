// The parts of an AID, as lengths and copies (rule 9.4).
// Ported, with changes, from src/aid.rs of the crate iso7816 0.2.2 (see NOTICE).
ghost use Rattle.std.specs.Prelude.{◌≡◌};
ghost use Rattle.aid.specs.Parts.{has_rid, SpanFor, PartLenIs, CopyPartIs};

use crate::{Aid, Category};
use basis::Refusal;

// The parts of an AID: all its bytes, the truncated part, the registered application provider (RID), and what follows
// it (PIX).
#[derive(Clone, Copy)]
pub enum Part {
    Bytes,
    Truncated,
    Rid,
    Pix,
}

// Whether an AID has a RID and a PIX: it is national or international, and has at least five bytes (rule 9.4).
#[tactic(auto, unfolding(crate::specs::Parts::has_rid))]
fn has_rid(aid: Aid) -> bool
    ensures { result ≡ has_rid aid }
{
    matches!(aid.category(), Category::International | Category::National) && 5 <= aid.len.min(16)
}

// Where a part starts and ends among the 16 bytes, if there is such a part.
#[tactic(auto, unfolding(crate::specs::Parts::part_of), using(crate::proofs::Spans::rid_for, crate::proofs::Spans::pix_for))]
fn span_of(aid: Aid, part: Part) -> Option<(usize, usize)>
    ensures { SpanFor part aid result }
{
    let end = aid.len.min(16);
    match part {
        Part::Bytes => Some((0, end)),
        Part::Truncated => Some((0, aid.truncated.min(16))),
        Part::Rid => has_rid(aid).then_some((0, 5)),
        Part::Pix => has_rid(aid).then_some((5, end)),
    }
}

impl Aid {
    // How many bytes a part has, if there is such a part.
    pub fn part_len(self, part: Part) -> Option<usize>
        ensures { PartLenIs part self result }
    {
        let (start, end) = span_of(self, part)?;
        Some(end - start)
    }

    // Copies a part to the front of a lent buffer, and says how many bytes were copied: none if there is no such part,
    // 16 if it is longer than the buffer (rule 9.4).
    pub fn copy_part(self, part: Part, to: &mut [u8]) -> Result<Option<usize>, Refusal>
        ensures { CopyPartIs part self to.old result to.new }
    {
        let Some((start, end)) = span_of(self, part) else {
            return Ok(None);
        };
        let n = end - start;
        if to.len() < n {
            return Err(Refusal::DoesNotFit);
        }
        to[..n].copy_from_slice(&self.bytes[start..end]);
        Ok(Some(n))
    }
}
