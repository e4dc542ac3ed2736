// Application identifiers (AIDs): making one, its category, its parts, and matching a name.
// Ported, with changes, from src/aid.rs of the crate iso7816 0.2.2 (see NOTICE).
#![tactic(auto)]

ghost use Rattle.std.specs.Prelude.{◌≡◌};
ghost use Rattle.basis.specs.Refusal.{as_reply};
ghost use Rattle.aid.specs.Making.{tested, under_five, TryNewIs, TryNewTruncatableIs};

mod category;
mod matches;
mod part;

use basis::Refusal;
pub use category::Category;
pub use part::Part;

// An AID: its bytes with zeros after them, how many they are, and the length to which a name may be truncated.
// Only `try_new` and `try_new_truncatable` make one.
// Stays: a length beside the bytes, since the library has no heap.
#[derive(Clone, Copy)]
pub struct Aid {
    bytes: [u8; 16],
    len: usize,
    truncated: usize,
}

// Whether the AID was made or refused with 6 to 10, and the AID. With a refusal the AID is that of the one byte 00.
// Stays: a refusal has an AID too, which the promise TryNewTruncatableIs names.
#[derive(Clone, Copy)]
pub struct TryNew {
    pub answer: Result<(), Refusal>,
    pub aid: Aid,
}

// The AID of the one byte 00, which is returned with a refusal.
const BLANK: Aid = Aid {
    bytes: [0; 16],
    len: 1,
    truncated: 1,
};

// Whether a name of under five bytes may be an AID, by its first byte (rules 1.9 and 1.10).
#[tactic(auto, unfolding(crate::specs::Making::under_five))]
fn under_five(first: u8) -> Result<(), Refusal>
    ensures { as_reply result ≡ under_five first }
{
    match category::of(first) {
        Category::National => Err(Refusal::NationalTooShort),
        Category::International => Err(Refusal::InternationalTooShort),
        Category::Standard | Category::Proprietary | Category::Other => Ok(()),
    }
}

// Whether a name may be an AID with this truncated length (rule 9.1).
#[tactic(auto, unfolding(crate::specs::Making::tested))]
fn test_name(aid: &[u8], truncated_len: usize) -> Result<(), Refusal>
    ensures { as_reply result ≡ tested aid.now truncated_len }
{
    let n = aid.len();
    if n == 0 {
        return Err(Refusal::NameEmpty);
    }
    if 16 < n {
        return Err(Refusal::NameTooLong);
    }
    if n < truncated_len {
        return Err(Refusal::TruncatedAboveName);
    }
    if n < 5 {
        return under_five(aid[0]);
    }
    Ok(())
}

impl Aid {
    // The AID of a name without a truncated length: it has its own length for it (rule 9.2).
    pub fn try_new(aid: &[u8]) -> TryNew
        ensures { TryNewIs aid.now result }
    {
        Aid::try_new_truncatable(aid, aid.len())
    }

    // The AID of a name that may be truncated to a length (rule 9.1).
    #[tactic(auto, using(crate::proofs::Making::made_from_name, crate::proofs::Making::name_refused))]
    pub fn try_new_truncatable(aid: &[u8], truncated_len: usize) -> TryNew
        ensures { TryNewTruncatableIs aid.now truncated_len result }
    {
        match test_name(aid, truncated_len) {
            Err(k) => TryNew {
                answer: Err(k),
                aid: BLANK,
            },
            Ok(()) => {
                let mut bytes = [0u8; 16];
                let len = aid.len();
                bytes[..len].copy_from_slice(aid);
                TryNew {
                    answer: Ok(()),
                    aid: Aid {
                        bytes,
                        len,
                        truncated: truncated_len,
                    },
                }
            }
        }
    }
}
