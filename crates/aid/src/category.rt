// The category of an AID (rule 9.3).
// Ported, with changes, from src/aid.rs of the crate iso7816 0.2.2 (see NOTICE).
ghost use Rattle.std.specs.Prelude.{◌≡◌};
ghost use Rattle.aid.specs.Category.{international, national, standard, proprietary, category_of, category_as_number, CategoryIs, IsInIs};

use crate::Aid;

// The category of an AID: the high half of its first byte says it.
#[derive(Clone, Copy, PartialEq, Eq)]
pub enum Category {
    International,
    National,
    Standard,
    Proprietary,
    Other,
}

// The category of a name that starts with this byte (rule 9.3).
#[tactic(auto, unfolding(crate::specs::Category::category_of))]
pub(crate) fn of(first: u8) -> Category
    ensures { category_as_number result ≡ category_of first }
{
    match first / 16 {
        0xA => Category::International,
        0xD => Category::National,
        0xE => Category::Standard,
        0xF => Category::Proprietary,
        _ => Category::Other,
    }
}

impl Aid {
    // The category of the first byte.
    pub fn category(self) -> Category
        ensures { CategoryIs self result }
    {
        of(self.bytes[0])
    }

    // Whether an AID is of this category.
    fn is_in(self, k: Category) -> bool
        ensures { IsInIs (category_as_number k) self result }
    {
        self.category() == k
    }

    // One test for each category but `Other`.
    pub fn is_international(self) -> bool
        ensures { IsInIs international self result }
    {
        self.is_in(Category::International)
    }

    pub fn is_national(self) -> bool
        ensures { IsInIs national self result }
    {
        self.is_in(Category::National)
    }

    pub fn is_standard(self) -> bool
        ensures { IsInIs standard self result }
    {
        self.is_in(Category::Standard)
    }

    pub fn is_proprietary(self) -> bool
        ensures { IsInIs proprietary self result }
    {
        self.is_in(Category::Proprietary)
    }
}
