// The number of an expected length, as a host program gets it (rule 3.1).
ghost use Rattle.abi.specs.Lengths.{ExpectedLenNumberIs};

use builder::ExpectedLen;

// The number of an expected length: 65,536 for Max (rule 3.1).
pub fn expected_len_number(le: ExpectedLen) -> u64
    ensures { ExpectedLenNumberIs le result }
{
    match le {
        ExpectedLen::Ne(n) => u64::from(n),
        ExpectedLen::Max => 65536,
    }
}
