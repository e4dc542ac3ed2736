// What C and Rust programs link of the library `aid_abi`: each function calls the one there that has its
// name, and promises the same. host/exports writes this file.
#![tactic(auto)]

ghost use Rattle.abi.specs.Answers.{NumbersWritten};
ghost use Rattle.aid_abi.specs.Numbers.{aid_reply, aid_whole_reply, aid_matches_reply, part_by_number, PartCopied};
ghost use Rattle.aid.specs.Making.{try_new};

// Writes 9 numbers: length; truncated length; category and the tests for the first four (rule 9.3); lengths of RID and
// PIX, 256 for none (rule 9.4).
#[unsafe(no_mangle)]
pub extern "C" fn gorvisclen_aid(name: &[u8], truncated_len: usize, out: &mut [u64]) -> u8
    ensures { NumbersWritten 9 (aid_reply name.now truncated_len) out.old result out.new }
{
    aid_abi::gorvisclen_aid(name, truncated_len, out)
}

// Writes the same 9 numbers of an AID that is made without a truncated length (rule 9.2).
#[unsafe(no_mangle)]
pub extern "C" fn gorvisclen_aid_whole(name: &[u8], out: &mut [u64]) -> u8
    ensures { NumbersWritten 9 (aid_whole_reply name.now) out.old result out.new }
{
    aid_abi::gorvisclen_aid_whole(name, out)
}

// Writes one number: 1 if the name `asked` matches the AID, else 0 (rules 9.5 and 9.6).
#[unsafe(no_mangle)]
pub extern "C" fn gorvisclen_aid_matches(
    name: &[u8],
    truncated_len: usize,
    asked: &[u8],
    out: &mut [u64],
) -> u8
    ensures { NumbersWritten 1 (aid_matches_reply name.now truncated_len asked.now) out.old result out.new }
{
    aid_abi::gorvisclen_aid_matches(name, truncated_len, asked, out)
}

// Copies a part to the front of `to`, and writes its length, 256 if it is absent (rule 9.4).
#[unsafe(no_mangle)]
pub extern "C" fn gorvisclen_aid_part(
    name: &[u8],
    truncated_len: usize,
    part: u8,
    to: &mut [u8],
    out: &mut [u64],
) -> u8
    ensures { PartCopied (part_by_number part) (try_new name.now truncated_len) to.old out.old result
        to.new out.new }
{
    aid_abi::gorvisclen_aid_part(name, truncated_len, part, to, out)
}
