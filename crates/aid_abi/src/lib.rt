// What a host program calls of the crate `aid`: every operation, in numbers, of the AID that a name and a truncated
// length make. Each function returns 0, or the number of a refusal (docs/RULES.md, section 1). It writes its numbers to
// the front of the slice `out`, unless it refuses.
#![tactic(auto)]

ghost use Rattle.std.specs.Prelude.{◌≡◌};
ghost use Rattle.aid.specs.Making.{try_new};
ghost use Rattle.basis.specs.Refusal.{as_option};
ghost use Rattle.basis.specs.Reply.{ok};
ghost use Rattle.abi.specs.Answers.{NumbersWritten, or_none};
ghost use Rattle.aid_abi.specs.Numbers.{numbers_of, part_by_number, made_reply, aid_reply, aid_whole_reply, aid_matches_reply, PartCopied};

use abi::{flag, refusal_status, write_numbers};
use aid::{Aid, Part, TryNew};

// A length as a number, 256 if there is no such part.
fn length_number(length: Option<usize>) -> u64
    ensures { result ≡ or_none (as_option length) }
{
    length.map_or(256, |n| n as u64)
}

// The part by number: 0 all bytes, 1 the truncated part, 2 the RID, any other the PIX.
#[tactic(auto, unfolding(crate::specs::Numbers::part_by_number))]
fn part_by_number(part: u8) -> Part
    ensures { result ≡ part_by_number part }
{
    match part {
        0 => Part::Bytes,
        1 => Part::Truncated,
        2 => Part::Rid,
        _ => Part::Pix,
    }
}

// The nine numbers of an AID.
#[tactic(auto, unfolding(crate::specs::Numbers::numbers_of))]
fn numbers(aid: Aid) -> [u64; 9]
    ensures { result ≡ numbers_of aid }
{
    [
        length_number(aid.part_len(Part::Bytes)),
        length_number(aid.part_len(Part::Truncated)),
        aid.category() as u64,
        flag(aid.is_international()),
        flag(aid.is_national()),
        flag(aid.is_standard()),
        flag(aid.is_proprietary()),
        length_number(aid.part_len(Part::Rid)),
        length_number(aid.part_len(Part::Pix)),
    ]
}

// Writes the nine numbers of the AID that was made of a name, unless it was refused.
#[tactic(auto, unfolding(crate::specs::Numbers::numbers_of), using(abi::proofs::AnswerLaws::refusal_written))]
fn write_made(made: TryNew, out: &mut [u64]) -> u8
    ensures { NumbersWritten 9 (made_reply made) out.old result out.new }
{
    match made.answer {
        Ok(()) => write_numbers(&numbers(made.aid), out),
        Err(refusal) => refusal_status(refusal.number(), out.len(), 9),
    }
}

// Writes 9 numbers: length; truncated length; category and the tests for the first four (rule 9.3); lengths of RID and
// PIX, 256 for none (rule 9.4).
#[tactic(auto, unfolding(crate::specs::Numbers::aid_reply))]
#[unsafe(no_mangle)]
pub extern "C" fn gorvisclen_aid(name: &[u8], truncated_len: usize, out: &mut [u64]) -> u8
    ensures { NumbersWritten 9 (aid_reply name.now truncated_len) out.old result out.new }
{
    write_made(Aid::try_new_truncatable(name, truncated_len), out)
}

// Writes the same 9 numbers of an AID that is made without a truncated length (rule 9.2).
#[tactic(auto, unfolding(crate::specs::Numbers::aid_reply, crate::specs::Numbers::aid_whole_reply))]
#[unsafe(no_mangle)]
pub extern "C" fn gorvisclen_aid_whole(name: &[u8], out: &mut [u64]) -> u8
    ensures { NumbersWritten 9 (aid_whole_reply name.now) out.old result out.new }
{
    write_made(Aid::try_new(name), out)
}

// Writes one number: 1 if the name `asked` matches the AID, else 0 (rules 9.5 and 9.6).
#[tactic(auto, unfolding(crate::specs::Numbers::aid_matches_reply), using(abi::proofs::AnswerLaws::refusal_written))]
#[unsafe(no_mangle)]
pub extern "C" fn gorvisclen_aid_matches(
    name: &[u8],
    truncated_len: usize,
    asked: &[u8],
    out: &mut [u64],
) -> u8
    ensures { NumbersWritten 1 (aid_matches_reply name.now truncated_len asked.now) out.old result out.new }
{
    let made = Aid::try_new_truncatable(name, truncated_len);
    match made.answer {
        Ok(()) => write_numbers(&[flag(made.aid.matches(asked))], out),
        Err(refusal) => refusal_status(refusal.number(), out.len(), 1),
    }
}

// Copies a part to the front of `to`, and writes its length, 256 if it is absent.
fn copy(aid: Aid, part: Part, to: &mut [u8], out: &mut [u64]) -> u8
    ensures { PartCopied part (ok aid) to.old out.old result to.new out.new }
{
    if out.len() < 1 {
        return 16;
    }
    match aid.copy_part(part, to) {
        Ok(length) => write_numbers(&[length_number(length)], out),
        Err(refusal) => refusal.number(),
    }
}

// Copies a part to the front of `to`, and writes its length, 256 if it is absent (rule 9.4).
#[unsafe(no_mangle)]
pub extern "C" fn gorvisclen_aid_part(
    name: &[u8],
    truncated_len: usize,
    part: u8,
    to: &mut [u8],
    out: &mut [u64],
) -> u8
    ensures { PartCopied (part_by_number part) (try_new name.now truncated_len) to.old out.old result
        to.new out.new }
{
    let made = Aid::try_new_truncatable(name, truncated_len);
    match made.answer {
        Ok(()) => copy(made.aid, part_by_number(part), to, out),
        Err(refusal) => refusal_status(refusal.number(), out.len(), 1),
    }
}
