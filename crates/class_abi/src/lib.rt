// What a host program calls of the crate `class`: every operation, in numbers. Each function returns 0, or the number
// of a refusal (docs/RULES.md, section 1). It writes its numbers to the front of the slice `out`, unless it refuses.
#![tactic(auto)]

ghost use Rattle.std.specs.Prelude.{◌≡◌};
ghost use Rattle.basis.specs.Refusal.{as_option};
ghost use Rattle.class.specs.Range.{range_as_number};
ghost use Rattle.abi.specs.Answers.{NumbersWritten, or_none};
ghost use Rattle.class_abi.specs.Numbers.{numbers_of, class_reply, class_as_chained_reply, range_reply, constants};

use abi::{flag, refusal_status, write_numbers};
use class::{Class, Interindustry, Range, Reading};

// The number of a range.
fn range_number(range: Range) -> u64
    ensures { result ≡ range_as_number range }
{
    match range {
        Range::Interindustry(Interindustry::First) => 0,
        Range::Interindustry(Interindustry::Further) => 1,
        Range::Interindustry(Interindustry::Reserved) => 2,
        Range::Proprietary => 3,
    }
}

// A channel as a number, 256 for none.
fn channel_number(channel: Option<u8>) -> u64
    ensures { result ≡ or_none (as_option channel) }
{
    channel.map_or(256, u64::from)
}

// The eleven numbers of a class.
#[tactic(auto, unfolding(crate::specs::Numbers::numbers_of, crate::specs::Numbers::row_of))]
fn numbers(class: Class) -> [u64; 11]
    ensures { result ≡ numbers_of class.cla }
{
    let by_crate = class.secure_messaging(Reading::Crate);
    let by_standard = class.secure_messaging(Reading::Standard);
    let chain = class.chain();
    [
        class.into_inner().into(),
        range_number(class.range()),
        by_crate as u64,
        by_standard as u64,
        flag(by_crate.none()),
        flag(by_standard.none()),
        chain as u64,
        flag(chain.last_or_only()),
        flag(chain.not_the_last()),
        channel_number(class.channel(Reading::Crate)),
        channel_number(class.channel(Reading::Standard)),
    ]
}

// Writes 11 numbers (rules 8.1 to 8.7): the byte; its range; secure messaging in the crate and in the standard reading;
// whether there is none in the crate and in the standard reading; the chaining answer and its two tests; the channel in
// the crate and in the standard reading, 256 for none.
#[tactic(auto, unfolding(crate::specs::Numbers::class_reply, crate::specs::Numbers::numbers_of, crate::specs::Numbers::row_of), using(abi::proofs::AnswerLaws::refusal_written))]
#[unsafe(no_mangle)]
pub extern "C" fn gorvisclen_class(cla: u8, out: &mut [u64]) -> u8
    ensures { NumbersWritten 11 (class_reply cla) out.old result out.new }
{
    match Class::from_byte(cla) {
        Ok(class) => write_numbers(&numbers(class), out),
        Err(refusal) => refusal_status(refusal.number(), out.len(), 11),
    }
}

// Writes the same 11 numbers of the class with its chaining bit set (rule 8.3).
#[tactic(auto, unfolding(crate::specs::Numbers::class_as_chained_reply, crate::specs::Numbers::numbers_of, crate::specs::Numbers::row_of), using(abi::proofs::AnswerLaws::refusal_written))]
#[unsafe(no_mangle)]
pub extern "C" fn gorvisclen_class_as_chained(cla: u8, out: &mut [u64]) -> u8
    ensures { NumbersWritten 11 (class_as_chained_reply cla) out.old result out.new }
{
    match Class::from_byte(cla) {
        Ok(class) => write_numbers(&numbers(class.as_chained()), out),
        Err(refusal) => refusal_status(refusal.number(), out.len(), 11),
    }
}

// Writes one number: the range of the byte (rule 8.1).
#[tactic(auto, unfolding(crate::specs::Numbers::range_reply), using(abi::proofs::AnswerLaws::refusal_written))]
#[unsafe(no_mangle)]
pub extern "C" fn gorvisclen_range(cla: u8, out: &mut [u64]) -> u8
    ensures { NumbersWritten 1 (range_reply cla) out.old result out.new }
{
    match Range::from_cla(cla) {
        Ok(range) => write_numbers(&[range_number(range)], out),
        Err(refusal) => refusal_status(refusal.number(), out.len(), 1),
    }
}

// Writes the bytes of the three constants (rule 8.8).
#[unsafe(no_mangle)]
pub extern "C" fn gorvisclen_class_constants(out: &mut [u64]) -> u8
    ensures { NumbersWritten 3 constants out.old result out.new }
{
    let constants = [class::ZERO_CLA, class::NO_SM_CLA, class::SM_CLA];
    write_numbers(&constants.map(|class| class.into_inner().into()), out)
}
