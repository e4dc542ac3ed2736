// What a host program calls for a builder: the length of its command, the same with extended lengths forced, its
// comparison with a command, and its command written (rule 12.6). Each function replies 0, or the number of a refusal,
// and writes one number into the slice `out` if it replies 0.
// Stays: a builder goes in as numbers, one by one, and what is replied goes out as numbers: the C interface.
#![tactic(auto)]

ghost use Rattle.std.specs.Prelude.{◌≡◌};
ghost use Rattle.basis.specs.Refusal.{refusal_number, as_reply};
ghost use Rattle.abi.specs.Answers.{NumbersWritten};
ghost use Rattle.builder_abi.specs.Numbers.{required_len_reply, force_extended_reply, smaller, builder_eq_reply};
ghost use Rattle.builder_abi.specs.Steps.{forcing, required, requiring, comparing, equal_numbers};

mod write;

use abi::{builder_by_numbers, flag, refusal_status, write_numbers};
use basis::Refusal;
use builder::CommandBuilder;
use byte_slices::part;
use class::Reading;
use command::CommandView;
pub use write::gorvisclen_serialize_into;

// The same builder with extended lengths forced, or the refusal (rule 3.2).
fn forced(built: Result<CommandBuilder, Refusal>) -> Result<CommandBuilder, Refusal>
    ensures { as_reply result ≡ forcing (as_reply built) }
{
    built?.force_extended()
}

// The length of its command with these data, or the refusal.
fn required_len(built: Result<CommandBuilder, Refusal>, data: &[u8]) -> Result<usize, Refusal>
    ensures { as_reply result ≡ required (as_reply built) «data».now }
{
    built?.required_len(data)
}

// Writes that length.
fn write_required_len(built: Result<CommandBuilder, Refusal>, data: &[u8], out: &mut [u64]) -> u8
    ensures { NumbersWritten 1 (requiring (as_reply built) «data».now) out.old result out.new }
{
    match required_len(built, data) {
        Err(refusal) => refusal_status(refusal.number(), out.len(), 1),
        Ok(n) => write_numbers(&[n as u64], out),
    }
}

// Writes one number for the host: the length of the command (rule 11.9).
#[unsafe(no_mangle)]
pub extern "C" fn gorvisclen_required_len(
    class: u8,
    instruction: u8,
    p1: u8,
    p2: u8,
    le: u32,
    mode: u8,
    data: &[u8],
    out: &mut [u64],
) -> u8
    ensures { NumbersWritten 1 (required_len_reply class instruction p1 p2 le mode «data».now) out.old result
        out.new }
{
    let built = builder_by_numbers(class, instruction, p1, p2, le, mode, data);
    write_required_len(built, data, out)
}

// Writes the same with extended lengths forced; 15 if they are unsupported (rule 3.2).
#[unsafe(no_mangle)]
pub extern "C" fn gorvisclen_force_extended(
    class: u8,
    instruction: u8,
    p1: u8,
    p2: u8,
    le: u32,
    mode: u8,
    data: &[u8],
    out: &mut [u64],
) -> u8
    ensures { NumbersWritten 1 (force_extended_reply class instruction p1 p2 le mode «data».now) out.old result
        out.new }
{
    let built = builder_by_numbers(class, instruction, p1, p2, le, mode, data);
    let extended = forced(built);
    write_required_len(extended, data, out)
}

// A refusal to read, or that to build if its number is smaller (rule 1.22).
fn smaller(built: Result<CommandBuilder, Refusal>, unread: Refusal) -> Refusal
    ensures { refusal_number result ≡ smaller (as_reply built) (refusal_number unread) }
{
    match built {
        Err(unbuilt) if unbuilt.number() < unread.number() => unbuilt,
        _ => unread,
    }
}

// A builder with these data compared with a command.
fn compared(
    built: Result<CommandBuilder, Refusal>,
    data: &[u8],
    apdu: &[u8],
) -> Result<bool, Refusal>
    ensures { as_reply result ≡ comparing (as_reply built) «data».now apdu.now }
{
    match CommandView::try_from(Reading::Crate, apdu) {
        Err(unread) => Err(smaller(built, unread)),
        Ok(view) => builder_compare::eq(built?, data, view, part(apdu, view.at, view.len)),
    }
}

// Writes 1 if they are equal, else 0.
fn write_equal(answer: Result<bool, Refusal>, out: &mut [u64]) -> u8
    ensures { NumbersWritten 1 (equal_numbers (as_reply answer)) out.old result out.new }
{
    match answer {
        Err(refusal) => refusal_status(refusal.number(), out.len(), 1),
        Ok(equal) => write_numbers(&[flag(equal)], out),
    }
}

// Writes one number for the host: 1 if the builder equals the command, else 0 (rule 3.10).
#[unsafe(no_mangle)]
pub extern "C" fn gorvisclen_builder_eq(
    class: u8,
    instruction: u8,
    p1: u8,
    p2: u8,
    le: u32,
    mode: u8,
    data: &[u8],
    apdu: &[u8],
    out: &mut [u64],
) -> u8
    ensures { NumbersWritten 1 (builder_eq_reply class instruction p1 p2 le mode «data».now apdu.now) out.old
        result out.new }
{
    let built = builder_by_numbers(class, instruction, p1, p2, le, mode, data);
    write_equal(compared(built, data, apdu), out)
}
