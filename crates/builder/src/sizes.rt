// How many bytes Lc and Le take, and the command with them. Rules 3.3 to 3.7.
// Ported, with changes, from src/command.rs of the crate iso7816 0.2.2 (see NOTICE).
ghost use Rattle.std.specs.Prelude.{◌≡◌};
ghost use Rattle.builder.specs.Bytes.{le_number, lowered_len, LoweredIs, RequiredLenIs};
ghost use Rattle.builder.specs.Sizes.{extended, lc_size, le_size, fields_of};
ghost use Rattle.builder.specs.declared.ExtendedLen.TheVariants.{Unsupported};

use crate::{CommandBuilder, ExpectedLen, ExtendedLen};
use basis::Refusal;

// How many bytes Lc and Le take, and the number that is written as Le.
#[derive(Clone, Copy)]
pub struct Fields {
    pub lc: usize,
    pub le: usize,
    pub written: usize,
}

// The expected length as a number, Max as 65,536.
fn le_number(le: ExpectedLen) -> usize
    ensures { result ≡ le_number le }
{
    match le {
        ExpectedLen::Ne(n) => usize::from(n),
        ExpectedLen::Max => 65536,
    }
}

// An expected length lowered to at most 256; Max too (rule 3.3).
fn at_most_256(le: ExpectedLen) -> ExpectedLen
    ensures { result ≡ lowered_len Unsupported le }
{
    match le {
        // Stays: with `n.min(256)`, writing a command takes 80 bytes of the stack in place of 64.
        ExpectedLen::Ne(n) if n <= 256 => ExpectedLen::Ne(n),
        _ => ExpectedLen::Ne(256),
    }
}

// The expected length that is written: short only lowers it to at most 256, other modes leave it (rule 3.3).
fn lowered_len(mode: ExtendedLen, le: ExpectedLen) -> ExpectedLen
    ensures { result ≡ lowered_len mode le }
{
    match mode {
        ExtendedLen::Unsupported => at_most_256(le),
        ExtendedLen::Supported | ExtendedLen::Forced => le,
    }
}

// Whether lengths are extended, for n data bytes and a written Le of e (rules 3.4 and 3.7).
#[tactic(auto, unfolding(crate::specs::Sizes::extended))]
fn extended(mode: ExtendedLen, n: usize, e: usize) -> bool
    ensures { result ≡ extended mode n e }
{
    255 < n || 256 < e || mode == ExtendedLen::Forced
}

// How many bytes Lc takes: none without data, three if extended, else one (rules 3.4 and 3.5).
#[tactic(auto, unfolding(crate::specs::Sizes::lc_size))]
fn lc_size(extended: bool, n: usize) -> usize
    ensures { result ≡ lc_size extended n }
{
    if n == 0 {
        return 0;
    }
    if extended { 3 } else { 1 }
}

// How many bytes Le takes: none for 0; if extended, three without data and two after Lc; else one (rules 3.6 and 3.7).
#[tactic(auto, unfolding(crate::specs::Sizes::le_size))]
fn le_size(extended: bool, n: usize, e: usize) -> usize
    ensures { result ≡ le_size extended n e }
{
    if e == 0 {
        return 0;
    }
    if extended {
        if n == 0 {
            return 3;
        }
        return 2;
    }
    1
}

// The sizes of Lc and Le for n data bytes, and the written Le.
#[tactic(auto, using(crate::proofs::Cases::lc_sized, crate::proofs::Cases::le_sized), unfolding(crate::specs::Bytes::le_written))]
pub(crate) fn sizes(builder: CommandBuilder, n: usize) -> Fields
    ensures { result ≡ fields_of builder n }
{
    let written = le_number(lowered_len(builder.mode, builder.le));
    let is_extended = extended(builder.mode, n, written);
    Fields {
        lc: lc_size(is_extended, n),
        le: le_size(is_extended, n, written),
        written,
    }
}

impl CommandBuilder {
    // The builder with the expected length that its command has: short only lowers it to at most 256 (rule 3.3).
    pub fn lowered(self) -> CommandBuilder
        ensures { LoweredIs self result }
    {
        CommandBuilder {
            le: lowered_len(self.mode, self.le),
            ..self
        }
    }

    // The length of the command with these data: four plus the bytes of Lc, data and Le (rule 11.9); or 13.
    pub fn required_len(self, data: &[u8]) -> Result<usize, Refusal>
        ensures { RequiredLenIs self «data».now result }
    {
        let n = data.len();
        if 65535 < n {
            return Err(Refusal::DataTooLong);
        }
        let sizes = sizes(self, n);
        Ok(4 + sizes.lc + n + sizes.le)
    }
}
