// The answer of the library, compared with the one in the file.
use crate::input::{byte, number};
use crate::stdout::Stdout;
use std::fmt;
use std::fmt::Write;

// How an answer compares with the one in the file.
#[derive(Clone, Copy, PartialEq, Eq)]
pub(crate) enum Outcome {
    Same,
    Differs,
    // The file ends before the end of the answer.
    CutOff,
}

// An answer that is being compared: whether all its items so far are as expected, and its number if differences are
// printed.
#[derive(Clone, Copy)]
struct Comparison {
    same: bool,
    shown: Option<usize>,
}

impl Comparison {
    // Compares an item: 0 is the reply, 1 to 16 are the numbers written for the host, 17 is the checksum.
    fn item(&mut self, print: &mut Stdout, item: usize, expected: u64, found: u64) -> fmt::Result {
        if expected == found {
            return Ok(());
        }
        self.same = false;
        match self.shown {
            Some(answer) => writeln!(
                print,
                "WRONG: answer {answer}, item {item}: expected {expected}, found {found}"
            ),
            None => Ok(()),
        }
    }

    // Compares the first `count` numbers that were lent.
    fn numbers(&mut self, print: &mut Stdout, out: &[u64; 16], count: usize) -> fmt::Result {
        for (i, found) in out.iter().enumerate().take(count) {
            self.item(print, 1 + i, u64::from(number()), *found)?;
        }
        Ok(())
    }
}

// Fills the lent bytes before a call: each is its place modulo 251.
pub(crate) fn fill_lent(to: &mut [u8]) {
    for (i, b) in to.iter_mut().enumerate() {
        *b = (i % 251) as u8;
    }
}

// A checksum with one more number in it, modulo the prime 4,294,967,291.
fn mixed(sum: u64, n: u64) -> u64 {
    (sum % 0xFFFFFFFB * 65537 + n % 0x100000000 + 1) % 0xFFFFFFFB
}

// The checksum of all that was lent: of the bytes, and then of the 16 numbers, in their order.
fn checksum(to: &[u8], out: &[u64; 16]) -> u64 {
    let sum = to.iter().fold(0, |sum, b| mixed(sum, u64::from(*b)));
    out.iter().fold(sum, |sum, n| mixed(sum, *n))
}

// Reads the next answer of the file and compares it with this one. Differences are printed if its number is given.
pub(crate) fn compare(
    print: &mut Stdout,
    shown: Option<usize>,
    reply: u8,
    to: &[u8],
    out: &[u64; 16],
) -> Result<Outcome, fmt::Error> {
    let mut comparison = Comparison { same: true, shown };
    let count = byte().saturating_sub(5) / 3;
    comparison.item(print, 0, u64::from(byte()), u64::from(reply))?;
    comparison.numbers(print, out, usize::from(count))?;
    let mut sum = [0u8; 4];
    if io::read_full(0, &mut sum) < sum.len() {
        return Ok(Outcome::CutOff);
    }
    let expected = u64::from(u32::from_be_bytes(sum));
    comparison.item(print, 17, expected, checksum(to, out))?;
    if comparison.same {
        return Ok(Outcome::Same);
    }
    Ok(Outcome::Differs)
}
