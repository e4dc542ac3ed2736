// The lines that are printed: what is expected and what is found.
ghost use Rattle.std.specs.Prelude.{◌≤◌};

use crate::text;
use std::fmt;
use std::fmt::Write;

// Standard output. A write that fails is passed over.
#[derive(Drop)]
pub(crate) struct Stdout;

impl fmt::Write for Stdout {
    fn write_str(&mut self, s: &str) -> fmt::Result {
        io::write_all(1, s.as_bytes());
        Ok(())
    }
}

// Bytes, printed in two hexadecimal digits each, up to eight at a time.
#[derive(Clone, Copy)]
pub(crate) struct Hex<'a>(pub(crate) &'a [u8]);

impl fmt::Display for Hex<'_> {
    fn fmt<W: fmt::Write>(&self, f: &mut fmt::Formatter<W>) -> fmt::Result {
        for bytes in self.0.chunks(8) {
            let n = bytes.iter().fold(0u64, |n, b| n << 8 | u64::from(*b));
            let width = 2 * bytes.len();
            write!(f, "{n:0width$x}")?;
        }
        Ok(())
    }
}

// What is found on a line. While it is printed, it is compared with what is expected.
#[derive(Drop)]
pub(crate) struct Shown<'a> {
    // What is still expected; none once something else was found.
    expected: Option<&'a [u8]>,
}

impl fmt::Write for Shown<'_> {
    fn write_str(&mut self, s: &str) -> fmt::Result {
        self.print(s.as_bytes());
        Ok(())
    }
}

impl<'a> Shown<'a> {
    // Prints the start of a line: a name, a label, and what is expected.
    pub(crate) fn start(name: &[u8], label: &str, expected: &'a [u8]) -> Shown<'a> {
        io::write_all(1, name);
        io::write_all(1, label.as_bytes());
        io::write_all(1, expected);
        io::write_all(1, b", found ");
        Shown {
            expected: Some(expected),
        }
    }

    // Prints bytes that are found.
    pub(crate) fn print(&mut self, found: &[u8]) {
        io::write_all(1, found);
        self.expected = self
            .expected
            .and_then(|expected| expected.strip_prefix(found));
    }

    // Prints the end of a line: whether what was found is all that was expected.
    pub(crate) fn verdict(self) -> fmt::Result {
        match self.expected {
            Some([]) => writeln!(Stdout, ": ok"),
            _ => writeln!(Stdout, ": WRONG"),
        }
    }
}

// Prints the results of a line in both readings. Its field with this number is what is expected; the next one is what is
// expected in the standard reading, if that is not the same.
pub(crate) fn in_both_readings<R: Copy, F>(
    line: &[u8],
    number: usize,
    by_crate: R,
    by_standard: R,
    show: F,
) -> fmt::Result
where
    F: Fn(&mut Shown<'_>, R) -> fmt::Result,
    requires number_bound { number ≤ 8 }
    requires callable { F.IsAlwaysCallable show }
{
    let name = text::field(line, 1);
    let expected = text::field(line, number);
    let mut shown = Shown::start(name, ", crate: expected ", expected);
    show(&mut shown, by_crate)?;
    shown.verdict()?;
    let other = text::field(line, number + 1);
    let expected = if other.is_empty() { expected } else { other };
    let mut shown = Shown::start(name, ", standard: expected ", expected);
    show(&mut shown, by_standard)?;
    shown.verdict()
}

// Prints that a line has no known kind.
pub(crate) fn unknown(line: &[u8]) -> fmt::Result {
    io::write_all(1, line);
    writeln!(Stdout, ": WRONG, no such kind")
}
