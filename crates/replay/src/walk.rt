// The sections of the file, and their answers, each replayed on the proved library.
use crate::answer::Outcome;
use crate::input::{Form, SPACE, byte, place, short_number};
use crate::stdout::Stdout;
use crate::{answer, calls, input};
use std::fmt;
use std::fmt::Write;

// How many answers there are, how many of them differ, and whether the file has all of the last one.
#[derive(Clone, Copy, Default)]
struct Tally {
    answers: usize,
    differing: usize,
    whole: bool,
}

impl Tally {
    // Adds an answer.
    fn add(&mut self, outcome: Outcome) {
        self.answers = self.answers.saturating_add(1);
        if outcome != Outcome::Same {
            self.differing = self.differing.saturating_add(1);
        }
        self.whole = outcome != Outcome::CutOff;
    }

    // Adds the answers of a section.
    fn add_section(&mut self, section: Tally) {
        self.answers = self.answers.saturating_add(section.answers);
        self.differing = self.differing.saturating_add(section.differing);
        self.whole = section.whole;
    }

    // Prints how many answers there are, and how many of them differ, after a name.
    fn print(self, print: &mut Stdout, name: &[u8]) -> fmt::Result {
        let Tally {
            answers,
            differing,
            ..
        } = self;
        io::write_all(1, name);
        writeln!(print, ": {answers} answers, {differing} differ")
    }
}

// Replays the next answer of the file: calls the operation with its two strings, its numbers and the lent bytes, as
// many as its first number says. Differences are printed if the number of the answer is given.
fn replay_answer(
    print: &mut Stdout,
    operation: u8,
    shown: Option<usize>,
) -> Result<Outcome, fmt::Error> {
    let mut first = input::space();
    let mut second = input::space();
    let mut lent = input::space();
    let mut out = [
        700u64, 701, 702, 703, 704, 705, 706, 707, 708, 709, 710, 711, 712, 713, 714, 715,
    ];
    let len = usize::from(short_number());
    let one = Form::next();
    let first_len = one.read_string(&mut first);
    let two = Form::next();
    let second_len = two.read_string(&mut second);
    let count = len.saturating_sub(one.taken()).saturating_sub(two.taken()) / 3;
    let at = SPACE.saturating_sub(place());
    let to = &mut lent[at..];
    answer::fill_lent(to);
    let reply = calls::call(
        operation,
        count.saturating_sub(1),
        &first[..first_len],
        &second[..second_len],
        to,
        &mut out,
    );
    answer::compare(print, shown, reply, to, &out)
}

// Replays the `count` answers of a section. The first difference is printed.
fn replay_section(print: &mut Stdout, operation: u8, count: u16) -> Result<Tally, fmt::Error> {
    let mut tally = Tally::default();
    for answer in 0..usize::from(count) {
        let shown = if tally.differing == 0 {
            Some(answer + 1)
        } else {
            None
        };
        tally.add(replay_answer(print, operation, shown)?);
    }
    Ok(tally)
}

// Replays the next section, and prints its line.
fn replay_next(print: &mut Stdout) -> Result<Tally, fmt::Error> {
    let operation = byte();
    let mut name = [0u8; 255];
    let len = input::read(&mut name, byte());
    let tally = replay_section(print, operation, short_number())?;
    tally.print(print, &name[..len])?;
    Ok(tally)
}

// Prints whether the file is whole: the last answer is, and nothing is after it.
fn print_end(print: &mut Stdout, whole: bool) -> fmt::Result {
    let mut more = [0u8; 1];
    if whole && io::read_full(0, &mut more) == 0 {
        return writeln!(print, "the file is whole");
    }
    writeln!(print, "WRONG: the file is not whole")
}

// Replays the file.
pub(crate) fn replay(print: &mut Stdout) -> fmt::Result {
    let mut all = Tally::default();
    for _ in 0..byte() {
        all.add_section(replay_next(print)?);
    }
    all.print(print, b"total")?;
    print_end(print, all.whole)
}
