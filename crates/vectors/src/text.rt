// Reads the text of a line: its fields, bytes and numbers.
ghost use Rattle.std.specs.Prelude.{◌≤◌, ◌<◌, length};
ghost use Rattle.std.specs.Iterator.{at_most};

// The parts of a text, with a separator and one byte more, a blank, between them. What follows the last separator is a
// part only if it has bytes.
#[derive(Drop)]
pub(crate) struct Parts<'a> {
    rest: &'a [u8],
    separator: u8,
}

impl<'a> Iterator for Parts<'a> {
    type Item = &'a [u8];

    ghost remaining = { λ s. at_most (length s.rest.now) };

    fn next(&mut self) -> Option<&'a [u8]> {
        let text = self.rest;
        let separator = self.separator;
        if text.is_empty() {
            return None;
        }
        let end = text
            .iter()
            .position(|b| *b == separator)
            .unwrap_or(text.len());
        self.rest = text.get(end + 2..).unwrap_or(&[]);
        Some(&text[..end])
    }
}

impl<'a> Parts<'a> {
    // All parts of a text.
    pub(crate) fn new(text: &'a [u8], separator: u8) -> Self {
        Self {
            rest: text,
            separator,
        }
    }
}

// The field with this number; the first one is 0. No bytes if there is none.
pub(crate) fn field<'a>(line: &'a [u8], number: usize) -> &'a [u8] {
    Parts::new(line, b';').nth(number).unwrap_or(&[])
}

// The base of a number.
#[derive(Clone, Copy)]
pub(crate) enum Base {
    Decimal,
    Hexadecimal,
}

// A hexadecimal digit; 0 for any other byte.
fn digit(b: u8) -> u32
    ensures { result < 16 }
{
    char::from(b).to_digit(16).unwrap_or(0)
}

impl Base {
    // A number with one more digit. In decimal numbers other characters are passed over.
    fn with_digit(self, n: u32, b: u8) -> u32 {
        match self {
            Base::Decimal => match char::from(b).to_digit(10) {
                Some(digit) => n % 0x1000000 * 10 + digit,
                None => n,
            },
            Base::Hexadecimal => n % 0x10000000 * 16 + digit(b),
        }
    }

    // The number that a text says.
    fn number(self, text: &[u8]) -> u32 {
        text.iter().fold(0, |n, b| self.with_digit(n, *b))
    }

    // The numbers of a text, with commas between them; 0 for each that it does not have.
    pub(crate) fn numbers<const N: usize>(self, text: &[u8]) -> [u32; N] {
        let mut numbers = [0; N];
        for (n, part) in numbers.iter_mut().zip(text.split(|b| *b == b',')) {
            *n = self.number(part);
        }
        numbers
    }
}

// The numbers of a text in decimal, with commas between them; words are passed over.
pub(crate) fn numbers<const N: usize>(text: &[u8]) -> [u32; N] {
    Base::Decimal.numbers(text)
}

// Reads the tags of a path, with commas between them, to the front of a buffer. No text is the empty path.
pub(crate) fn path<'a>(text: &[u8], tags: &'a mut [u32; 8]) -> &'a [u32] {
    if text.is_empty() {
        return &[];
    }
    *tags = Base::Hexadecimal.numbers(text);
    let len = text.split(|b| *b == b',').count();
    &tags[..len.min(8)]
}

// The byte that two hexadecimal digits say, or one.
fn byte(digits: &[u8]) -> u8 {
    match digits {
        [high, low] => (digit(*high) * 16 + digit(*low)) as u8,
        [low] => digit(*low) as u8,
        _ => 0,
    }
}

// Reads bytes of two hexadecimal digits each to the front of a buffer, as many as it has room for.
pub(crate) fn read(text: &[u8], to: &mut [u8]) {
    for (b, digits) in to.iter_mut().zip(text.chunks(2)) {
        *b = byte(digits);
    }
}

// The same, and returns the bytes; none if there is no room for all.
pub(crate) fn bytes<'a>(text: &[u8], space: &'a mut [u8]) -> &'a [u8] {
    read(text, space);
    space.get(..text.len() / 2).unwrap_or(&[])
}

// Copies bytes to a place, if they fit there, and returns the place after them.
fn append(more: &[u8], to: &mut [u8], at: usize) -> usize
    requires { at ≤ length to.old }
    ensures { result ≤ length to.new }
{
    let end = at + more.len();
    match to.get_mut(at..end) {
        Some(room) => {
            room.copy_from_slice(more);
            end
        }
        None => at,
    }
}

// Copies bytes so many times, one after the other from a place, and returns the place after them.
fn append_times(more: &[u8], times: u32, to: &mut [u8], start: usize) -> usize
    requires { start ≤ length to.old }
    ensures { result ≤ length to.new }
{
    let mut at = start;
    for _ in 0..times {
        at = append(more, to, at);
    }
    at
}

// Reads bytes with a number of times, as C100 x 255, or without one, to a place, and returns the place after them.
fn read_part(part: &[u8], to: &mut [u8], at: usize) -> usize
    requires { at ≤ length to.old }
    ensures { result ≤ length to.new }
{
    let mut space = [0u8; 600];
    match part.iter().position(|b| *b == b' ') {
        Some(n) => {
            let times = Base::Decimal.number(&part[n..]);
            append_times(bytes(&part[..n], &mut space), times, to, at)
        }
        None => append(bytes(part, &mut space), to, at),
    }
}

// Reads long bytes to the front of a buffer, and returns them: parts with commas between them, as C100 x 255, 5F.
pub(crate) fn long_bytes<'a>(text: &[u8], space: &'a mut [u8]) -> &'a [u8] {
    let mut at = 0;
    for part in Parts::new(text, b',') {
        at = read_part(part, space, at);
    }
    &space[..at]
}
