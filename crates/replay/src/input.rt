// The file, read from front to end. Past its end there are zeros, so a file that is cut short or changed is read to an
// end too.
ghost use Rattle.std.specs.Prelude.{◌≡◌, ◌<◌, ◌≤◌, length};

// How many bytes `space` has.
pub(crate) const SPACE: usize = 65600;

// Zeros, enough for the longest string and for the bytes that are lent with it.
pub(crate) fn space() -> [u8; SPACE]
    ensures { 65600 ≡ length result }
{
    [0; SPACE]
}

// The next byte.
pub(crate) fn byte() -> u8 {
    let mut bytes = [0u8; 1];
    io::read_full(0, &mut bytes);
    bytes[0]
}

// The next number of two bytes.
pub(crate) fn short_number() -> u16 {
    let mut bytes = [0u8; 2];
    io::read_full(0, &mut bytes);
    u16::from_be_bytes(bytes)
}

// The next number of three bytes.
pub(crate) fn number() -> u32 {
    let mut bytes = [0u8; 4];
    io::read_full(0, &mut bytes[1..]);
    u32::from_be_bytes(bytes)
}

// The next number of three bytes, as a place or a length.
pub(crate) fn place() -> usize
    ensures { result < 0x100000000 }
{
    number() as usize
}

// Reads the next `count` numbers of three bytes, at most 16.
pub(crate) fn numbers(to: &mut [u32; 16], count: usize) {
    for n in to.iter_mut().take(count) {
        *n = number();
    }
}

// Reads the next n bytes to the front of a buffer, if there is room for them. Returns how many the file has.
pub(crate) fn read(to: &mut [u8], n: u8) -> usize
    ensures { result ≤ length to.new }
{
    match to.get_mut(..usize::from(n)) {
        Some(room) => io::read_full(0, room),
        None => 0,
    }
}

// Bytes that rise by a step from each to the next.
#[derive(Clone, Copy)]
pub(crate) struct Filling {
    len: usize,
    first: u8,
    step: u8,
}

impl Filling {
    // Writes it to the front of a buffer, as far as there is room. Returns how many bytes that are.
    fn write(self, to: &mut [u8]) -> usize
        ensures { result ≤ length to.new }
    {
        let mut next = self.first;
        for b in to.iter_mut().take(self.len) {
            *b = next;
            next = next.wrapping_add(self.step);
        }
        self.len.min(to.len())
    }
}

// How a string is written in the file.
#[derive(Clone, Copy)]
pub(crate) enum Form {
    // So many bytes.
    Bytes(u8),
    // A filling, with so many bytes before it and after it.
    Filled {
        front: u8,
        filling: Filling,
        back: u8,
    },
}

impl Form {
    // The form of the next string.
    pub(crate) fn next() -> Form {
        let n = byte();
        if n < 255 {
            return Form::Bytes(n);
        }
        let filling = Filling {
            len: place(),
            first: byte(),
            step: byte(),
        };
        Form::Filled {
            front: byte(),
            filling,
            back: byte(),
        }
    }

    // How many bytes of the file the string takes.
    pub(crate) fn taken(self) -> usize {
        match self {
            Form::Bytes(n) => 1 + usize::from(n),
            Form::Filled { front, back, .. } => 8 + usize::from(front) + usize::from(back),
        }
    }

    // Reads the string to the front of a buffer, and returns its length.
    pub(crate) fn read_string(self, to: &mut [u8]) -> usize
        ensures { result ≤ length to.new }
    {
        match self {
            Form::Bytes(n) => read(to, n),
            Form::Filled {
                front,
                filling,
                back,
            } => {
                let start = read(to, front);
                let end = start + filling.write(&mut to[start..]);
                end + read(&mut to[end..], back)
            }
        }
    }
}
