// Text written into a lent buffer from a place. Each function returns the place after what it wrote.
// Stays: a struct of the buffer and the place, lent to each function, was measured to be slower.
ghost use Rattle.std.specs.Prelude.{◌≡◌, [], ◌∷◌, ◌+◌, ◌≤◌, ◌<◌, length, drop};
ghost use Rattle.listing.specs.Text.{Puts, decimal, hex_digit, hex, takes_number, form_text, filled};

// Writes one character.
fn put_byte(out: &mut [u8], at: usize, b: u8) -> usize
    requires { at + 1 ≤ length out.old }
    ensures { Puts (b ∷ []) at out.old result out.new }
{
    out[at] = b;
    at + 1
}

// The character of a digit below 16: 0 to 9, A to F (rule 10.9).
#[tactic(auto, unfolding(crate::specs::Text::hex_digit))]
fn hex_digit(d: usize) -> u8
    requires { d < 16 }
    ensures { result ≡ hex_digit d }
{
    match d {
        0..=9 => b'0' + d as u8,
        _ => b'A' - 10 + d as u8,
    }
}

// Writes a number in decimal digits (rule 10.9).
fn put_decimal(out: &mut [u8], at: usize, n: usize) -> usize
    requires { at + length (decimal n) ≤ length out.old }
    ensures { Puts (decimal n) at out.old result out.new }
{
    if n < 10 {
        return put_byte(out, at, hex_digit(n));
    }
    let end = put_decimal(out, at, n / 10);
    put_byte(out, end, hex_digit(n % 10))
}

// Writes the low byte of a number in two hexadecimal digits (rule 10.9).
fn put_hex(out: &mut [u8], at: usize, n: usize) -> usize
    requires { at + 2 ≤ length out.old }
    ensures { Puts (hex n) at out.old result out.new }
{
    let end = put_byte(out, at, hex_digit(n / 16 % 16));
    put_byte(out, end, hex_digit(n % 16))
}

// Writes what a character of a form stands for: % a number in decimal digits, # a byte in hexadecimal ones, else
// itself.
#[tactic(auto, unfolding(crate::specs::Text::form_text, crate::specs::Text::hex))]
fn put_form_text(out: &mut [u8], at: usize, c: u8, n: usize) -> usize
    requires { at + length (form_text c n) ≤ length out.old }
    ensures { Puts (form_text c n) at out.old result out.new }
{
    match c {
        b'%' => put_decimal(out, at, n),
        b'#' => put_hex(out, at, n),
        _ => put_byte(out, at, c),
    }
}

// The numbers that are left after a character of a form: % and # take one.
#[tactic(auto, unfolding(crate::specs::Text::takes_number))]
fn numbers_after<'a>(c: u8, numbers: &'a [usize]) -> &'a [usize]
    ensures { result.now ≡ drop (takes_number c) numbers.now }
{
    match c {
        b'%' | b'#' => numbers.get(1..).unwrap_or(&[]),
        _ => numbers,
    }
}

// Writes a form with its numbers filled in from the left. A number that is missing counts as 0.
pub(crate) fn fill(out: &mut [u8], at: usize, form: &[u8], numbers: &[usize]) -> usize
    requires { at + length (filled form.now numbers.now) ≤ length out.old }
    ensures { Puts (filled form.now numbers.now) at out.old result out.new }
{
    let mut place = at;
    let mut left = numbers;
    for &c in form {
        place = put_form_text(out, place, c, left.first().copied().unwrap_or(0));
        left = numbers_after(c, left);
    }
    place
}
