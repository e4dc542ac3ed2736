// Numbers of two and of three bytes at a place of a file (rule 17.5).
ghost use Rattle.std.specs.Prelude.{◌≡◌, ◌+◌, ◌≤◌, length};
ghost use Rattle.basis.specs.Number.{be};
ghost use Rattle.basis.specs.Over.{over_at};
ghost use Rattle.tlv_index.specs.File.{field};

// The number in N bytes, the highest byte first.
pub(crate) fn number_at<const N: usize>(file: &[u8], at: usize) -> usize
    requires { (N ≤ 3) × (at + N ≤ length file.now) }
    ensures { result ≡ field N at file.now }
{
    let mut number = 0;
    for i in 0..N {
        number = number * 256 + usize::from(file[at + i]);
    }
    number
}

// Writes a number as N bytes, the highest byte first.
pub(crate) fn put_number<const N: usize>(file: &mut [u8], at: usize, number: usize)
    requires { at + N ≤ length file.old }
    ensures { file.new ≡ over_at at (be N number) file.old }
{
    let mut rest = number;
    for i in 0..N {
        file[at + (N - 1 - i)] = (rest % 256) as u8;
        rest /= 256;
    }
}
