// Writing a command into a lent buffer: each function writes its own fields into the part that starts at their place.
// Rules 3.8 and 3.9.
// Ported, with changes, from src/command.rs of the crate iso7816 0.2.2 (see NOTICE).
ghost use Rattle.std.specs.Prelude.{◌≡◌, ◌++◌, ◌+◌, ◌≤◌, length};
ghost use Rattle.basis.specs.Over.{over};
ghost use Rattle.builder.specs.Bytes.{header, SerializeIntoIs};
ghost use Rattle.builder.specs.Sizes.{field, laid_out, Fits};

use crate::CommandBuilder;
use crate::sizes::{Fields, sizes};
use basis::Refusal;

// The four header bytes.
fn put_header(builder: CommandBuilder, to: &mut [u8])
    requires { 4 ≤ length to.old }
    ensures { to.new ≡ over (header builder) to.old }
{
    to[0] = builder.class.into_inner();
    to[1] = builder.instruction;
    to[2] = builder.p1;
    to[3] = builder.p2;
}

// A length field of no byte, one, two, or a zero byte and two, written straight into its part (rule 12.15). 256 in one
// byte and 65,536 in two are zeros (rule 3.8).
// Stays: the bytes are taken one by one, since no scratch array, as that of `to_be_bytes`, holds a field (rule 12.15).
fn put_field(size: usize, n: usize, to: &mut [u8])
    requires { (size ≤ 3) × (size ≤ length to.old) }
    ensures { to.new ≡ over (field size n) to.old }
{
    let low = (n % 256) as u8;
    if size == 0 {
        return;
    }
    if size == 1 {
        to[0] = low;
        return;
    }
    let high = (n / 256 % 256) as u8;
    if size == 2 {
        to[0] = high;
        to[1] = low;
        return;
    }
    to[0] = 0;
    to[1] = high;
    to[2] = low;
}

// An Lc of this many bytes, and the data after it.
fn put_data(lc: usize, data: &[u8], to: &mut [u8])
    requires { (lc ≤ 3) × (lc + length «data».now ≤ length to.old) }
    ensures { to.new ≡ over (field lc (length «data».now) ++ «data».now) to.old }
{
    put_field(lc, data.len(), to);
    to[lc..lc + data.len()].copy_from_slice(data);
}

// A command that fits: header, Le, then Lc and data, each written into the part that starts at its place (rule 12.12).
// Le comes before the data, so that nothing of it is kept while they are copied (rule 12.15).
fn put_command(builder: CommandBuilder, sizes: Fields, data: &[u8], to: &mut [u8])
    requires { Fits sizes (length «data».now) (length to.old) }
    ensures { to.new ≡ over (laid_out builder sizes «data».now) to.old }
{
    put_header(builder, to);
    let at_le = 4 + sizes.lc + data.len();
    put_field(sizes.le, sizes.written, &mut to[at_le..]);
    put_data(sizes.lc, data, &mut to[4..]);
}

impl CommandBuilder {
    // Writes the command with these data into a buffer from a place. Bytes before it and after it stay (rule 3.9).
    pub fn serialize_into(self, data: &[u8], buffer: &mut [u8], at: usize) -> Result<usize, Refusal>
        ensures { SerializeIntoIs self «data».now buffer.old at result buffer.new }
    {
        let n = data.len();
        if 65535 < n {
            return Err(Refusal::DataTooLong);
        }
        if buffer.len() < at {
            return Err(Refusal::DoesNotFit);
        }
        let sizes = sizes(self, n);
        let len = 4 + sizes.lc + n + sizes.le;
        if buffer.len() - at < len {
            return Err(Refusal::DoesNotFit);
        }
        put_command(self, sizes, data, &mut buffer[at..]);
        Ok(len)
    }
}
