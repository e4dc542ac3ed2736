// How an exported function answers: a status, which is 0 or the number of a refusal, and numbers at the front of a lent
// slice (rules 1.16, 1.22 and 1.24).
ghost use Rattle.basis.specs.Reply.{ok};
ghost use Rattle.abi.specs.Answers.{NumbersWritten, unless_refused, row, RowTold, CopiedWith, BytesCopied, RefusalStatusIs, UsableLenIs, FlagIs};
ghost use Rattle.std.specs.Prelude.{length};

// An answer as numbers: its refusal, or 0, and then two numbers.
// Stays: a status beside numbers is what a host gets, and the promise `NumbersOf` says it of them.
#[derive(Clone, Copy)]
pub struct Numbers(pub u8, pub u64, pub u64);

// Writes numbers to the front of a lent slice. Returns 0, or 16 if the slice is too short.
pub fn write_numbers(numbers: &[u64], out: &mut [u64]) -> u8
    ensures { NumbersWritten (length numbers.now) (ok numbers.now) out.old result out.new }
{
    if out.len() < numbers.len() {
        return 16;
    }
    // Stays: a row is short, and the call that `copy_from_slice` makes takes longer than the numbers one by one.
    for i in 0..numbers.len() {
        out[i] = numbers[i];
    }
    0
}

// The status of refusal k, if a slice of `lent` numbers was given and `needed` are needed: 16 if the slice is too short
// and k is above 16, since the smaller number is given (rule 1.22).
pub fn refusal_status(k: u8, lent: usize, needed: usize) -> u8
    ensures { RefusalStatusIs k lent needed result }
{
    if lent < needed { k.min(16) } else { k }
}

// How many of `len` bytes a function may use: none if `lent` numbers were given and more are needed.
pub fn usable_len(len: usize, lent: usize, needed: usize) -> usize
    ensures { UsableLenIs len lent needed result }
{
    if lent < needed { 0 } else { len }
}

// Writes the numbers if the refusal given is 0; otherwise returns the status of that refusal.
pub fn write_unless_refused(refusal: u8, numbers: &[u64], out: &mut [u64]) -> u8
    ensures { NumbersWritten (length numbers.now) (unless_refused refusal numbers.now) out.old result
        out.new }
{
    if refusal == 0 {
        return write_numbers(numbers, out);
    }
    refusal_status(refusal, out.len(), numbers.len())
}

// Writes the numbers whatever the status is, and returns the status: 0, or a refusal that carries numbers (rule 15.7).
// If the slice is too short, nothing is written: 16, or the refusal if it is smaller (rule 1.22).
pub fn tell_row(status: u8, numbers: &[u64], out: &mut [u64]) -> u8
    ensures { RowTold (row status numbers.now) out.old result out.new }
{
    if numbers.len() <= out.len() {
        write_numbers(numbers, out);
        return status;
    }
    if status == 0 {
        return 16;
    }
    refusal_status(status, out.len(), numbers.len())
}

// 1 for true and 0 for false.
pub fn flag(b: bool) -> u64
    ensures { FlagIs b result }
{
    u64::from(b)
}

// Copies bytes to the front of a lent slice, and writes numbers to `out`. If one of the two is too short, neither
// changes: 16.
pub fn copy_and_tell(part: &[u8], to: &mut [u8], numbers: &[u64], out: &mut [u64]) -> u8
    ensures { CopiedWith numbers.now part.now to.old out.old result to.new out.new }
{
    if numbers.len() > out.len() || to.len() < part.len() {
        return 16;
    }
    to[..part.len()].copy_from_slice(part);
    write_numbers(numbers, out)
}

// Copies bytes to the front of a lent slice, and writes how many they are to `out`.
pub fn copy_bytes(part: &[u8], to: &mut [u8], out: &mut [u64]) -> u8
    ensures { BytesCopied part.now to.old out.old result to.new out.new }
{
    copy_and_tell(part, to, &[part.len() as u64], out)
}
