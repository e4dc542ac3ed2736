// What C and Rust programs link of the library `class_abi`: each function calls the one there that has its
// name, and promises the same. host/exports writes this file.
#![tactic(auto)]

ghost use Rattle.abi.specs.Answers.{NumbersWritten};
ghost use Rattle.class_abi.specs.Numbers.{class_reply, class_as_chained_reply, range_reply, constants};

// Writes 11 numbers (rules 8.1 to 8.7): the byte; its range; secure messaging in the crate and in the standard reading;
// whether there is none in the crate and in the standard reading; the chaining answer and its two tests; the channel in
// the crate and in the standard reading, 256 for none.
#[unsafe(no_mangle)]
pub extern "C" fn gorvisclen_class(cla: u8, out: &mut [u64]) -> u8
    ensures { NumbersWritten 11 (class_reply cla) out.old result out.new }
{
    class_abi::gorvisclen_class(cla, out)
}

// Writes the same 11 numbers of the class with its chaining bit set (rule 8.3).
#[unsafe(no_mangle)]
pub extern "C" fn gorvisclen_class_as_chained(cla: u8, out: &mut [u64]) -> u8
    ensures { NumbersWritten 11 (class_as_chained_reply cla) out.old result out.new }
{
    class_abi::gorvisclen_class_as_chained(cla, out)
}

// Writes one number: the range of the byte (rule 8.1).
#[unsafe(no_mangle)]
pub extern "C" fn gorvisclen_range(cla: u8, out: &mut [u64]) -> u8
    ensures { NumbersWritten 1 (range_reply cla) out.old result out.new }
{
    class_abi::gorvisclen_range(cla, out)
}

// Writes the bytes of the three constants (rule 8.8).
#[unsafe(no_mangle)]
pub extern "C" fn gorvisclen_class_constants(out: &mut [u64]) -> u8
    ensures { NumbersWritten 3 constants out.old result out.new }
{
    class_abi::gorvisclen_class_constants(out)
}
