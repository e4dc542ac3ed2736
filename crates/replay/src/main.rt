// The program replay: calls the proved library with recorded inputs and compares its answers with those that the
// original Rust gave. It prints for each operation how many answers there are and how many differ. Standard input is a
// file that host/record-answers makes beside the Rust.
//
// The file. All numbers are big-endian.
//   file:    how many sections (one byte); the sections; nothing after them
//   section: an operation (one byte); the length of its name (one byte); its name; how many answers (two bytes); the
//            answers
//   answer:  the length of the input (two bytes); the input; the length of the output (one byte); the output
//   input:   two strings; numbers of three bytes each. The first number is how many bytes are lent to be written. The
//            others are parameters of the function, in their order; the tags of a path are the last
//   string:  a length below 255 (one byte) and so many bytes. Or 255; the length of a filling (three bytes); its first
//            byte; the step from each of its bytes to the next; how many bytes are before it and how many after it (one
//            byte each); these bytes. So a string of 65,535 bytes takes a few
//   output:  the reply, 0 or the number of a refusal (one byte); the numbers written for the host (three bytes each); a
//            checksum of all that was lent, after the call (four bytes)
//
// An operation is an exported function; src/calls.rt lists them. Before a call each lent byte is its place modulo 251,
// and each of the 16 lent numbers is 700 plus its place.
#![tactic(auto)]

mod answer;
mod calls;
mod input;
mod stdout;
mod walk;

fn main() {
    let _ = walk::replay(&mut stdout::Stdout);
}
