// What the crates of exported functions share: how they answer a host program, and what the numbers of a host mean.
#![tactic(auto)]

mod answers;
mod builders;
mod commands;
mod lengths;
mod lookups;
mod readings;

pub use answers::{
    Numbers, copy_and_tell, copy_bytes, flag, refusal_status, tell_row, usable_len, write_numbers,
    write_unless_refused,
};
pub use builders::{builder_by_numbers, expected_len_by_number, mode_by_number};
pub use commands::{command_numbers, command_of_length};
pub use lengths::expected_len_number;
pub use lookups::tell_lookup;
pub use readings::{class_reading_by_number, tlv_reading_by_number};
