// The calls: each exported function by its number in the file, with its parameters in their order.
use crate::input::{byte, number, numbers, place, short_number};
use aid_abi::{gorvisclen_aid, gorvisclen_aid_matches, gorvisclen_aid_part, gorvisclen_aid_whole};
use builder_abi::{
    gorvisclen_builder_eq, gorvisclen_force_extended, gorvisclen_required_len,
    gorvisclen_serialize_into,
};
use class_abi::{
    gorvisclen_class, gorvisclen_class_as_chained, gorvisclen_class_constants, gorvisclen_range,
};
use command_abi::gorvisclen_command;
use command_owned_abi::{
    gorvisclen_command_data, gorvisclen_command_extend, gorvisclen_command_owned,
};
use splitter_abi::{gorvisclen_new_non_extended, gorvisclen_should_split, gorvisclen_write_next};
use tlv_abi::{
    gorvisclen_put_data_object, gorvisclen_take_data_object, gorvisclen_take_len,
    gorvisclen_take_tag, gorvisclen_value,
};
use tlv_lookup_abi::gorvisclen_get_data_object;

// The first parameters of a builder and of a command that is cut: header and Le.
#[derive(Clone, Copy)]
struct Head {
    class: u8,
    instruction: u8,
    p1: u8,
    p2: u8,
    le: u32,
}

// The next number, as a byte: only its last byte is not 0.
fn last_byte() -> u8 {
    short_number();
    byte()
}

// The next numbers, as a header and Le.
fn next_head() -> Head {
    Head {
        class: last_byte(),
        instruction: last_byte(),
        p1: last_byte(),
        p2: last_byte(),
        le: number(),
    }
}

// Le as a number of two bytes.
fn short_le(le: u32) -> u16 {
    (le % 0x10000) as u16
}

// Calls an operation on a record with a path of `count` tags, at most 16.
fn call_with_path(
    operation: u8,
    count: usize,
    record: &[u8],
    to: &mut [u8],
    out: &mut [u64],
) -> u8 {
    let reading = last_byte();
    let mut tags = [0u32; 16];
    numbers(&mut tags, count);
    let path = &tags[..count.min(16)];
    match operation {
        12 => gorvisclen_get_data_object(reading, record, path, out),
        _ => gorvisclen_value(reading, record, path, to, out),
    }
}

// Calls an operation on a builder or on a command that is cut.
// Stays: the exported functions take each field of a header alone.
fn call_with_head(
    operation: u8,
    first: &[u8],
    second: &[u8],
    to: &mut [u8],
    out: &mut [u64],
) -> u8 {
    let Head {
        class,
        instruction: ins,
        p1,
        p2,
        le,
    } = next_head();
    match operation {
        19 => gorvisclen_required_len(class, ins, p1, p2, le, last_byte(), first, out),
        20 => gorvisclen_force_extended(class, ins, p1, p2, le, last_byte(), first, out),
        21 => gorvisclen_builder_eq(class, ins, p1, p2, le, last_byte(), first, second, out),
        22 => gorvisclen_serialize_into(
            class,
            ins,
            p1,
            p2,
            le,
            last_byte(),
            first,
            to,
            place(),
            out,
        ),
        23 => gorvisclen_should_split(class, ins, p1, p2, le, last_byte(), first, place(), out),
        24 => gorvisclen_new_non_extended(class, ins, p1, p2, first, short_le(le), place()),
        _ => gorvisclen_write_next(
            class,
            ins,
            p1,
            p2,
            short_le(le),
            place(),
            place(),
            last_byte(),
            first,
            to,
            place(),
            out,
        ),
    }
}

// Calls an operation with two strings and the next `count` numbers of the file. Returns its reply, or 255 if there is
// no such operation.
// Stays: the number of an operation is the file's.
pub(crate) fn call(
    operation: u8,
    count: usize,
    first: &[u8],
    second: &[u8],
    to: &mut [u8],
    out: &mut [u64],
) -> u8 {
    match operation {
        1 => gorvisclen_class(last_byte(), out),
        2 => gorvisclen_class_as_chained(last_byte(), out),
        3 => gorvisclen_range(last_byte(), out),
        4 => gorvisclen_class_constants(out),
        5 => gorvisclen_aid_whole(first, out),
        6 => gorvisclen_aid(first, place(), out),
        7 => gorvisclen_aid_matches(first, place(), second, out),
        8 => gorvisclen_aid_part(first, place(), last_byte(), to, out),
        9 => gorvisclen_take_tag(last_byte(), first, out),
        10 => gorvisclen_take_len(last_byte(), first, out),
        11 => gorvisclen_take_data_object(last_byte(), first, place(), out),
        12 | 13 => call_with_path(operation, count.saturating_sub(1), first, to, out),
        14 => gorvisclen_put_data_object(
            last_byte(),
            last_byte(),
            last_byte(),
            first,
            to,
            place(),
            out,
        ),
        15 => gorvisclen_command(last_byte(), first, out),
        16 => gorvisclen_command_data(last_byte(), first, to, out),
        17 => gorvisclen_command_owned(last_byte(), first, to, out),
        18 => gorvisclen_command_extend(place(), to, first, out),
        19..=25 => call_with_head(operation, first, second, to, out),
        _ => 255,
    }
}
