// The lines of commands and records (rules 10.3 to 10.8).
ghost use Rattle.std.specs.Prelude.{◌≡◌, ◌+◌, ◌≤◌, ◌<◌, length, drop};
ghost use Rattle.listing.specs.Input.{items, items_size, items_at, section_size};
ghost use Rattle.listing.specs.Text.{Puts, line_numbers, command_line, object_line, object_lines, item_text, items_text, head_line, section_text};

use crate::input::pair_at;
use crate::text::fill;
use class::Reading;
use command::CommandView;
use tlv::{Stop, take_data_object};

// What the items of a section are.
#[derive(Clone, Copy)]
pub enum Section {
    Commands,
    Records,
}

// The numbers in the line of a command.
fn line_numbers(k: usize, view: CommandView) -> [usize; 7]
    ensures { result ≡ line_numbers k view }
{
    [
        k,
        usize::from(view.class.into_inner()),
        usize::from(view.instruction),
        usize::from(view.p1),
        usize::from(view.p2),
        view.len,
        view.le,
    ]
}

// Writes the line of command k, which is parsed in the crate reading (rule 10.4).
fn command_line(out: &mut [u8], at: usize, k: usize, apdu: &[u8]) -> usize
    requires { at + length (command_line k apdu.now) ≤ length out.old }
    ensures { Puts (command_line k apdu.now) at out.old result out.new }
{
    match CommandView::try_from(Reading::Crate, apdu) {
        Err(refusal) => {
            let number = usize::from(refusal.number());
            fill(out, at, b"% refused %\n", &[k, number])
        }
        Ok(view) => {
            let numbers = line_numbers(k, view);
            if view.extended {
                return fill(out, at, b"% # # # # lc % le % extended\n", &numbers);
            }
            fill(out, at, b"% # # # # lc % le % short\n", &numbers)
        }
    }
}

// Writes the line of object j of record k: its tag in one byte, two or three, and its length (rule 10.5).
fn object_line(out: &mut [u8], at: usize, k: usize, j: usize, tag: u32, len: usize) -> usize
    requires { at + length (object_line k j tag len) ≤ length out.old }
    ensures { Puts (object_line k j tag len) at out.old result out.new }
{
    let t = tag as usize;
    if t < 256 {
        return fill(out, at, b"%.% # %\n", &[k, j, t, len]);
    }
    if t < 65536 {
        return fill(out, at, b"%.% ## %\n", &[k, j, t / 256, t, len]);
    }
    fill(out, at, b"%.% ### %\n", &[k, j, t / 65536, t / 256, t, len])
}

// Writes the lines of record k: its objects of the top level, in the crate reading (rule 10.6). The record stops at its
// first refusal: 12 is its last line, with its place in the record (rule 10.7), 11 prints nothing (rule 10.8).
fn put_objects(out: &mut [u8], start: usize, k: usize, record: &[u8]) -> usize
    requires { start + length (object_lines k «record».now) ≤ length out.old }
    ensures { Puts (object_lines k «record».now) start out.old result out.new }
{
    let mut place = start;
    let mut at = 0;
    let mut j = 1;
    // Stays: an object is counted only once it is read, so no range gives j.
    loop {
        match take_data_object(tlv::Reading::Crate, record, at) {
            Ok(object) => {
                place = object_line(out, place, k, j, object.tag, object.len);
                at = object.at + object.len;
            }
            Err(halt) => {
                return match halt.stop {
                    Stop::End => place,
                    Stop::Unreadable => {
                        let number = usize::from(halt.stop.number());
                        fill(
                            out,
                            place,
                            b"%.% refused % at %\n",
                            &[k, j, number, halt.place],
                        )
                    }
                };
            }
        }
        j += 1;
    }
}

// Writes the line or the lines of item k of a section.
fn put_item(out: &mut [u8], at: usize, section: Section, k: usize, item: &[u8]) -> usize
    requires { at + length (item_text section k item.now) ≤ length out.old }
    ensures { Puts (item_text section k item.now) at out.old result out.new }
{
    match section {
        Section::Commands => command_line(out, at, k, item),
        Section::Records => put_objects(out, at, k, item),
    }
}

// Writes the lines of `count` items that begin at a place of the input, numbered from 1 (rule 10.3).
fn put_items(
    out: &mut [u8],
    start: usize,
    section: Section,
    input: &[u8],
    from: usize,
    count: usize,
) -> usize
    requires count_bound { (count < 65536) × (from + items_size count (drop from input.now) ≤ length input.now) }
    requires input_len_bound { (length input.now ≤ 60000) × (start + length (items_text section 1 (items count (drop from input.now))) ≤ length out.old) }
    ensures { Puts (items_text section 1 (items count (drop from input.now))) start out.old result out.new }
{
    let mut place = start;
    let mut at = from;
    for k in 1..=count {
        let body = at + 2;
        let end = body + pair_at(input, at);
        place = put_item(out, place, section, k, &input[body..end]);
        at = end;
    }
    place
}

// Writes the first line of a section: its word and its count (rule 10.3).
fn put_head(out: &mut [u8], at: usize, section: Section, n: usize) -> usize
    requires { at + length (head_line section n) ≤ length out.old }
    ensures { Puts (head_line section n) at out.old result out.new }
{
    match section {
        Section::Commands => fill(out, at, b"commands %\n", &[n]),
        Section::Records => fill(out, at, b"records %\n", &[n]),
    }
}

// Writes the text of the section that begins at a place of the input.
pub(crate) fn put_section(
    out: &mut [u8],
    at: usize,
    section: Section,
    input: &[u8],
    from: usize,
) -> usize
    requires input_len_bound { (length input.now ≤ 60000) × (from + section_size (drop from input.now) ≤ length input.now) }
    requires input_in_bounds { at + length (section_text section (items_at (drop from input.now))) ≤ length out.old }
    ensures { Puts (section_text section (items_at (drop from input.now))) at out.old result out.new }
{
    let n = pair_at(input, from);
    let end = put_head(out, at, section, n);
    put_items(out, end, section, input, from + 2, n)
}
