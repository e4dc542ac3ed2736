// The calibration profile (section 19 of docs/RULES.md): the record that each balance carries. It is read, written,
// held against a date, and its due date is shown. A record is taken only if it is exactly of this form: nothing here
// looks for a tag.
#![tactic(auto)]

mod date;
mod lapsed;
mod profile;
mod put;
mod shown;

pub use date::Date;
pub use lapsed::has_lapsed;
pub use profile::{Profile, read_profile, serial};
pub use put::put_profile;
pub use shown::{DueShownFrom, due_shown, due_shown_from};
