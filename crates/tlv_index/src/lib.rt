// An index beside a record (document 02, request 4): the top-level objects of the record, built once, so that a lookup
// need not walk it again. The index is the bytes of its file, in a buffer that the caller lends.
#![tactic(auto)]

mod build;
mod file;
mod lookup;
mod numbers;

pub use build::build_index;
pub use file::check_index;
pub use lookup::get_indexed;
