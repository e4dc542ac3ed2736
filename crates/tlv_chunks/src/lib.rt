// A record walked as it comes, in chunks of any length: crate reading, top level. No value is stored (rules 18.1 to
// 18.8). Added by us: the Rust crate reads whole records only.
#![tactic(auto)]

mod header;
mod walk;

pub use header::Header;
pub use walk::{ChunkTaken, ChunkWalk, TakeChunk};
