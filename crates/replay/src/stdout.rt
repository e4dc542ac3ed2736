// Standard output, as a place for text. A write that fails is passed over.
use std::fmt;

// Standard output.
#[derive(Drop)]
pub(crate) struct Stdout;

impl fmt::Write for Stdout {
    fn write_str(&mut self, s: &str) -> fmt::Result {
        io::write_all(1, s.as_bytes());
        Ok(())
    }
}
