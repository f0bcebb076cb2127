//! The number of octets that a value writes.
ghost use Rattle.std.specs.Prelude.{◌≡◌, ◌+◌, length};

use std::fmt;

/// A writer that counts octets and keeps none. `write!(counter, "{value}")` counts the octets that `{}` prints for a
/// value.
///
/// # Examples
///
/// ```
/// // crates/octseq_examples/src/text.rt
/// pub fn printed_len(host: &str, port: u16) -> anyhow::Result<usize> {
///     let mut counter = Counter { count: 0 };
///     write!(counter, "{host}:{port}")?;
///     Ok(counter.count)
/// }
/// ```
#[derive(Clone, Copy, Debug, PartialEq, Eq)]
pub struct Counter {
    /// The number of octets written.
    pub count: usize,
}

impl fmt::Write for Counter {
    ghost write_str_gives = { λ before octets after. after.count ≡ before.count + length octets };

    /// Counts the octets of `s`. Returns an error if their number exceeds a `usize`.
    fn write_str(&mut self, s: &str) -> fmt::Result {
        match self.count.checked_add(s.len()) {
            Some(count) => {
                self.count = count;
                Ok(())
            }
            None => Err(fmt::Error),
        }
    }
}
