// Frames in print.
use frame::{Entry, Frame};
use std::fmt;

// A frame in print: its kind, A and B, and its entries from the top, each as label, TC and TTL.
#[derive(Clone, Copy)]
pub struct Shown<'a>(pub &'a Frame);

impl fmt::Display for Shown<'_> {
    fn fmt<W: fmt::Write>(&self, f: &mut fmt::Formatter<W>) -> fmt::Result {
        let Frame {
            kind,
            mut stack,
            a,
            b,
        } = *self.0;
        write!(f, "{kind} {a} {b}")?;
        while let Some(Entry { label, tc, ttl }) = stack.pop() {
            write!(f, " [{label} {tc} {ttl}]")?;
        }
        Ok(())
    }
}
