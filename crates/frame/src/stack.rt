// A label stack: 0 to 8 entries, the bottom one first in the table. Every stack keeps the label rules.
// The table is an array with a length: frames are copied whole and take no memory, and no vector of the library is copied so.
ghost use Rattle.std.specs.Prelude.{◌≡◌, ◌≤◌, length};
ghost use Rattle.frame.specs.Labels.{Keeps};

use crate::entry::Entry;

#[derive(Clone, Copy)]
pub struct Stack {
    pub(crate) entries: [Entry; 8],
    pub(crate) len: usize,
    ghost few: { len ≤ 8 },
    ghost room: { length entries ≡ 8 },
    ghost rules: { Keeps len entries },
}
