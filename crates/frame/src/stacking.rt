// Push, pop and questions of a label stack.
ghost use Rattle.std.specs.Prelude.{◌≡◌, ◌<◌, [], length, Some};
ghost use Rattle.frame.specs.Labels.{allowed};
ghost use Rattle.frame.specs.Numbers.{refused_by};
ghost use Rattle.frame.specs.Stacks.{entries_of, top_of, rest_of, push_refusal, Pushed};

use crate::entry::Entry;
use crate::refusal::Refusal;
use crate::stack::Stack;

// Whether a label may stand at a height, 0 for the bottom.
pub fn label_allowed(height: usize, label: u32) -> bool
    ensures { result ≡ allowed height label }
{
    if label >= 16 {
        true
    } else if height == 0 {
        label == 0 || label == 2
    } else {
        label == 1
    }
}

impl Stack {
    pub fn new() -> Stack
        ensures { entries_of result ≡ [] }
    {
        Stack {
            entries: [Entry::default(); 8],
            len: 0,
        }
    }

    pub fn len(&self) -> usize
        ensures { result ≡ length (entries_of self.now) }
    {
        self.len
    }

    pub fn top(&self) -> Option<Entry>
        ensures { result ≡ top_of (entries_of self.now) }
    {
        self.entries[..self.len].last().copied()
    }

    // One entry more on top, or a refusal that changes nothing.
    pub fn push(&mut self, entry: Entry) -> Result<(), Refusal>
        ensures { Pushed (entries_of self.old) entry result (entries_of self.new) }
    {
        self.admits(entry)?;
        self.entries[self.len] = entry;
        self.len += 1;
        Ok(())
    }

    // Whether an entry may be pushed, or the first rule that it breaks.
    fn admits(&self, entry: Entry) -> Result<(), Refusal>
        ensures { refused_by result ≡ push_refusal (entries_of self.now) entry }
    {
        let height = self.len();
        if height >= 8 {
            return Err(Refusal::StackFull);
        }
        if !label_allowed(height, entry.label) {
            return Err(Refusal::LabelRule);
        }
        if entry.label >= 1_048_576 {
            return Err(Refusal::OutOfRange);
        }
        if entry.tc >= 8 {
            return Err(Refusal::OutOfRange);
        }
        Ok(())
    }

    // Takes the top entry away, if there is one.
    pub fn pop(&mut self) -> Option<Entry>
        ensures top { result ≡ top_of (entries_of self.old) }
        ensures rest { entries_of self.new ≡ rest_of (entries_of self.old) }
    {
        let top = self.top();
        self.shorten();
        top
    }

    // Lets the top entry go, if there is one.
    fn shorten(&mut self)
        ensures { entries_of self.new ≡ rest_of (entries_of self.old) }
    {
        self.len = self.len.saturating_sub(1);
    }
}

impl Default for Stack {
    ghost is_default = { λ s. entries_of s ≡ [] };

    fn default() -> Stack {
        Stack::new()
    }
}
