// One entry of a label stack, as a caller offers it: its fields may still be too wide.
#[derive(Clone, Copy, PartialEq, Eq, Debug, Default)]
pub struct Entry {
    pub label: u32,
    pub tc: u8,
    pub ttl: u8,
}
