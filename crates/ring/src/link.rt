// A link between two routers as a caller gives it: any numbers.
#[derive(Clone, Copy)]
pub struct Link {
    pub a: usize,
    pub b: usize,
    pub cap: usize,
}
