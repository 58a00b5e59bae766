// What a poll came to.
#[derive(Clone, Copy, PartialEq, Eq, Debug)]
pub enum Outcome {
    // nothing to do at the port
    Idle,
    // a frame went one hop on, and none came out
    Moved,
    // the oldest frame of a line came out into the caller's place
    Handed,
}
