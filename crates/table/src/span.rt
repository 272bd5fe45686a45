// The last cycle at which a property is tried: 2^40.
pub const LAST_START: u64 = 1 << 40;

// The cycles that the verdict of a start depends on, from the first to the last.
#[derive(Clone, Copy, PartialEq, Eq, Debug)]
pub struct Span {
    pub first: u64,
    pub last: u64,
}
