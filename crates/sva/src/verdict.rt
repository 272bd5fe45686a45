// What is said of a start once it is decided.
#[derive(Clone, Copy, PartialEq, Eq, Debug)]
pub enum Verdict {
    // The property does not hold at the start.
    Failed,
    // It holds, and was put to the test.
    Held,
    // It holds, since nothing put it to the test.
    Vacuous,
}
