#![tactic(auto)]

// The meaning of bounded SystemVerilog assertions. It stands in specs/: trees, lengths, spans, and
// when a sequence matches and a property holds. The code here is the arithmetic on a table's
// horizon and lookback, and verdicts.
pub mod laws;
pub mod verdict;

ghost use Rattle.std.specs.Prelude.{◌≡◌};
ghost use Rattle.sva.specs.Meaning.{judge};
ghost use Rattle.sva.specs.Span.{widest_span, scratch_length};

use crate::verdict::Verdict;

// How far a property looks from a start.
#[derive(Clone, Copy, PartialEq, Eq, Debug)]
pub struct Reach {
    // The last cycle that it needs, counted from the start.
    pub horizon: u16,
    // The most cycles before the start that it looks back.
    pub lookback: u16,
}

impl Reach {
    // How many cycles the span of a late start has.
    pub fn widest_span(self) -> u32
        ensures { result ≡ widest_span self.horizon self.lookback }
    {
        self.lookback as u32 + 1 + self.horizon as u32
    }

    // How many values of scratch an unrolling takes.
    pub fn scratch_length(self, nodes: u8) -> usize
        ensures { result ≡ scratch_length nodes self.horizon self.lookback }
    {
        let boundaries = self.horizon as usize + 2;
        (nodes as usize + 2) * (boundaries * boundaries + self.lookback as usize)
    }
}

impl Verdict {
    // The verdict of a start, from whether the property holds there and whether it is live: a `From` of two
    // truths would not say which is which.
    pub fn of(holds: bool, live: bool) -> Verdict
        ensures { result ≡ judge holds live }
    {
        match (holds, live) {
            (false, _) => Verdict::Failed,
            (true, true) => Verdict::Held,
            (true, false) => Verdict::Vacuous,
        }
    }
}
