// What a checked table says of itself.
ghost use Rattle.std.specs.Prelude.{◌≡◌, ◌≤◌, length};
ghost use Rattle.fault.specs.First.{told};
ghost use Rattle.fault.specs.Refusals.{unroll_refusal};
ghost use Rattle.nodes.specs.Lists.{node_list};
ghost use Rattle.sva.specs.Span.{widest_span, scratch_length};
ghost use Rattle.table.specs.Spans.{span_within, span_of, SpanSuffices};
ghost use Rattle.table.specs.Tables.{horizon_of, lookback_of};

use crate::span::{LAST_START, Span};
use crate::table::Table;
use fault::UnrollFault;
use nodes::list::Nodes;
use sva::Reach;

// The cycles from the lookback before a start, or the first there is, to the horizon behind it.
fn span_within(reach: Reach, start: u64) -> Result<Span, UnrollFault>
    ensures { told unroll_refusal result ≡ span_within reach.horizon reach.lookback start }
{
    if start > LAST_START {
        return Err(UnrollFault::Start);
    }
    Ok(Span {
        first: start.saturating_sub(reach.lookback as u64),
        last: start + reach.horizon as u64,
    })
}

impl Table {
    // The nodes; the last one is the property.
    pub fn nodes(&self) -> &Nodes
        ensures { result.now ≡ self.now.nodes }
    {
        &self.nodes
    }

    // The most rows that a monitor may take.
    pub fn ceiling(&self) -> u64
        ensures { result ≡ self.now.ceiling }
    {
        self.ceiling
    }

    // The last cycle that the property needs, counted from a start.
    pub fn horizon(&self) -> u16
        ensures value { result ≡ horizon_of self.now }
        ensures limit { result ≤ 31 }
    {
        self.nodes.last_facts().horizon
    }

    // The most cycles before a start that a node looks back.
    pub fn lookback(&self) -> u16
        ensures value { result ≡ lookback_of self.now }
        ensures limit { result ≤ 32 }
    {
        self.nodes.lookback()
    }

    fn reach(&self) -> Reach
        ensures { result ≡ record { horizon = horizon_of self.now; lookback = lookback_of self.now } }
    {
        Reach {
            horizon: self.horizon(),
            lookback: self.lookback(),
        }
    }

    // How many cycles the span of a late start has.
    pub fn widest_span(&self) -> u32
        ensures { result ≡ widest_span (horizon_of self.now) (lookback_of self.now) }
    {
        self.reach().widest_span()
    }

    // How many values of scratch an unrolling takes.
    pub fn scratch_length(&self) -> usize
        ensures { result ≡ scratch_length (length (node_list self.now.nodes)) (horizon_of self.now) (lookback_of self.now) }
    {
        self.reach().scratch_length(self.nodes.count())
    }

    // The span of a start: two traces that are alike in its cycles give the start the same verdict.
    pub fn span(&self, start: u64) -> Result<Span, UnrollFault>
        ensures value { told unroll_refusal result ≡ span_of self.now start }
        ensures suffices { SpanSuffices self.now start }
    {
        span_within(self.reach(), start)
    }
}
