// What a list of nodes says of itself.
ghost use Rattle.std.specs.Prelude.{◌≡◌, ◌-◌, ◌≤◌, length, take};
ghost use Rattle.nodes.specs.Lists.{node_list, node_at, facts_at, known_of, Built};
ghost use Rattle.nodes.specs.Steps.{Short};
ghost use Rattle.nodes.specs.Trees.{all_facts, largest_lookback};

use crate::list::{Entry, Nodes};
use crate::node::{Facts, Node, UNKNOWN};

impl Nodes {
    pub fn count(&self) -> u8
        ensures { result ≡ length (node_list self.now) }
    {
        self.count
    }

    pub fn signals(&self) -> u8
        ensures { result ≡ self.now.signals }
    {
        self.signals
    }

    // The largest lookback of all nodes.
    pub fn lookback(&self) -> u16
        ensures { result ≡ largest_lookback (all_facts (node_list self.now)) }
    {
        self.lookback
    }

    fn entries(&self) -> &[Entry]
        ensures { result.now ≡ take self.now.count self.now.entries }
    {
        &self.entries[..self.count as usize]
    }

    // Node `i`, if there is one.
    pub fn node(&self, i: u8) -> Option<Node>
        ensures { result ≡ node_at (node_list self.now) i }
    {
        self.entries().get(i as usize).map(|entry| entry.node)
    }

    // What is known of node `i`: the class, lengths, horizon and lookback of its tree, which is
    // built from those of its operands.
    #[tactic(auto, using(crate::proofs::Held::tree_unfolds))]
    pub fn facts(&self, i: u8) -> Option<Facts>
        ensures value { result ≡ facts_at (node_list self.now) i }
        ensures tree { Built (node_list self.now) i }
    {
        self.entries().get(i as usize).map(|entry| entry.facts)
    }

    // What is known of node `a`; `UNKNOWN` for a node that is not there.
    #[tactic(auto, using(crate::proofs::Held::known_short))]
    pub(crate) fn known(&self, a: u8) -> Facts
        ensures value { result ≡ known_of self.now a }
        ensures short { Short result }
    {
        self.facts(a).unwrap_or(UNKNOWN)
    }

    // What is known of the last node; of an empty list, what is answered for a node that is not there: a
    // Boolean, with 0 for each number.
    pub fn last_facts(&self) -> Facts
        ensures value { result ≡ known_of self.now (length (node_list self.now) - 1) }
        ensures ahead { result.horizon ≤ 31 }
    {
        self.known(self.count.saturating_sub(1))
    }
}
