// A list of nodes, each of which keeps the rules.
ghost use Rattle.std.specs.Prelude.{◌≡◌, ◌≤◌, length};
ghost use Rattle.nodes.specs.Entries.{nodes_in, facts_in};
ghost use Rattle.nodes.specs.Rules.{Kept};
ghost use Rattle.nodes.specs.Trees.{all_facts, largest_lookback};

use crate::node::{Facts, Node};

// A node, and what is known of it.
#[derive(Clone, Copy)]
pub(crate) struct Entry {
    pub(crate) node: Node,
    pub(crate) facts: Facts,
}

// The first `count` entries count, and `lookback` is their largest. The memory is fixed and lies in the
// list itself, so that a list may be copied: an `ArrayVec` may not.
#[derive(Clone, Copy)]
pub struct Nodes {
    pub(crate) entries: [Entry; 32],
    pub(crate) count: u8,
    pub(crate) signals: u8,
    pub(crate) lookback: u16,
    ghost places: { length entries ≡ 32 },
    ghost room: { count ≤ 32 },
    ghost listed: { length (nodes_in count entries) ≡ count },
    ghost kept: { Kept signals (nodes_in count entries) },
    ghost right: { facts_in count entries ≡ all_facts (nodes_in count entries) },
    ghost widest: { lookback ≡ largest_lookback (facts_in count entries) },
    ghost near: { lookback ≤ 32 },
}
