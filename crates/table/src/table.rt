// A table that keeps every rule.
ghost use Rattle.std.specs.Prelude.{◌≡◌, ◌^◌, ◌≤◌, false};
ghost use Rattle.nodes.specs.Lists.{node_list};
ghost use Rattle.table.specs.Contents.{last_empty};

use nodes::list::Nodes;

// The last node is the property; `ceiling` is the most rows that a monitor may take.
#[derive(Clone, Copy)]
pub struct Table {
    pub(crate) nodes: Nodes,
    pub(crate) ceiling: u64,
    ghost some: { 1 ≤ nodes.count },
    ghost least_signals: { 1 ≤ nodes.signals },
    ghost most_signals: { nodes.signals ≤ 64 },
    ghost least_rows: { 1 ≤ ceiling },
    ghost most_rows: { ceiling ≤ 2 ^ 40 },
    ghost filled: { last_empty (node_list nodes) ≡ false },
}
