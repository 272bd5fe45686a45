// Making a list of nodes.
ghost use Rattle.std.specs.Prelude.{◌≡◌, []};
ghost use Rattle.nodes.specs.Lists.{node_list, Pushes};

use crate::list::{Entry, Nodes};
use crate::node::{BooleanNode, Node, UNKNOWN};
use fault::TableFault;

impl Nodes {
    // No node yet; a node's signal has to be below `signals`.
    #[tactic(auto, unfolding(crate::specs::Trees::trees_from))]
    pub fn new(signals: u8) -> Nodes
        ensures nodes { node_list result ≡ [] }
        ensures signals { result.signals ≡ signals }
    {
        let unused = Entry {
            node: Node::Boolean(BooleanNode::Constant { value: false }),
            facts: UNKNOWN,
        };
        Nodes {
            entries: [unused; 32],
            count: 0,
            signals,
            lookback: 0,
        }
    }

    // Takes a node behind the others, or leaves the list as it is and says why.
    pub fn push(&mut self, node: Node) -> Result<(), TableFault>
        ensures { Pushes self.old self.new node result }
    {
        if self.count >= 32 {
            return Err(TableFault::Length);
        }
        let facts = self.admit(node)?;
        self.entries[self.count as usize] = Entry { node, facts };
        self.count += 1;
        self.lookback = self.lookback.max(facts.lookback);
        Ok(())
    }
}
