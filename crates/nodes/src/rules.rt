// Which nodes may follow which, one rule a function.
ghost use Rattle.std.specs.Prelude.{◌≡◌, ◌==◌, ◌&&◌, length};
ghost use Rattle.fault.specs.First.{first, unless, told};
ghost use Rattle.fault.specs.Refusals.{table_refusal};
ghost use Rattle.nodes.specs.Lists.{node_list, known_of};
ghost use Rattle.nodes.specs.Rules.{stands_for, sequence_for_property, earlier, classed, empty, ranged, sequence_crossed, crossed, over_limit, node_rules};
ghost use Rattle.nodes.specs.Steps.{facts_step};

use crate::list::Nodes;
use crate::node::{BooleanNode, Class, Facts, Node, Operand, Operands, PropertyNode, SequenceNode};
use fault::TableFault;

impl Class {
    fn stands_for(self, role: Class) -> bool
        ensures { result ≡ stands_for self role }
    {
        self <= role
    }
}

impl Node {
    // Whether the numbers are in their ranges.
    fn is_ranged(self, signals: u8) -> bool
        ensures { result ≡ ranged signals self }
    {
        match self {
            Node::Boolean(node) => match node {
                BooleanNode::Signal { m } => m < signals,
                BooleanNode::Past { m, .. } => 1 <= m && m <= 16,
                _ => true,
            },
            Node::Sequence(node) => match node {
                SequenceNode::Delay { m, n, .. } => 1 <= m && m <= n && n <= 31,
                SequenceNode::Repeat { m, n, .. } => m <= n && n <= 31,
                _ => true,
            },
            Node::Property(node) => match node {
                PropertyNode::Nexttime { m, .. } => m <= 31,
                PropertyNode::Always { m, n, .. } | PropertyNode::Eventually { m, n, .. } => {
                    m <= n && n <= 31
                }
                _ => true,
            },
        }
    }
}

impl Facts {
    // Whether these are of a sequence that may match no cycle at all, and stands for a property.
    fn is_empty_as(self, role: Class) -> bool
        ensures { result ≡ (sequence_for_property self.class role && self.lo == 0) }
    {
        self.class == Class::Sequence && role == Class::Property && self.lo == 0
    }

    fn is_over_limit(self) -> bool
        ensures { result ≡ over_limit self }
    {
        self.hi > 32 || self.lookback > 32 || self.horizon > 31
    }
}

impl Nodes {
    // Whether every operand is the number of a node.
    fn are_earlier(&self, operands: Operands) -> bool
        ensures { result ≡ earlier (length (node_list self.now)) operands }
    {
        let earlier = |o: Operand| o.node < self.count;
        operands.a.is_none_or(earlier) && operands.b.is_none_or(earlier)
    }

    // Whether every operand is of a class that can stand where it does.
    fn are_classed(&self, operands: Operands) -> bool
        ensures { result ≡ classed (known_of self.now) operands }
    {
        let classed = |o: Operand| self.known(o.node).class.stands_for(o.role);
        operands.a.is_none_or(classed) && operands.b.is_none_or(classed)
    }

    // Whether some operand is a sequence that may match no cycle at all and stands for a property.
    fn takes_empty(&self, operands: Operands) -> bool
        ensures { result ≡ empty (known_of self.now) operands }
    {
        let empty = |o: Operand| self.known(o.node).is_empty_as(o.role);
        operands.a.is_some_and(empty) || operands.b.is_some_and(empty)
    }

    fn is_sequence_crossed(&self, node: SequenceNode) -> bool
        ensures { result ≡ sequence_crossed (known_of self.now) node }
    {
        match node {
            SequenceNode::Fusion { a, b } => self.known(a).hi == 0 || self.known(b).hi == 0,
            SequenceNode::Intersect { a, b } => {
                let (x, y) = (self.known(a), self.known(b));
                x.hi.min(y.hi) < x.lo.max(y.lo)
            }
            SequenceNode::Within { a, b } => self.known(b).hi < self.known(a).lo,
            _ => false,
        }
    }

    // Whether the lengths of the operands leave no match.
    fn is_crossed(&self, node: Node) -> bool
        ensures { result ≡ crossed (known_of self.now) node }
    {
        match node {
            Node::Sequence(node) => self.is_sequence_crossed(node),
            Node::Property(PropertyNode::Implies { a, .. }) => self.known(a).hi == 0,
            _ => false,
        }
    }

    // What is known of a node that is put behind these, or why it is refused.
    pub(crate) fn admit(&self, node: Node) -> Result<Facts, TableFault>
        ensures { told table_refusal result ≡ unless (first (node_rules self.now.signals (known_of self.now) (facts_step (known_of self.now) node) (length (node_list self.now)) node)) (facts_step (known_of self.now) node) }
    {
        let i = self.count;
        let operands = node.operands();
        if !self.are_earlier(operands) {
            return Err(TableFault::Operand { node: i });
        }
        if !self.are_classed(operands) {
            return Err(TableFault::Class { node: i });
        }
        if !node.is_ranged(self.signals) {
            return Err(TableFault::Range { node: i });
        }
        if self.is_crossed(node) {
            return Err(TableFault::Lengths { node: i });
        }
        if self.takes_empty(operands) {
            return Err(TableFault::Empty { node: i });
        }
        let facts = self.next_facts(node);
        if facts.is_over_limit() {
            return Err(TableFault::Limit { node: i });
        }
        Ok(facts)
    }
}
