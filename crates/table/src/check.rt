// The one way to a checked table.
ghost use Rattle.std.specs.Prelude.{◌≡◌};
ghost use Rattle.nodes.specs.Lists.{node_list};
ghost use Rattle.table.specs.Contents.{last_empty};
ghost use Rattle.table.specs.Exact.{Exactly};
ghost use Rattle.table.specs.Tables.{contents, fresh, Reads, Spells, Fills};

use crate::format::{Header, node_bytes};
use crate::table::Table;
use fault::TableFault;
use nodes::decode::decode;
use nodes::list::Nodes;
use nodes::node::{BooleanNode, Class, Node};

// The nodes that follow a header, up to the first that is refused.
fn read_nodes(bytes: &[u8], header: Header) -> Result<Nodes, TableFault>
    ensures { Reads bytes.now header result }
{
    let mut nodes = Nodes::new(header.signals);
    for i in 0..header.count {
        let node = decode(node_bytes(bytes, i), i)?;
        nodes.push(node)?;
    }
    Ok(nodes)
}

// Whether the last node is a sequence that may match no cycle at all.
fn last_is_empty(nodes: &Nodes) -> bool
    ensures { result ≡ last_empty (node_list nodes.now) }
{
    let last = nodes.last_facts();
    last.class == Class::Sequence && last.lo == 0
}

// The table that the bytes spell, or why they spell none.
fn read(bytes: &[u8]) -> Result<Table, TableFault>
    ensures { Spells bytes.now result }
{
    let header = Header::read(bytes)?;
    let nodes = read_nodes(bytes, header)?;
    if last_is_empty(&nodes) {
        return Err(TableFault::Empty {
            node: header.count - 1,
        });
    }
    Ok(Table {
        nodes,
        ceiling: header.ceiling,
    })
}

impl Table {
    // The table of one node, the constant 0, with one signal and room for one row.
    pub fn new() -> Table
        ensures { contents result ≡ fresh }
    {
        let mut nodes = Nodes::new(1);
        let _ = nodes.push(Node::Boolean(BooleanNode::Constant { value: false }));
        Table { nodes, ceiling: 1 }
    }

    // Fills the table from the bytes, or leaves it as it is and says why.
    pub fn check(&mut self, bytes: &[u8]) -> Result<(), TableFault>
        ensures fills { Fills bytes.now self.old self.new result }
        ensures exactly { Exactly bytes.now }
    {
        *self = read(bytes)?;
        Ok(())
    }
}
