// The header of a table's bytes, and where its nodes lie.
ghost use Rattle.std.specs.Prelude.{◌≡◌};
ghost use Rattle.fault.specs.First.{told};
ghost use Rattle.fault.specs.Refusals.{table_refusal};
ghost use Rattle.nodes.specs.Bytes.{byte as byte_of};
ghost use Rattle.table.specs.Format.{header_from, node_bytes};

use fault::TableFault;
use std::array;

// What the first 16 bytes say.
#[derive(Clone, Copy, PartialEq, Eq, Debug)]
pub struct Header {
    pub count: u8,
    pub signals: u8,
    pub ceiling: u64,
}

// The most rows that a table may allow: 2^40.
const MOST_ROWS: u64 = 1 << 40;

// Byte `k`, or 0 past the end.
fn byte(bytes: &[u8], k: usize) -> u8
    ensures { result ≡ byte_of bytes.now k }
{
    bytes.get(k).copied().unwrap_or(0)
}

// The eight bytes of node `i`.
pub fn node_bytes(bytes: &[u8], i: u8) -> [u8; 8]
    ensures { result ≡ node_bytes bytes.now i }
{
    let at = 16 + 8 * i as usize;
    array::from_fn(|k| byte(bytes, at + k))
}

impl Header {
    // What the header says, or why the bytes have no header of a table. The name says more than a `TryFrom`
    // would: the bytes go on behind it.
    pub fn read(bytes: &[u8]) -> Result<Header, TableFault>
        ensures { told table_refusal result ≡ header_from bytes.now }
    {
        let Some((first, rest)) = bytes.split_first_chunk::<8>() else {
            return Err(TableFault::Length);
        };
        let Some((ceiling, nodes)) = rest.split_first_chunk::<8>() else {
            return Err(TableFault::Length);
        };
        let count = first[0];
        if count < 1 || count > 32 || nodes.len() != 8 * count as usize {
            return Err(TableFault::Length);
        }
        let [_, signals, 0, 0, 0, 0, 0, 0] = *first else {
            return Err(TableFault::Header);
        };
        let ceiling = u64::from_le_bytes(*ceiling);
        if signals < 1 || signals > 64 || ceiling < 1 || ceiling > MOST_ROWS {
            return Err(TableFault::Header);
        }
        Ok(Header {
            count,
            signals,
            ceiling,
        })
    }
}
