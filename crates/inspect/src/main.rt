#![tactic(auto)]

// Shows what a table says, node by node, and whether a monitor takes it.
//
//     inspect [FILE..]
//
// Without a file it reads table.bin in the folder where it is run.
mod form;

use fault::{Fault, TableFault};
use form::{Extent, Form};
use nodes::decode::decode;
use nodes::list::Nodes;
use std::process::ExitCode;
use std::{env, fs, io};
use table::format::{Header, node_bytes};
use table::span::{LAST_START, Span};
use table::table::Table;

// One line for a node that was taken.
fn show_node(rt: &HostRuntime, nodes: &Nodes, i: u8) -> io::Result<()> {
    let (Some(node), Some(facts)) = (nodes.node(i), nodes.facts(i)) else {
        return Ok(());
    };
    let heap = rt.alloc();
    let form = format!(in heap; "{}", Form(node))?;
    let extent = format!(in heap; "{}", Extent(facts))?;
    let lookback = facts.lookback;
    println!(rt; "n{i:<3} {form:<28} {extent:<28} lookback {lookback}")
}

// The nodes in turn, up to the first that is refused.
fn show_nodes(rt: &HostRuntime, bytes: &[u8], header: Header) -> io::Result<()> {
    let mut nodes = Nodes::new(header.signals);
    for i in 0..header.count {
        let Ok(node) = decode(node_bytes(bytes, i), i) else {
            return Ok(());
        };
        if nodes.push(node).is_err() {
            return Ok(());
        }
        show_node(rt, &nodes, i)?;
    }
    Ok(())
}

// The header and the nodes in turn; nothing behind the first thing that is wrong.
fn show_steps(rt: &HostRuntime, bytes: &[u8]) -> io::Result<()> {
    let Ok(header) = Header::read(bytes) else {
        return Ok(());
    };
    let Header {
        count,
        signals,
        ceiling,
    } = header;
    println!(rt; "header: nodes {count}, signals {signals}, row ceiling {ceiling}")?;
    show_nodes(rt, bytes, header)
}

// The cycles that the verdict of a start depends on.
fn show_span(rt: &HostRuntime, table: &Table, start: u64) -> io::Result<()> {
    match table.span(start) {
        Ok(Span { first, last }) => {
            println!(rt; "  span of start {start}: cycles {first} to {last}")
        }
        Err(fault) => println!(rt; "  span of start {start}: {fault}"),
    }
}

fn show_accepted(rt: &HostRuntime, table: &Table) -> io::Result<()> {
    let horizon = table.horizon();
    let lookback = table.lookback();
    let span = table.widest_span();
    let scratch = table.scratch_length();
    println!(rt;
        "accepted: horizon {horizon}, lookback {lookback}, widest span {span} cycles, scratch {scratch} values"
    )?;
    show_span(rt, table, 0)?;
    show_span(rt, table, LAST_START)
}

// Bytes in hexadecimal.
fn show_bytes(rt: &HostRuntime, bytes: &[u8]) -> io::Result<()> {
    for b in bytes {
        print!(rt; " {b:02x}")?;
    }
    println!(rt; "")
}

// The bytes of a node that is refused, and what they spell.
fn show_refused_node(rt: &HostRuntime, bytes: &[u8], i: u8) -> io::Result<()> {
    let word = node_bytes(bytes, i);
    print!(rt; "  bytes of n{i}:")?;
    show_bytes(rt, &word)?;
    match decode(word, i) {
        Ok(node) => println!(rt; "  they spell: {}", Form(node)),
        Err(_) => Ok(()),
    }
}

// What stands where the table is wrong.
fn show_place(rt: &HostRuntime, bytes: &[u8], fault: TableFault) -> io::Result<()> {
    match fault {
        TableFault::Length => match bytes.first() {
            Some(count) => {
                let wanted = 16 + 8 * *count as usize;
                println!(rt; "  byte 0 counts {count} nodes, which take {wanted} bytes")
            }
            None => println!(rt; "  there is no byte 0"),
        },
        TableFault::Header => {
            print!(rt; "  bytes of the header:")?;
            show_bytes(rt, bytes.get(..16).unwrap_or(bytes))
        }
        TableFault::Form { node }
        | TableFault::Operand { node }
        | TableFault::Class { node }
        | TableFault::Range { node }
        | TableFault::Lengths { node }
        | TableFault::Empty { node }
        | TableFault::Limit { node } => show_refused_node(rt, bytes, node),
    }
}

fn show_refused(rt: &HostRuntime, bytes: &[u8], fault: TableFault) -> io::Result<()> {
    println!(rt; "{}: {fault}", Fault::from(fault).refusal())?;
    show_place(rt, bytes, fault)
}

fn inspect(rt: &HostRuntime, name: &str) -> io::Result<()> {
    let bytes = fs::read(rt, name)?;
    let length = bytes.len();
    println!(rt; "{name}: {length} bytes")?;
    show_steps(rt, &bytes)?;
    let mut table = Table::new();
    match table.check(&bytes) {
        Ok(()) => show_accepted(rt, &table),
        Err(fault) => show_refused(rt, &bytes, fault),
    }
}

// Whether a file could be read and shown; if not, standard error says why. A truth, since an error that
// `main` returns would be told a second time.
fn inspect_file(rt: &HostRuntime, name: &str) -> io::Result<bool> {
    match inspect(rt, name) {
        Ok(()) => Ok(true),
        Err(error) => {
            eprintln!(rt; "inspect: {name}: {error}")?;
            Ok(false)
        }
    }
}

// The files in turn, with an empty line between them; nothing behind the first that cannot be read.
fn main(rt: HostRuntime) -> io::Result<ExitCode> {
    let mut names = env::args(&rt)?.skip(1);
    let first = names.next();
    if !inspect_file(&rt, first.as_deref().unwrap_or("table.bin"))? {
        return Ok(ExitCode::FAILURE);
    }
    for name in names {
        println!(rt; "")?;
        if !inspect_file(&rt, name.as_str())? {
            return Ok(ExitCode::FAILURE);
        }
    }
    Ok(ExitCode::SUCCESS)
}
