//! Whole streams.

ghost use Rattle.std.specs.Prelude.{◌≡◌, ◌<◌, ◌^◌, [], length};
ghost use Rattle.nr_base.specs.Clauses.{Gives, GivesBy, GivesWhole};
ghost use Rattle.nr_serform.specs.Streams.{header};
ghost use Rattle.nr_serread.specs.Faults.{is_free};
ghost use Rattle.nr_serread.specs.Reading.{graph_at, header_at, stream_of};

use crate::fault::StreamFault;
use crate::slots::read_roots;
use crate::work::Work;
use nr_base::{Cur, Items};
use nr_graph::Graph;
use nr_serform::{Forms, Handles};
use std::alloc::Global;

/// The magic number and the version.
const HEADER: [u8; 4] = [0xAC, 0xED, 0x00, 0x05];

#[tactic(auto, unfolding(crate::specs::Reading::header_at, nr_base::specs::Reader::bind, nr_base::specs::Reader::pure, nr_base::specs::Reader::refuse, nr_base::specs::Reader::choose, nr_base::specs::Reader::with_fault))]
fn read_header(cur: &mut Cur) -> Result<(), StreamFault>
    ensures { GivesBy is_free (λ _. header) result cur.new (header_at cur.old) }
{
    if cur.take(4)? == HEADER.as_slice() {
        Ok(())
    } else {
        Err(StreamFault::Header)
    }
}

/// Reads the graph.
#[tactic(auto, unfolding(crate::specs::Reading::graph_at, nr_base::specs::Reader::bind, nr_base::specs::Reader::pure, nr_base::specs::Reader::refuse, nr_base::specs::Reader::choose, nr_base::specs::Reader::with_fault))]
fn read_graph<'f, 'p>(
    alloc: Global,
    forms: &'f Forms<'p>,
    cur: &mut Cur,
    n_roots: u32,
) -> Result<Graph, StreamFault>
    ensures { Gives is_free result cur.new (graph_at forms.now n_roots cur.old) }
{
    read_header(cur)?;
    let mut w = Work {
        nodes: Vec::new(alloc),
        roots: Items::new(alloc),
        cells: 0,
        frames: Vec::new(alloc),
        handles: Handles::new(alloc),
    };
    read_roots(alloc, forms, &mut w, cur, n_roots)?;
    let Work {
        nodes,
        roots,
        cells: _,
        frames: _,
        handles: _,
    } = w;
    Ok(Graph {
        nodes: Items::from_vec(nodes),
        roots,
    })
}

/// The graph of a stream with so many roots, for the program of these forms (Java Object Serialization
/// Specification 6.4, in the project's profile). Its nodes are numbered in the order in which the text has
/// them. It is told by the definition `stream_of`, which tells each refusal too.
///
/// # Errors
///
/// The first fault of the text from left to right, with its place: each variant of `StreamFault` says which.
/// The class of an object is looked at for its slot (`SlotType`) as soon as its name or its handle was read;
/// `LimitCells` of an object comes behind its description, and of an array behind its length. `NoMemory` comes
/// for want of memory.
#[tactic(auto, unfolding(nr_base::specs::Reader::whole))]
pub fn read_stream(
    alloc: Global,
    forms: &Forms,
    bytes: &[u8],
    n_roots: u32,
) -> Result<Graph, StreamFault>
    requires { length bytes.now < 2 ^ 32 }
    ensures exact { GivesWhole is_free result (stream_of forms.now n_roots bytes.now) }
{
    let mut cur = Cur::new(bytes);
    let graph = read_graph(alloc, forms, &mut cur, n_roots)?;
    if cur.is_empty() {
        Ok(graph)
    } else {
        Err(StreamFault::Trailing(cur.at()))
    }
}
