//! Streams of arrays of ints, byte by byte and at the limit.

ghost use Rattle.std.specs.Prelude.{◌≡◌, ◌<◌, [], ◌∷◌, IfOk, None, Some, replicate};
ghost use Rattle.nr_linked.specs.declared.program.tables.ProgramTables.{ProgramTables};
ghost use Rattle.nr_graph.specs.Fitting.{IsSpellable};
ghost use Rattle.nr_streamrows.specs.Ints.{ints, zero};

use nr_base::Items;
use nr_graph::{Graph, Node, Slot};
use nr_link::link;
use nr_linked::{Base, Kind, Program};
use nr_serform::Forms;
use nr_serread::{StreamFault, read_stream};
use nr_serwrite::{StreamWriteFault, write_stream};
use std::alloc::{AllocError, Global};
use std::process::Abort;

/// So many zeros.
fn zeros(alloc: Global, n: u32) -> Result<Items<Slot>, AllocError>
    ensures { IfOk result (λ slots. slots ≡ replicate n zero) }
{
    let mut slots = Items::new(alloc);
    for _slot in 0..n {
        slots.push(Slot::Int(0))?;
    }
    Ok(slots)
}

/// The first node twice, and so often null.
fn roots(alloc: Global, nulls: u32) -> Result<Items<Option<u32>>, AllocError>
    ensures { IfOk result (λ roots. roots ≡ Some 0 ∷ Some 0 ∷ replicate nulls None) }
{
    let mut roots = Items::new(alloc);
    roots.push(Some(0))?;
    roots.push(Some(0))?;
    for _root in 0..nulls {
        roots.push(None)?;
    }
    Ok(roots)
}

/// An array of so many zeros, which is the root twice, and so often null.
fn graph(alloc: Global, n: u32, nulls: u32) -> Result<Graph, AllocError>
    requires { n < 1048576 }
    ensures { IfOk result (λ g. (P : ProgramTables) → IsSpellable P g) }
{
    let mut nodes = Items::new(alloc);
    let kind = Kind {
        dims: 1,
        base: Base::Int,
    };
    let slots = zeros(alloc, n)?;
    nodes.push(Node { kind, slots })?;
    let roots = roots(alloc, nulls)?;
    Ok(Graph { nodes, roots })
}

/// A program without classes of its own.
fn program<R: AllocGlobal + Abort>(rt: &R) -> Program {
    link(rt.alloc(), Items::new(rt.alloc())).expect(rt, "a program")
}

fn write(alloc: Global, program: &Program, n: u32, nulls: u32) -> Result<Vec<u8>, StreamWriteFault>
    requires { n < 1048576 }
{
    let forms = Forms::new(alloc, program)?;
    let graph = graph(alloc, n, nulls)?;
    let text = write_stream(alloc, &forms, &graph)?;
    Ok(text)
}

/// What is read of what was written.
fn read_again(alloc: Global, program: &Program, n: u32, nulls: u32) -> Result<Graph, StreamFault>
    requires few { n < 1048576 }
    requires nulls { nulls < 1048576 }
{
    let text = match write(alloc, program, n, nulls) {
        Ok(text) => text,
        Err(_) => return Err(StreamFault::NoMemory),
    };
    let forms = Forms::new(alloc, program)?;
    if text.len() > 4_194_304 {
        return Err(StreamFault::NoMemory);
    }
    let graph = read_stream(alloc, &forms, text.as_slice(), nulls + 2)?;
    Ok(graph)
}

#[test]
fn read_back(rt: HostRuntime) {
    let program = program(&rt);
    let graph = read_again(rt.alloc(), &program, 3, 2).expect(&rt, "a graph");
    assert_eq!(rt;
        graph.roots.as_slice(),
        [Some(0), Some(0), None, None].as_slice()
    );
    assert_eq!(rt; graph.nodes.len(), 1);
    for node in graph.nodes.as_slice() {
        assert_eq!(rt;
            node.slots.as_slice(),
            [Slot::Int(0), Slot::Int(0), Slot::Int(0)].as_slice()
        );
    }
}

#[test]
fn shared_array_and_null(rt: HostRuntime) {
    let program = program(&rt);
    let text = write(rt.alloc(), &program, 2, 1).expect(&rt, "a stream");
    let due = [
        0xAC, 0xED, 0x00, 0x05, 0x75, 0x72, 0x00, 0x02, 0x5B, 0x49, 0, 0, 0, 0, 0, 0, 0, 0, 0x02,
        0x00, 0x00, 0x78, 0x70, 0, 0, 0, 2, 0, 0, 0, 0, 0, 0, 0, 0, 0x71, 0x00, 0x7E, 0x00, 0x01,
        0x70,
    ];
    assert_eq!(rt; text.as_slice(), due.as_slice());
}

// 32 bytes and 4 an int, and one for each null
#[test]
fn longest_stream(rt: HostRuntime) {
    let program = program(&rt);
    let text = write(rt.alloc(), &program, 1_048_567, 4).expect(&rt, "a stream");
    assert_eq!(rt; text.len(), 4_194_304);
    let fault = write(rt.alloc(), &program, 1_048_567, 5).err();
    assert_eq!(rt; fault, Some(StreamWriteFault::StreamTooLong(4_194_305)));
}
