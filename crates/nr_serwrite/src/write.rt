//! Whole streams.

ghost use Rattle.std.specs.Prelude.{◌≡◌, ◌≤◌, length, map, IfErr, IfOk};
ghost use Rattle.nr_linked.specs.declared.program.built_in.BuiltIn.TheVariants as built_ins;
ghost use Rattle.nr_linked.specs.BuiltIns.{built_in};
ghost use Rattle.nr_linked.specs.Kinds.{class_kind};
ghost use Rattle.nr_graph.specs.Fitting.{IsSpellable};
ghost use Rattle.nr_graph.specs.Graphs.{root_slot};
ghost use Rattle.nr_serform.specs.Streams.{IsCanonical};
ghost use Rattle.nr_serwrite.specs.TooLong.{IsTooLong, OnTooLong, max_length};

use crate::contents::put_open;
use crate::fault::StreamWriteFault;
use crate::work::{Frame, Kinds, Work};
use nr_base::Put;
use nr_graph::{Graph, Slot};
use nr_linked::{Base, BuiltIn, Kind};
use nr_serform::{Forms, Handles};
use std::alloc::{AllocError, Global};

/// The magic number and the version.
const HEADER: [u8; 4] = [0xAC, 0xED, 0x00, 0x05];

/// The longest stream that is written, in bytes.
pub const MAX_STREAM: usize = 4_194_304;

fn root_slot(root: Option<u32>) -> Slot
    ensures { result ≡ root_slot root }
{
    match root {
        Some(node) => Slot::Node(node),
        None => Slot::Null,
    }
}

/// The roots as slots.
fn root_slots(alloc: Global, roots: &[Option<u32>]) -> Result<Vec<Slot>, AllocError>
    ensures { IfOk result (λ v. v.items ≡ map root_slot roots.now) }
{
    roots.iter().map(|root| root_slot(*root)).collect(alloc)
}

/// What a root may hold: any object.
fn root_kind(forms: &Forms) -> Kind
    ensures { result ≡ class_kind (built_in forms.now built_ins.Object) }
{
    Kind {
        dims: 0,
        base: Base::Object(forms.program().built_in(BuiltIn::Object)),
    }
}

/// The text of the graph with these roots, however long it is.
fn text_of<'w, 'p>(
    alloc: Global,
    forms: &'w Forms<'p>,
    graph: &'w Graph,
    roots: &'w [Slot],
) -> Result<Vec<u8>, AllocError>
    requires spellable { IsSpellable forms.now graph.now }
    requires roots { roots.now ≡ map root_slot graph.now.roots }
    ensures { IfOk result (λ v. IsCanonical forms.now v.items graph.now) }
{
    let mut w = Work {
        out: Put::new(alloc),
        handles: Handles::new(alloc),
        frames: Vec::new(alloc),
    };
    w.out.bytes(&HEADER)?;
    w.frames.push(Frame {
        kinds: Kinds::Elements(root_kind(forms)),
        slots: roots,
    })?;
    put_open(alloc, forms, graph, &mut w)?;
    let Work {
        out,
        handles: _,
        frames: _,
    } = w;
    Ok(out.done())
}

/// The stream of a graph, for the program of these forms: its canonical text (Java Object Serialization
/// Specification 6.4, in the project's profile), in which the number of an array class is 0. It has the
/// objects and arrays in the order of first visit, and each once. Each slot is looked at once, however deep
/// the objects nest, and each class is described once.
///
/// # Errors
///
/// `StreamTooLong` exactly where that text has more than `MAX_STREAM` bytes, with their number. `NoMemory`
/// comes for want of memory.
pub fn write_stream(
    alloc: Global,
    forms: &Forms,
    graph: &Graph,
) -> Result<Vec<u8>, StreamWriteFault>
    requires { IsSpellable forms.now graph.now }
    ensures text { IfOk result (λ v. IsCanonical forms.now v.items graph.now) }
    ensures short { IfOk result (λ v. length v.items ≤ max_length) }
    ensures long { IfErr result (λ e. OnTooLong e (IsTooLong forms.now graph.now)) }
{
    let roots = root_slots(alloc, graph.roots.as_slice())?;
    let text = text_of(alloc, forms, graph, roots.as_slice())?;
    if text.len() > MAX_STREAM {
        return Err(StreamWriteFault::StreamTooLong(text.len() as u64));
    }
    Ok(text)
}
