//! The superclasses that are described behind a class.

ghost use Rattle.std.specs.Prelude.{◌≡◌, ◌==◌, IfOk, drop, not, true};
ghost use Rattle.std.specs.List.{filter};
ghost use Rattle.nr_linked.specs.Programs.{superclasses};
ghost use Rattle.nr_base.specs.Clauses.{GivesBy};
ghost use Rattle.nr_linked.specs.KindTexts.{class_name};
ghost use Rattle.nr_serform.specs.ClassNumbers.{dotted, with_dot};
ghost use Rattle.nr_serread.specs.Describing.{described_supers, new_super_at, no_super_at, super_at, supers_at, supers_of_class};
ghost use Rattle.nr_serread.specs.Faults.{is_free};

use crate::fault::StreamFault;
use crate::fields::read_own;
use crate::items::{read_class_handle, read_utf};
use crate::naming::class_kind;
use nr_base::Cur;
use nr_linked::{Base, BuiltIn, ClassId, Kind, Program};
use nr_serform::{Forms, Handled, Handles};
use std::alloc::{AllocError, Global};

/// The class and those above it.
fn superclasses(
    alloc: Global,
    program: &Program,
    class: ClassId,
) -> Result<Vec<ClassId>, AllocError>
    ensures { IfOk result (λ v. v.items ≡ superclasses program.now class) }
{
    program.tables().superclasses(class).collect(alloc)
}

fn without_first(classes: &[ClassId]) -> &[ClassId]
    ensures { result.now ≡ drop 1 classes.now }
{
    match classes {
        [] => &[],
        [_, rest @ ..] => rest,
    }
}

fn without(alloc: Global, classes: &[ClassId], object: ClassId) -> Result<Vec<ClassId>, AllocError>
    ensures { IfOk result (λ v. v.items ≡ filter (λ d. not (d == object)) classes.now) }
{
    classes
        .iter()
        .copied()
        .filter(|class| *class != object)
        .collect(alloc)
}

fn supers_of_class(
    alloc: Global,
    program: &Program,
    class: ClassId,
) -> Result<Vec<ClassId>, AllocError>
    ensures { IfOk result (λ v. v.items ≡ supers_of_class program.now class) }
{
    let classes = superclasses(alloc, program, class)?;
    let above = without_first(classes.as_slice());
    without(alloc, above, program.built_in(BuiltIn::Object))
}

/// The superclasses that are described behind a class: all but `java/lang/Object`, the direct one first.
#[tactic(auto, unfolding(crate::specs::Describing::described_supers))]
pub fn described_supers(
    alloc: Global,
    program: &Program,
    kind: Kind,
) -> Result<Vec<ClassId>, AllocError>
    ensures { IfOk result (λ v. v.items ≡ described_supers program.now kind) }
{
    match kind {
        Kind {
            dims: 0,
            base: Base::Object(class),
        } => supers_of_class(alloc, program, class),
        _ => Ok(Vec::new(alloc)),
    }
}

/// Behind the last one.
#[tactic(auto, unfolding(crate::specs::Describing::no_super_at, nr_base::specs::Reader::bind, nr_base::specs::Reader::pure, nr_base::specs::Reader::refuse, nr_base::specs::Reader::choose, nr_base::specs::Reader::from, nr_base::specs::Reader::with_fault))]
fn read_no_super(handles: &Handles, cur: &mut Cur) -> Result<(), StreamFault>
    ensures { GivesBy is_free (λ _. true) result cur.new (no_super_at handles.now cur.old) }
{
    let at = cur.at();
    match cur.u8()? {
        0x70 => Ok(()),
        0x71 => {
            read_class_handle(handles, cur, at)?;
            Err(StreamFault::HandleKind(at))
        }
        0x72 => {
            let name = cur.at();
            read_utf(cur)?;
            Err(StreamFault::ClassName(name))
        }
        tag => Err(StreamFault::Tag(at, tag)),
    }
}

fn with_dot(byte: u8) -> u8
    ensures { result ≡ with_dot byte }
{
    if byte == b'/' { b'.' } else { byte }
}

/// The class's name with dots for slashes.
fn dotted_name(alloc: Global, program: &Program, class: ClassId) -> Result<Vec<u8>, AllocError>
    ensures { IfOk result (λ v. v.items ≡ dotted (class_name program.now class)) }
{
    match program.tables().class_at(class) {
        Some(info) => info
            .name
            .as_bytes()
            .iter()
            .map(|byte| with_dot(*byte))
            .collect(alloc),
        None => Ok(Vec::new(alloc)),
    }
}

/// The name of a superclass that is due, and what stands behind it.
#[tactic(auto, unfolding(crate::specs::Describing::new_super_at, nr_base::specs::Reader::bind, nr_base::specs::Reader::pure, nr_base::specs::Reader::refuse, nr_base::specs::Reader::choose, nr_base::specs::Reader::from, nr_base::specs::Reader::with_fault))]
fn read_new_super<'p>(
    alloc: Global,
    forms: &Forms<'p>,
    handles: &mut Handles<'p>,
    cur: &mut Cur,
    class: ClassId,
) -> Result<(), StreamFault>
    ensures { GivesBy is_free (λ _. handles.new) result cur.new (new_super_at forms.now class handles.old cur.old) }
{
    let at = cur.at();
    let text = read_utf(cur)?;
    let name = dotted_name(alloc, forms.program(), class)?;
    let kind = class_kind(class);
    if text == name.as_slice() && handles.find(Handled::Class(kind)).is_none() {
        read_own(alloc, forms, handles, cur, kind)
    } else {
        Err(StreamFault::ClassName(at))
    }
}

/// A superclass that is due. It is true where those above it are described behind it.
#[tactic(auto, unfolding(crate::specs::Describing::super_at, nr_base::specs::Reader::bind, nr_base::specs::Reader::pure, nr_base::specs::Reader::refuse, nr_base::specs::Reader::choose, nr_base::specs::Reader::from, nr_base::specs::Reader::with_fault))]
fn read_super<'p>(
    alloc: Global,
    forms: &Forms<'p>,
    handles: &mut Handles<'p>,
    cur: &mut Cur,
    class: ClassId,
) -> Result<bool, StreamFault>
    ensures { GivesBy is_free (λ more. (more, handles.new)) result cur.new (super_at forms.now class handles.old cur.old) }
{
    let at = cur.at();
    match cur.u8()? {
        0x71 => {
            if read_class_handle(handles, cur, at)? == class_kind(class) {
                Ok(false)
            } else {
                Err(StreamFault::HandleKind(at))
            }
        }
        0x72 => {
            read_new_super(alloc, forms, handles, cur, class)?;
            Ok(true)
        }
        tag => Err(StreamFault::Tag(at, tag)),
    }
}

/// The superclasses that are due.
#[tactic(auto, unfolding(crate::specs::Describing::supers_at, nr_base::specs::Reader::bind, nr_base::specs::Reader::pure, nr_base::specs::Reader::refuse, nr_base::specs::Reader::choose, nr_base::specs::Reader::from, nr_base::specs::Reader::with_fault))]
pub fn read_supers<'p>(
    alloc: Global,
    forms: &Forms<'p>,
    handles: &mut Handles<'p>,
    cur: &mut Cur,
    supers: &[ClassId],
) -> Result<(), StreamFault>
    ensures { GivesBy is_free (λ _. handles.new) result cur.new (supers_at forms.now supers.now handles.old cur.old) }
{
    let mut left = supers;
    while let [class, above @ ..] = left {
        if !read_super(alloc, forms, handles, cur, *class)? {
            return Ok(());
        }
        left = above;
    }
    read_no_super(handles, cur)
}
