//! How much the tables may hold: more is want of memory.

ghost use Rattle.std.specs.Prelude.{◌<◌, ◌^◌, length, IsOkUnless};

use crate::code::read_class;
use crate::tables::{STATIC, has_flag};
use nr_base::{DescBase, Items};
use nr_linked::{ClassId, ProgramTables};
use nr_linkrules::LinkFault;
use nr_prog::{Body, Class, Field, FrameMap, Loaded, MapType, Method};
use std::alloc::Global;

/// The most bytes of names and descriptors of methods. The tables keep a copy of each, and a class file can
/// name one long text many times. The number is the project's own.
const MAX_TEXTS: usize = 0x1000_0000;

/// The most bytes of slots. A class has those of its superclasses, each with a copy of its name and its
/// descriptor. The number is the project's own.
const MAX_SLOTS: usize = 0x1000_0000;

/// What a slot takes beside its texts, at most.
const SLOT: usize = 160;

/// The most bytes of names of classes in the frame maps of a class file. Each name is looked at for each
/// type, and a class file can say millions of types of one long name. The number is the project's own.
const MAX_NAMES: usize = 0x2000_0000;

fn text_len(class: &Class, index: u16) -> usize {
    match class.text(index) {
        Some(text) => text.len(),
        None => 0,
    }
}

// ---- methods

/// How many bytes the names and descriptors of the methods have.
fn texts_of(class: &Class, methods: &[Method]) -> usize {
    let mut bytes = 0usize;
    for method in methods {
        bytes = bytes.saturating_add(text_len(class, method.name));
        bytes = bytes.saturating_add(text_len(class, method.desc));
    }
    bytes
}

// ---- frame maps

/// How many bytes the names of the types have.
fn names_in(types: &[MapType]) -> usize {
    let mut bytes = 0usize;
    for map_type in types {
        if let MapType::Object(desc) = map_type {
            bytes = bytes.saturating_add(name_len(&desc.get().base));
        }
    }
    bytes
}

fn name_len(base: &DescBase) -> usize {
    match base {
        DescBase::Object(name) => name.as_bytes().len(),
        _ => 0,
    }
}

fn names_in_maps(maps: &[FrameMap]) -> usize {
    let mut bytes = 0usize;
    for frame in maps {
        bytes = bytes.saturating_add(names_in(frame.locals.as_slice()));
        bytes = bytes.saturating_add(names_in(frame.stack.as_slice()));
    }
    bytes
}

fn names_of(bodies: &[Option<Body>]) -> usize {
    let mut bytes = 0usize;
    for body in bodies {
        if let Some(body) = body {
            bytes = bytes.saturating_add(names_in_maps(body.maps.as_slice()));
        }
    }
    bytes
}

/// Whether the names and descriptors of all methods, and the names in the frame maps of each class, are
/// within bounds.
pub fn has_room(classes: &[Loaded]) -> bool {
    let mut bytes = 0usize;
    for loaded in classes {
        if names_of(loaded.bodies.as_slice()) > MAX_NAMES {
            return false;
        }
        let class = &loaded.class;
        bytes = bytes.saturating_add(texts_of(class, class.parts().methods.as_slice()));
    }
    bytes <= MAX_TEXTS
}

// ---- slots

/// How many bytes the slots of the fields take.
fn slots_of(class: &Class, fields: &[Field]) -> usize {
    let mut bytes = 0usize;
    for field in fields {
        if !has_flag(field.flags, STATIC) {
            bytes = bytes.saturating_add(SLOT);
            bytes = bytes.saturating_add(text_len(class, field.name));
            bytes = bytes.saturating_add(text_len(class, field.desc));
        }
    }
    bytes
}

fn own_slots(tables: &ProgramTables, class: ClassId) -> usize {
    match read_class(tables, class) {
        Some(class) => slots_of(class, class.parts().fields.as_slice()),
        None => 0,
    }
}

/// How many bytes the slots of each class's own fields take.
fn all_own_slots(alloc: Global, tables: &ProgramTables) -> Result<Items<usize>, LinkFault>
    requires few { length tables.now.classes < 2 ^ 32 }
    ensures err { IsOkUnless result LinkFault.NoMemory }
{
    let mut own = Items::new(alloc);
    for class in 0..tables.classes.len() as u32 {
        own.push(own_slots(tables, class))?;
    }
    Ok(own)
}

/// How many bytes those of the class and its superclasses take, at most `left` classes upward.
fn slots_upward(
    tables: &ProgramTables,
    own: &[usize],
    left: usize,
    class: Option<ClassId>,
) -> usize {
    let Some(class) = class else {
        return 0;
    };
    if left == 0 {
        return 0;
    }
    let above = slots_upward(tables, own, left - 1, tables.super_of(class));
    match own.get(class as usize) {
        Some(bytes) => above.saturating_add(*bytes),
        None => above,
    }
}

/// Whether the slots of all classes are within bounds. The error is `NoMemory`.
pub fn has_slot_room(alloc: Global, tables: &ProgramTables) -> Result<bool, LinkFault>
    requires few { length tables.now.classes < 2 ^ 32 }
    ensures err { IsOkUnless result LinkFault.NoMemory }
{
    let own = all_own_slots(alloc, tables)?;
    let own = own.as_slice();
    let most = tables.classes.len();
    let mut bytes = 0usize;
    for class in 0..most as u32 {
        bytes = bytes.saturating_add(slots_upward(tables, own, most, Some(class)));
    }
    Ok(bytes <= MAX_SLOTS)
}
