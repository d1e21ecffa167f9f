//! The outline of a program: the tables as far as the class files alone say.

ghost use Rattle.std.specs.Prelude.{◌≡◌, ◌∷◌, ◌++◌, ◌<◌, ◌≤◌, ◌+◌, ◌^◌, [], length, map, All, IfOk, OnOk, IsOkUnless};
ghost use Rattle.std.specs.List.{zip};
ghost use Rattle.nr_base.specs.ModifiedUtf8.{IsModifiedUtf8};
ghost use Rattle.nr_prog.specs.BodyText.{HasBodies};
ghost use Rattle.nr_prog.specs.Pool.{text_at};
ghost use Rattle.nr_links.specs.Entries.{method_count};
ghost use Rattle.nr_linkrules.specs.Outline.{class_number, names_of, outline, outline_class, outline_classes, outline_method, outline_methods, some_text};
ghost use Rattle.nr_link.specs.Entries.{HasTexts, numbers_of};
ghost use Rattle.nr_names.specs.Numbers.{numbers_of as text_numbers, texts};

use crate::built_in::add_built_ins;
use crate::built_in_methods::add_built_in_methods;
use crate::gathering::push_some;
use crate::names::{name_of, own_name, text_bytes};
use indexmap::IndexSet;
use nr_base::{Items, Name};
use nr_linked::{ClassId, ClassInfo, MethodId, MethodInfo, ProgramTables};
use nr_linkrules::LinkFault;
use nr_names::{number_at, numbers_of as text_numbers};
use nr_prog::{Body, Class, Code, Loaded, Method, PoolEntry};
use std::alloc::Global;

/// The number of the class that the index names, by the numbers of the texts of the constant pool.
#[tactic(auto, using(nr_names::proofs::Numbering::numbered_at), unfolding(nr_prog::specs::BodyNames::class_text_at))]
pub fn class_number(
    names: &IndexSet<&[u8]>,
    numbers: &[Option<u32>],
    class: &Class,
    index: u16,
) -> Option<ClassId>
    requires numbers { numbers.now ≡ text_numbers (texts names.now) class.now.pool }
    ensures { result ≡ class_number (texts names.now) class.now.pool index }
{
    match class.entry(index) {
        Some(PoolEntry::Class(name)) => number_at(numbers, *name),
        _ => None,
    }
}

#[tactic(auto, using(crate::proofs::Loops::gathers, crate::proofs::Loops::gathered))]
fn numbers_of(
    alloc: Global,
    names: &IndexSet<&[u8]>,
    numbers: &[Option<u32>],
    class: &Class,
    indices: &[u16],
) -> Result<Items<ClassId>, LinkFault>
    requires numbers { numbers.now ≡ text_numbers (texts names.now) class.now.pool }
    ensures numbers { IfOk result (λ found. found ≡ numbers_of (texts names.now) class.now.pool indices.now) }
    ensures err { IsOkUnless result LinkFault.NoMemory }
{
    let mut found = Items::new(alloc);
    for index in indices {
        push_some(&mut found, class_number(names, numbers, class, *index))?;
    }
    Ok(found)
}

/// The entry of a class, whose first method has this number.
#[tactic(auto, unfolding(nr_linkrules::specs::Outline::outline_class))]
fn outline_class(
    alloc: Global,
    names: &IndexSet<&[u8]>,
    first_method: MethodId,
    class: Class,
) -> Result<ClassInfo, LinkFault>
    requires few { length (texts names.now) < 2 ^ 32 }
    ensures info { IfOk result (λ info. info ≡ outline_class (texts names.now) first_method class) }
    ensures err { IsOkUnless result LinkFault.NoMemory }
{
    let parts = class.parts();
    let flags = parts.flags;
    let methods = parts.methods.len() as u32;
    let numbers = text_numbers(alloc, names, parts.pool.as_slice())?;
    let numbers = numbers.as_slice();
    let super_class = class_number(names, numbers, &class, parts.super_class);
    let interfaces = numbers_of(alloc, names, numbers, &class, parts.interfaces.as_slice())?;
    Ok(ClassInfo {
        name: name_of(alloc, own_name(&class))?,
        flags,
        super_class,
        interfaces,
        supers: Items::new(alloc),
        slots: Items::new(alloc),
        first_method,
        methods,
        read: Some(class),
    })
}

/// The text at an index, which is a name.
fn name_at(alloc: Global, class: &Class, index: u16) -> Result<Name, LinkFault>
    requires { IsModifiedUtf8 (some_text (text_at class.now.pool index)) }
    ensures name { IfOk result (λ name. name ≡ some_text (text_at class.now.pool index)) }
    ensures err { IsOkUnless result LinkFault.NoMemory }
{
    name_of(alloc, text_bytes(class, index))
}

fn stack_places(code: &Option<Code>) -> u16
    ensures { result ≡ Rattle.nr_links.specs.Entries.stack_places code.now }
{
    match code {
        Some(code) => code.max_stack,
        None => 0,
    }
}

fn local_places(code: &Option<Code>) -> u16
    ensures { result ≡ Rattle.nr_links.specs.Entries.local_places code.now }
{
    match code {
        Some(code) => code.max_locals,
        None => 0,
    }
}

/// The entry of a method of a class.
#[tactic(auto, unfolding(nr_linkrules::specs::Outline::outline_method))]
fn outline_method(
    alloc: Global,
    place: ClassId,
    class: &Class,
    method: &Method,
    body: Option<Body>,
) -> Result<MethodInfo, LinkFault>
    requires { HasTexts class.now.pool method.now }
    ensures info { IfOk result (λ info. info ≡ outline_method place class.now.pool (method.now, body)) }
    ensures err { IsOkUnless result LinkFault.NoMemory }
{
    Ok(MethodInfo {
        class: place,
        name: name_at(alloc, class, method.name)?,
        desc: name_at(alloc, class, method.desc)?,
        flags: method.flags,
        params: Items::new(alloc),
        result: None,
        max_stack: stack_places(&method.code),
        max_locals: local_places(&method.code),
        body,
        resolved: Items::new(alloc),
        catches: Items::new(alloc),
        maps: Items::new(alloc),
    })
}

fn add_methods(
    alloc: Global,
    place: ClassId,
    class: &Class,
    declared: &[Method],
    bodies: Items<Option<Body>>,
    methods: &mut Items<MethodInfo>,
) -> Result<(), LinkFault>
    requires { All (HasTexts class.now.pool) declared.now }
    ensures added { OnOk result (methods.new ≡ methods.old ++ map (outline_method place class.now.pool) (zip declared.now bodies)) }
    ensures err { IsOkUnless result LinkFault.NoMemory }
{
    let mut rest = bodies.into_vec().into_iter();
    for method in declared {
        let Some(body) = rest.next() else {
            return Ok(());
        };
        methods.push(outline_method(alloc, place, class, method, body)?)?;
    }
    Ok(())
}

/// Puts a class and its methods at the end of the tables.
#[tactic(auto, using(crate::proofs::Texts::have_texts))]
fn add_class(
    alloc: Global,
    names: &IndexSet<&[u8]>,
    loaded: Loaded,
    tables: &mut ProgramTables,
) -> Result<(), LinkFault>
    requires few { length (texts names.now) < 2 ^ 32 }
    requires few_classes { length tables.old.classes < 2 ^ 32 }
    requires few_methods { length tables.old.methods < 2 ^ 32 }
    ensures classes { OnOk result (tables.new.classes ≡ tables.old.classes ++ outline_class (texts names.now) (length tables.old.methods) loaded.«class» ∷ []) }
    ensures methods { OnOk result (tables.new.methods ≡ tables.old.methods ++ map (outline_method (length tables.old.classes) loaded.«class».pool) (zip loaded.«class».methods loaded.bodies)) }
    ensures few { OnOk result (length loaded.«class».methods ≤ 2 ^ 16) }
    ensures err { IsOkUnless result LinkFault.NoMemory }
{
    let Loaded { class, bodies } = loaded;
    let place = tables.classes.len() as u32;
    let first = tables.methods.len() as u32;
    let declared = class.parts().methods.as_slice();
    add_methods(alloc, place, &class, declared, bodies, &mut tables.methods)?;
    tables
        .classes
        .push(outline_class(alloc, names, first, class)?)?;
    Ok(())
}

/// The loaded classes and their methods.
fn loaded_outline(
    alloc: Global,
    names: &IndexSet<&[u8]>,
    classes: Items<Loaded>,
) -> Result<ProgramTables, LinkFault>
    requires few { length (texts names.now) < 2 ^ 32 }
    requires few_classes { length classes ≤ 1024 }
    requires bodies { All (λ l. HasBodies l.«class» l.bodies) classes }
    ensures classes { IfOk result (λ tables. tables.classes ≡ outline_classes (texts names.now) 0 classes) }
    ensures methods { IfOk result (λ tables. tables.methods ≡ outline_methods 0 classes) }
    ensures few { IfOk result (λ tables. length tables.methods ≤ 2 ^ 26) }
    ensures err { IsOkUnless result LinkFault.NoMemory }
{
    let mut tables = ProgramTables {
        classes: Items::new(alloc),
        methods: Items::new(alloc),
    };
    let mut rest = classes.into_vec().into_iter();
    while let Some(loaded) = rest.next() {
        add_class(alloc, names, loaded, &mut tables)?;
    }
    Ok(tables)
}

/// The outline of the program of some classes, of which the names are known.
#[tactic(auto, unfolding(nr_linkrules::specs::Outline::outline), using(crate::proofs::Outlines::class_count, crate::proofs::Outlines::method_counts))]
pub fn outline(
    alloc: Global,
    names: &IndexSet<&[u8]>,
    classes: Items<Loaded>,
) -> Result<ProgramTables, LinkFault>
    requires names { texts names.now ≡ names_of classes }
    requires few_classes { length classes ≤ 1024 }
    requires bodies { All (λ l. HasBodies l.«class» l.bodies) classes }
    ensures tables { IfOk result (λ tables. tables ≡ outline classes) }
    ensures err { IsOkUnless result LinkFault.NoMemory }
{
    let mut tables = loaded_outline(alloc, names, classes)?;
    let first_class = tables.classes.len() as u32;
    let first_method = tables.methods.len() as u32;
    add_built_ins(alloc, first_class, first_method, &mut tables.classes)?;
    add_built_in_methods(alloc, first_class, &mut tables.methods)?;
    Ok(tables)
}
