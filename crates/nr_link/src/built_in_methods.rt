//! The methods of the built-in classes as entries of the tables.

ghost use Rattle.std.specs.Prelude.{◌≡◌, ◌+◌, ◌<◌, ◌≤◌, ◌^◌, ◌∷◌, ◌++◌, [], length, map, OnOk, IsOkUnless, None, Some};
ghost use Rattle.std.specs.List.{flat_map};
ghost use Rattle.std.specs.Option.{option_to_list};
ghost use Rattle.nr_base.specs.ModifiedUtf8.{IsModifiedUtf8};
ghost use Rattle.nr_linked.specs.BuiltIns.{built_in_class};
ghost use Rattle.nr_linked.specs.BuiltInTables.{built_in_method, built_in_methods};
ghost use Rattle.nr_link.specs.BuiltInEntries.{methods_in};

use crate::built_in::{built_ins, place};
use crate::gathering::push_some;
use crate::names::name_of;
use nr_base::Items;
use nr_linked::{Base, BuiltIn, ClassId, Kind, MethodInfo};
use nr_linkrules::LinkFault;
use std::alloc::Global;

/// Puts a method at the end of the table.
#[tactic(auto, unfolding(nr_linked::specs::BuiltInTables::built_in_method))]
fn add_method(
    alloc: Global,
    class: ClassId,
    name: &[u8],
    desc: &[u8],
    flags: u16,
    param: Option<Kind>,
    methods: &mut Items<MethodInfo>,
) -> Result<(), LinkFault>
    requires name { IsModifiedUtf8 name.now }
    requires short_name { length name.now < 2 ^ 16 }
    requires desc { IsModifiedUtf8 desc.now }
    requires short_desc { length desc.now < 2 ^ 16 }
    ensures added { OnOk result (methods.new ≡ methods.old ++ built_in_method class (record { name = name.now; desc = desc.now; flags = flags; params = option_to_list param }) ∷ []) }
    ensures err { IsOkUnless result LinkFault.NoMemory }
{
    let mut params = Items::new(alloc);
    push_some(&mut params, param)?;
    methods.push(MethodInfo {
        class,
        name: name_of(alloc, name)?,
        desc: name_of(alloc, desc)?,
        flags,
        params,
        result: None,
        max_stack: 0,
        max_locals: 0,
        body: None,
        resolved: Items::new(alloc),
        catches: Items::new(alloc),
        maps: Items::new(alloc),
    })?;
    Ok(())
}

/// The kind of a primitive type's values, or of its arrays.
fn kind(dims: u8, base: Base) -> Option<Kind>
    ensures { result ≡ Some (record { dims = dims; base = base }) }
{
    Some(Kind { dims, base })
}

/// Puts the methods of `nrmi/Out` at the end of the table.
#[tactic(auto, using(crate::proofs::BuiltInNames::print, crate::proofs::BuiltInNames::line, crate::proofs::BuiltInNames::chars_void, crate::proofs::BuiltInNames::char_void, crate::proofs::BuiltInNames::int_void, crate::proofs::BuiltInNames::long_void, crate::proofs::BuiltInNames::void), unfolding(nr_linked::specs::BuiltIns::built_in_class))]
fn add_printing(
    alloc: Global,
    class: ClassId,
    methods: &mut Items<MethodInfo>,
) -> Result<(), LinkFault>
    ensures added { OnOk result (methods.new ≡ methods.old ++ map (built_in_method class) (built_in_class BuiltIn.Out).methods) }
    ensures err { IsOkUnless result LinkFault.NoMemory }
{
    let flags = 0x0009;
    add_method(
        alloc,
        class,
        b"print",
        b"([C)V",
        flags,
        kind(1, Base::Char),
        methods,
    )?;
    add_method(
        alloc,
        class,
        b"print",
        b"(C)V",
        flags,
        kind(0, Base::Char),
        methods,
    )?;
    add_method(
        alloc,
        class,
        b"print",
        b"(I)V",
        flags,
        kind(0, Base::Int),
        methods,
    )?;
    add_method(
        alloc,
        class,
        b"print",
        b"(J)V",
        flags,
        kind(0, Base::Long),
        methods,
    )?;
    add_method(alloc, class, b"line", b"()V", flags, None, methods)
}

/// Puts the methods of a class at the end of the table.
#[tactic(auto, using(crate::proofs::BuiltInNames::init, crate::proofs::BuiltInNames::void), unfolding(nr_linked::specs::BuiltIns::built_in_class))]
fn add_methods(
    alloc: Global,
    first_class: ClassId,
    class: BuiltIn,
    methods: &mut Items<MethodInfo>,
) -> Result<(), LinkFault>
    requires { first_class ≤ 2 ^ 31 }
    ensures added { OnOk result (methods.new ≡ methods.old ++ methods_in first_class class) }
    ensures err { IsOkUnless result LinkFault.NoMemory }
{
    let place = place(first_class, class);
    match class {
        BuiltIn::Cloneable | BuiltIn::Serializable | BuiltIn::Restorable => Ok(()),
        BuiltIn::Out => add_printing(alloc, place, methods),
        _ => add_method(alloc, place, b"<init>", b"()V", 0x0001, None, methods),
    }
}

#[tactic(auto, using(crate::proofs::Loops::adds, crate::proofs::Loops::gathered))]
fn add_each(
    alloc: Global,
    first_class: ClassId,
    classes: &[BuiltIn],
    methods: &mut Items<MethodInfo>,
) -> Result<(), LinkFault>
    requires { first_class ≤ 2 ^ 31 }
    ensures added { OnOk result (methods.new ≡ methods.old ++ flat_map (methods_in first_class) classes.now) }
    ensures err { IsOkUnless result LinkFault.NoMemory }
{
    for class in classes {
        add_methods(alloc, first_class, *class, methods)?;
    }
    Ok(())
}

/// Puts the methods of all at the end of the table.
#[tactic(auto, unfolding(nr_linked::specs::BuiltInTables::built_in_methods))]
pub fn add_built_in_methods(
    alloc: Global,
    first_class: ClassId,
    methods: &mut Items<MethodInfo>,
) -> Result<(), LinkFault>
    requires { first_class ≤ 2 ^ 31 }
    ensures added { OnOk result (methods.new ≡ methods.old ++ built_in_methods first_class) }
    ensures err { IsOkUnless result LinkFault.NoMemory }
{
    add_each(alloc, first_class, built_ins(), methods)
}
