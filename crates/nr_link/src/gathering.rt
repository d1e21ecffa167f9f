//! Lists that grow by what is there.

ghost use Rattle.std.specs.Prelude.{◌≡◌, ◌++◌, ◌∷◌, [], if◌then◌else◌, OnOk};
ghost use Rattle.std.specs.Option.{option_to_list};

use nr_base::Items;
use std::alloc::AllocError;

/// Puts the item at the end of the list, where there is one.
pub fn push_some<T: Drop>(items: &mut Items<T>, item: Option<T>) -> Result<(), AllocError>
    ensures { OnOk result (items.new ≡ items.old ++ option_to_list item) }
{
    match item {
        Some(item) => items.push(item),
        None => Ok(()),
    }
}

/// Puts the item at the end of the list, where the condition holds.
pub fn push_if<T: Drop>(items: &mut Items<T>, condition: bool, item: T) -> Result<(), AllocError>
    ensures { OnOk result (items.new ≡ items.old ++ (if condition then item ∷ [] else [])) }
{
    if condition { items.push(item) } else { Ok(()) }
}
