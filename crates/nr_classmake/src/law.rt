//! What calls of a maker make together.

ghost use Rattle.std.specs.Prelude.{◌≡◌, ℕ, List, [], ◌∷◌, ◌++◌, Contains};
ghost use Rattle.nr_prog.specs.Pool.{entry_at};
ghost use Rattle.nr_classmake.specs.Calls.{Call, Place, class_of_calls, items_of};
ghost use Rattle.nr_classmake.specs.Classes.{after, after_call, new_parts, place_in};
ghost use Rattle.nr_classmake.specs.Items.{Item, entry_in, place_of, pool_of};

/// Promises, of every name, superclass and flags and every list of calls of a `ClassMaker`: the class
/// after the calls, one after another, is the class of these calls, and a further call makes it the class
/// of these calls and that one. The class of some calls has in its constant pool each item that they name
/// once, in the order of their first naming, and as interfaces, fields and methods those of the calls, in
/// their order, with the places of what they name. The place that a call gives is that of its item,
/// whatever calls follow, and at its place stands the item's entry. It does nothing.
pub fn calls_make_the_class()
    ensures all { (name super : List ℕ) (flags : ℕ) (calls : List Call)
        → after calls (new_parts name super flags) ≡ class_of_calls name super flags calls }
    ensures next { (name super : List ℕ) (flags : ℕ) (calls : List Call) (call : Call)
        → after_call call (class_of_calls name super flags calls)
        ≡ class_of_calls name super flags (calls ++ call ∷ []) }
    ensures places { (name super : List ℕ) (flags : ℕ) (calls more : List Call) (item : Item)
        → place_in (class_of_calls name super flags calls) item
        ≡ place_of item (items_of name super (calls ++ Place item ∷ more)) }
    ensures entries { (items : List Item) (item : Item)
        → Contains items item → entry_at (pool_of items) (place_of item items) ≡ Some (entry_in items item) }
{}
