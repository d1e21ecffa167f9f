//! That descriptors can be names.

ghost use Rattle.std.specs.Prelude.{ℕ, List};
ghost use Rattle.nr_base.specs.Descs.{HasName, HasNames, desc, desc_text, method_desc, method_text};
ghost use Rattle.nr_base.specs.ModifiedUtf8.{IsModifiedUtf8};
ghost use Rattle.nr_base.specs.declared.desc.types.Desc.{Desc as DescView};
ghost use Rattle.nr_base.specs.declared.desc.types.MethodDesc.{MethodDesc as MethodView};

/// Promises that the text of each descriptor of a type or a method is modified UTF-8 without U+0000, so
/// that `Name::read` refuses none: of those that are legal, and of all others whose classes have names in
/// modified UTF-8, as each `Name` is. It does nothing.
pub fn descriptors_are_names()
    ensures types { (d : DescView) (text : List ℕ) → desc d text → IsModifiedUtf8 text }
    ensures methods { (m : MethodView) (text : List ℕ) → method_desc m text → IsModifiedUtf8 text }
    ensures all_types { (d : DescView) → HasName d.base → IsModifiedUtf8 (desc_text d) }
    ensures all_methods { (m : MethodView) → HasNames m → IsModifiedUtf8 (method_text m) }
{}
