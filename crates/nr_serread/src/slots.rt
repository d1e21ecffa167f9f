//! Slots, one behind the other.

ghost use Rattle.std.specs.Prelude.{◌≡◌, ◌<◌, ◌+◌, ◌*◌, ◌∷◌, [], ℕ, List, None, Ok, Some, replicate, length, IfErr, MatchOption, OnOk};
ghost use Rattle.nr_base.specs.Clauses.{Fails};
ghost use Rattle.nr_linked.specs.declared.program.built_in.BuiltIn.TheVariants as built_ins;
ghost use Rattle.nr_linked.specs.BuiltIns.{built_in};
ghost use Rattle.nr_linked.specs.Kinds.{class_kind};
ghost use Rattle.nr_serread.specs.declared.due.Due.{Due as DueView};
ghost use Rattle.nr_serread.specs.Faults.{is_free};
ghost use Rattle.nr_serread.specs.Reading.{root_due, slots_at};
ghost use Rattle.nr_serread.specs.Working.{Fits, left_due, open_state, state_of};

use crate::content::read_slot;
use crate::due::Due;
use crate::fault::StreamFault;
use crate::naming::class_kind;
use crate::work::{Frame, Left, Work};
use nr_base::Cur;
use nr_linked::{BuiltIn, Kind};
use nr_serform::Forms;
use std::alloc::Global;

/// What is due next of a node, and what is left then.
fn first_of<'f, 'p>(left: Left<'f, 'p>) -> Option<(Kind, Left<'f, 'p>)>
    ensures { (i : ℕ) → MatchOption result (left_due i left.entry ≡ [])
        (λ r. left_due i left.entry ≡ record { owner = Some i; kind = r.0 } ∷ left_due i r.1) }
{
    match left {
        Left::Slots([]) => None,
        Left::Slots([slot, rest @ ..]) => Some((slot.slot.kind, Left::Slots(rest))),
        Left::Elements(kind, n) => {
            if n == 0 {
                return None;
            }
            Some((kind, Left::Elements(kind, n - 1)))
        }
    }
}

/// Reads the next slot of a node that was open, or closes it.
fn advance<'f, 'p>(
    alloc: Global,
    forms: &'f Forms<'p>,
    w: &mut Work<'f, 'p>,
    cur: &mut Cur,
    frame: Frame<'f, 'p>,
) -> Result<(), StreamFault>
    requires { Fits w.old }
    ensures on { (roots : List DueView) → OnOk result (slots_at forms.now (state_of w.new roots) cur.new
        ≡ slots_at forms.now (open_state frame.entry w.old roots) cur.old) }
    ensures err { (roots : List DueView) → IfErr result (λ e. Fails is_free e (slots_at forms.now (open_state frame.entry w.old roots) cur.old)) }
    ensures fits { OnOk result (Fits w.new) }
    ensures smaller { OnOk result (2 * length cur.new.rest + length w.new.frames.items < 2 * length cur.old.rest + (length w.old.frames.items + 1)) }
{
    let Frame { node, left } = frame;
    match first_of(left) {
        None => Ok(()),
        Some((kind, left)) => {
            w.frames.push(Frame { node, left })?;
            let due = Due {
                owner: Some(node),
                kind,
            };
            read_slot(alloc, forms, w, cur, due)
        }
    }
}

/// Reads what is due of the open nodes.
fn read_open<'f, 'p>(
    alloc: Global,
    forms: &'f Forms<'p>,
    w: &mut Work<'f, 'p>,
    cur: &mut Cur,
) -> Result<(), StreamFault>
    requires { Fits w.old }
    ensures on { (roots : List DueView) → OnOk result (slots_at forms.now (state_of w.new roots) cur.new
        ≡ slots_at forms.now (state_of w.old roots) cur.old) }
    ensures err { (roots : List DueView) → IfErr result (λ e. Fails is_free e (slots_at forms.now (state_of w.old roots) cur.old)) }
    ensures fits { OnOk result (Fits w.new) }
    ensures closed { OnOk result (w.new.frames.items ≡ []) }
{
    while let Some(frame) = w.frames.pop() {
        advance(alloc, forms, w, cur, frame)?;
    }
    Ok(())
}

/// Reads the slot of a root.
fn read_first<'f, 'p>(
    alloc: Global,
    forms: &'f Forms<'p>,
    w: &mut Work<'f, 'p>,
    cur: &mut Cur,
    kind: Kind,
) -> Result<(), StreamFault>
    requires fits { Fits w.old }
    requires closed { w.old.frames.items ≡ [] }
    ensures on { (roots : List DueView) → OnOk result (slots_at forms.now (state_of w.new roots) cur.new
        ≡ slots_at forms.now (state_of w.old (record { owner = None; kind = kind } ∷ roots)) cur.old) }
    ensures err { (roots : List DueView) → IfErr result (λ e. Fails is_free e
        (slots_at forms.now (state_of w.old (record { owner = None; kind = kind } ∷ roots)) cur.old)) }
    ensures fits { OnOk result (Fits w.new) }
{
    read_slot(alloc, forms, w, cur, Due { owner: None, kind })
}

/// Reads a root and all that is due behind it.
fn read_root<'f, 'p>(
    alloc: Global,
    forms: &'f Forms<'p>,
    w: &mut Work<'f, 'p>,
    cur: &mut Cur,
    kind: Kind,
) -> Result<(), StreamFault>
    requires fits { Fits w.old }
    requires closed { w.old.frames.items ≡ [] }
    ensures on { (roots : List DueView) → OnOk result (slots_at forms.now (state_of w.new roots) cur.new
        ≡ slots_at forms.now (state_of w.old (record { owner = None; kind = kind } ∷ roots)) cur.old) }
    ensures err { (roots : List DueView) → IfErr result (λ e. Fails is_free e
        (slots_at forms.now (state_of w.old (record { owner = None; kind = kind } ∷ roots)) cur.old)) }
    ensures fits { OnOk result (Fits w.new) }
    ensures closed { OnOk result (w.new.frames.items ≡ []) }
{
    read_first(alloc, forms, w, cur, kind)?;
    read_open(alloc, forms, w, cur)
}

/// What a root may hold: any object.
fn root_kind(forms: &Forms) -> Kind
    ensures { result ≡ class_kind (built_in forms.now built_ins.Object) }
{
    class_kind(forms.program().built_in(BuiltIn::Object))
}

/// Reads so many roots.
pub fn read_roots<'f, 'p>(
    alloc: Global,
    forms: &'f Forms<'p>,
    w: &mut Work<'f, 'p>,
    cur: &mut Cur,
    n_roots: u32,
) -> Result<(), StreamFault>
    requires fits { Fits w.old }
    requires closed { w.old.frames.items ≡ [] }
    ensures on { OnOk result (slots_at forms.now (state_of w.old (replicate n_roots (root_due forms.now))) cur.old ≡ Ok (state_of w.new [], cur.new)) }
    ensures err { IfErr result (λ e. Fails is_free e (slots_at forms.now (state_of w.old (replicate n_roots (root_due forms.now))) cur.old)) }
{
    let kind = root_kind(forms);
    for _root in 0..n_roots {
        read_root(alloc, forms, w, cur, kind)?;
    }
    Ok(())
}
