//! Arguments as the first locals of a frame (JVM Specification 2.6.1).

ghost use Rattle.std.specs.Prelude.{◌≡◌, ◌+◌, ◌++◌, ◌≤◌, [], drop, length, take};
ghost use Rattle.std.specs.Vec.{vec_capacity};
ghost use Rattle.nr_model.specs.Steps.{spread};
ghost use Rattle.nr_machine.specs.CallStacks.{filled};

use nr_model::Value;

/// Puts arguments into the first locals. A long takes two, the second of which isn't used.
#[inline(always)]
fn place_arguments(args: &[Value], locals: &mut [Value])
    requires { length (spread args.now) ≤ length locals.old }
    ensures { locals.new ≡ spread args.now ++ drop (length (spread args.now)) locals.old }
{
    let mut at = 0;
    for arg in args {
        locals[at] = *arg;
        at += 1;
        if let Value::Long(_) = *arg {
            locals[at] = Value::Null;
            at += 1;
        }
    }
}

/// Puts the arguments that stand in the values from `first` on into the locals that begin at `from`.
#[inline(always)]
pub fn pass_arguments(values: &mut [Value], from: usize, first: usize, count: usize)
    requires before { first + count ≤ from }
    requires within { from ≤ length values.old }
    requires fits { from + length (spread (take count (drop first values.old))) ≤ length values.old }
    ensures { let placed = spread (take count (drop first values.old)) in
        values.new ≡ take from values.old ++ (placed ++ drop (from + length placed) values.old) }
{
    let (below, window) = values.split_at_mut(from);
    place_arguments(&below[first..first + count], window);
}

/// Puts a window of so many values at the end, where there is room for it: the arguments that stand in the
/// values from `first` on as the first locals, and null in all other places.
#[inline(always)]
pub fn push_window(values: &mut Vec<Value>, slots: usize, first: usize, count: usize)
    requires arguments { first + count ≤ length values.old.items }
    requires fits { length (spread (take count (drop first values.old.items))) ≤ slots }
    requires room { length values.old.items + slots ≤ vec_capacity values.old }
    ensures items { values.new.items ≡ values.old.items
        ++ filled slots (spread (take count (drop first values.old.items))) }
    ensures capacity { vec_capacity values.old ≤ vec_capacity values.new }
{
    let end = values.len();
    let _ = values.resize(end + slots, Value::Null);
    pass_arguments(values, end, first, count);
}

/// The same where there are no values yet, with these arguments.
pub fn push_first_window(values: &mut Vec<Value>, slots: usize, args: &[Value])
    requires empty { values.old.items ≡ [] }
    requires fits { length (spread args.now) ≤ slots }
    requires room { slots ≤ vec_capacity values.old }
    ensures items { values.new.items ≡ filled slots (spread args.now) }
    ensures capacity { vec_capacity values.old ≤ vec_capacity values.new }
{
    let _ = values.resize(slots, Value::Null);
    place_arguments(args, values);
}
