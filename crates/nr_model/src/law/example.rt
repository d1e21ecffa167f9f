//! That the premises of the laws of remote calls can be met.

ghost use Rattle.std.specs.Prelude.{ℕ, [], ◌∷◌, Some, ◌==◌};
ghost use Rattle.nr_model.specs.declared.value.Value.TheVariants.{Ref};
ghost use Rattle.nr_model.specs.Steps.{Run};
ghost use Rattle.nr_model.specs.Locals.{CopyArgs, Local};
ghost use Rattle.nr_model.specs.Pairs.{IsClosed, IsPair, Listed, PairedStates, StartOf};
ghost use Rattle.nr_model.specs.LocalEntries.{EachLocal, EachOwn, FaultedWhere, IsLocal, IsOwn, IsRestored, Mirrors, RestoresPairs};
ghost use Rattle.nr_model.specs.Same.{Same};
ghost use Rattle.nr_model.specs.Asks.{AskRun};
ghost use Rattle.nr_model.specs.LimitedRuns.{LimitedRun};
ghost use Rattle.nr_model.specs.Example.{args, before, call, copied, copied_args, end_with, example, faulted_call, heap, left, main_end, main_start, other_args, other_before, other_left, own_call, pairs, relay_start, restored, same_call, service, start};

/// Promises that the premises of `restores_are_local`, of `restored_runs_follow`, and of the laws about local
/// calls and about machines that mirror another can be met, and what they give there, at a call that was
/// worked out by hand: two arguments are one array, which the call restores; the third is an object that is
/// copied; the method changes what it cuts loose, puts a new object in its place, and returns its copy. A
/// machine that makes this call as a remote one starts paired with itself, and comes to its end within the
/// limits, whether the call is answered by the restore or by the local run itself. Another makes a remote call
/// whose only argument is restored. It does nothing.
pub fn premises_can_be_met()
    ensures copies { CopyArgs example (heap before) args (heap copied) copied_args }
    ensures local_run { Local example (heap before) 0 args 16 (end_with left 6) }
    ensures paired { PairedStates pairs (start copied copied_args) (start other_before other_args) }
    ensures run { Run example (start copied copied_args) 16 (end_with left 6) }
    ensures other_run { Run example (start other_before other_args) 16 (end_with other_left 14) }
    ensures closed { IsClosed (heap before) }
    ensures all_listed { (x y : ℕ)
        → IsPair (StartOf pairs (start copied copied_args) (start other_before other_args)) (heap copied) (heap other_before) x y
        → Listed pairs x y }
    ensures restores { RestoresPairs (heap before) pairs (heap other_left) (Some (Ref 14)) (heap restored) (Some (Ref 9)) }
    ensures same { Same (heap before) (heap left) (Some (Ref 6)) (heap restored) (Some (Ref 9)) }
    ensures local_call { IsLocal example call }
    ensures restored_call { IsRestored example call }
    ensures own_call { IsOwn example own_call }
    ensures start { PairedStates [] main_start main_start }
    ensures answered_run { LimitedRun example service main_start (call ∷ []) 6 (main_end restored) }
    ensures own_run { AskRun example service main_start (own_call ∷ []) 6 (main_end left) }
    ensures mirrored { Mirrors example (call ∷ faulted_call ∷ []) (own_call ∷ faulted_call ∷ []) }
    ensures restored_args { EachLocal example (same_call ∷ []) × EachOwn example (same_call ∷ []) }
    ensures restored_args_run { AskRun example service relay_start (same_call ∷ []) 4 (main_end before) }
    ensures faulted { FaultedWhere (λ n. n == 2) 1 (call ∷ faulted_call ∷ []) }
{}
