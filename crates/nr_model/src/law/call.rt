//! Calls of one method from two heaps that agree but for names.

ghost use Rattle.std.specs.Prelude.{◌≡◌, ◌≢◌, ℕ, List, [], ◌∷◌, length, Some, None};
ghost use Rattle.std.specs.FinMap.{empty, get, insert};
ghost use Rattle.nr_linked.specs.declared.program.tables.ProgramTables.{ProgramTables};
ghost use Rattle.nr_model.specs.declared.value.Value.{Value};
ghost use Rattle.nr_model.specs.declared.value.Value.TheVariants.{Ref};
ghost use Rattle.nr_model.specs.Heaps.{EachOnce, Has, Heap, Obj, cells};
ghost use Rattle.nr_model.specs.States.{State};
ghost use Rattle.nr_model.specs.Outcomes.{CallOutcome, Fate};
ghost use Rattle.nr_model.specs.Pairs.{AtPlace, Holds, IsClosed, IsPair, Listed, NamedIn, PairedStates, Reach, name_at};
ghost use Rattle.nr_model.specs.Locals.{Begins};
ghost use Rattle.nr_model.specs.LocalEntries.{AllRestorable};
ghost use Rattle.nr_model.specs.PairedCalls.{IsPart, PairedCalls};

/// Promises that calls of one method from heaps that are paired from its arguments go alike. They start in
/// paired states; where all references among the arguments of one are restored, so are those of the other;
/// and from heaps of one size, where one call has an outcome within a budget, the other has the same, and
/// both leave paired states, again with heaps of one size. It does nothing.
pub fn paired_calls_go_alike()
    ensures starts { (p : ProgramTables) (pairs : List (ℕ × ℕ)) (h k : Heap) (m : ℕ) (us vs : List Value) (s t : State)
        → PairedCalls pairs h us k vs → Begins p h m us s → Begins p k m vs t → PairedStates pairs s t }
    ensures restorable { (p : ProgramTables) (pairs : List (ℕ × ℕ)) (h k : Heap) (us vs : List Value)
        → PairedCalls pairs h us k vs → AllRestorable p h us → AllRestorable p k vs }
    ensures outcomes { (p : ProgramTables) (pairs : List (ℕ × ℕ)) (h k : Heap) (m : ℕ) (us vs : List Value) (budget n : ℕ) (f : Fate) (s' : State)
        → PairedCalls pairs h us k vs → cells h ≡ cells k → CallOutcome p h m us budget n f s'
        → (t' : State) × CallOutcome p k m vs budget n f t' × PairedStates pairs s' t' × (cells s'.heap ≡ cells t'.heap) }
{}

/// Promises what is so of the part of a heap that arguments reach. There is one where a list has just the
/// names that are reached, and it is the part of itself. Where two heaps are paired from arguments, so are
/// these parts, and from names to which one path leads from one place of both; they have equally many cells,
/// and for each object of one an object of its kind and length in the other. It does nothing.
pub fn parts_are_paired()
    ensures exists { (h : Heap) (us : List Value) (names : List ℕ)
        → EachOnce names → ((x : ℕ) → Reach h (Holds us) x → Has names x)
        → ((x : ℕ) → Has names x → Reach h (Holds us) x)
        → (part : Heap) × IsPart h us part }
    ensures whole { (h part : Heap) (us : List Value) → IsPart h us part → IsPart part us part }
    ensures paired { (pairs others : List (ℕ × ℕ)) (h k part other : Heap) (us vs : List Value)
        → PairedCalls pairs h us k vs → IsPart h us part → IsPart k vs other
        → ((x y : ℕ) → Listed others x y → IsPair (AtPlace us vs) h k x y) → PairedCalls others part us other vs }
    ensures one_size { (pairs : List (ℕ × ℕ)) (h k part other : Heap) (us vs : List Value)
        → PairedCalls pairs h us k vs → IsPart h us part → IsPart k vs other → cells part ≡ cells other }
    ensures kinds { (pairs : List (ℕ × ℕ)) (h k part other : Heap) (us vs : List Value) (y : ℕ) (q : Obj)
        → PairedCalls pairs h us k vs → IsPart h us part → IsPart k vs other → get other y ≡ Some q
        → (x : ℕ) × (o : Obj) × (get part x ≡ Some o) × (o.kind ≡ q.kind) × (length o.slots ≡ length q.slots) }
{}

/// Promises that calls whose heaps have the one argument alone, an object that names none, start in paired
/// states whatever its name is, with heaps of one size; and the heap is closed, and has what the frame names.
/// It does nothing.
pub fn lone_arguments_start_alike()
    ensures { (p : ProgramTables) (m x y : ℕ) (o : Obj) (s t : State)
        → ((i : ℕ) → name_at o.slots i ≡ None)
        → Begins p (insert empty x o) m (Ref x ∷ []) s → Begins p (insert empty y o) m (Ref y ∷ []) t
        → PairedStates ((x, y) ∷ []) s t × (cells s.heap ≡ cells t.heap)
        × IsClosed t.heap × ((z : ℕ) → NamedIn t.control z → get t.heap z ≢ None) }
{}
