//! What a script is known to do before it runs.

ghost use Rattle.std.specs.Prelude.{Bool, IsTrue};
ghost use Rattle.nr_model.specs.Scripts.{Ending, Runs, Script, Within, Wp};

/// Promises that a script that can run, and each of whose runs passes a test, has a run, and that each of
/// its runs passes. It does nothing.
pub fn scripts_do_what_they_promise()
    ensures runs { (sc : Script) (w : Within) (test : Ending → Within → Bool)
        → Wp sc w (λ e v. IsTrue (test e v))
        → (e : Ending) × (v : Within) × Runs sc w e v }
    ensures passes { (sc : Script) (w v : Within) (e : Ending) (test : Ending → Within → Bool)
        → Wp sc w (λ e v. IsTrue (test e v))
        → Runs sc w e v → IsTrue (test e v) }
{}
