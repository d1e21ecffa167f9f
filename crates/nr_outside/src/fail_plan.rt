// Which calls of an object in memory are to fail.
ghost use Rattle.std.specs.Prelude.{◌≡◌};

// The numbers, from 1, of the calls that are to fail, and how many calls there were.
#[derive(Drop)]
pub struct FailPlan {
    fails: Vec<u64>,
    calls: u64,
}

impl FailPlan {
    ghost use Rattle.nr_outside.specs.FailPlan.{is_planned, IsCounted};

    pub fn new(fails: Vec<u64>) -> Self
        ensures fails { result.fails.items ≡ fails.items }
        ensures calls { result.calls ≡ 0 }
    {
        FailPlan { fails, calls: 0 }
    }

    // How many calls there were.
    pub fn calls(&self) -> u64
        ensures { result ≡ self.now.calls }
    {
        self.calls
    }

    // Counts a call, and says whether it is to fail.
    #[tactic(auto, unfolding(crate::specs::FailPlan::is_planned))]
    pub fn is_next_to_fail(&mut self) -> bool
        ensures counted { IsCounted self.old self.new }
        ensures answer { result ≡ is_planned self.old }
    {
        self.calls = self.calls.saturating_add(1);
        self.fails.contains(&self.calls)
    }
}
