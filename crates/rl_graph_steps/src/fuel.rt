//! The steps that a run may still make.

ghost use Rattle.std.specs.Prelude.{◌≡◌, ◌+◌, ◌<◌, ◌↔◌, IsTrue};
ghost use Rattle.rl_graph_steps.specs.Runs.{steps_of};

/// The steps that are left to a run.
#[derive(Clone, Copy)]
pub struct Fuel {
    /// The silent steps in a row that the run may make.
    pub most: u128,
    /// The rounds that are left, of `most + 1` steps each.
    pub rounds: usize,
    /// The steps that are left beside those.
    pub within: u128,
    /// The silent steps that are left before the next event.
    pub quiet: u128,
}

impl Fuel {
    /// True if steps are left.
    pub fn is_left(&self) -> bool
        ensures { IsTrue result ↔ (0 < steps_of self.now) }
    {
        self.rounds > 0 || self.within > 0
    }

    /// With one step less.
    pub fn spent(self) -> Fuel
        requires { 0 < steps_of self }
        ensures steps { steps_of result + 1 ≡ steps_of self }
        ensures most { result.most ≡ self.most }
        ensures quiet { result.quiet ≡ self.quiet }
    {
        let mut fuel = self;
        if fuel.within > 0 {
            fuel.within -= 1;
            return fuel;
        }
        fuel.rounds -= 1;
        fuel.within = fuel.most;
        fuel
    }
}
