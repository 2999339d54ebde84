// What one turn hands to the next, and what is told of a search that is over there.
ghost use Rattle.std.specs.Prelude.{◌≡◌, ◌≤◌};

use crate::{End, Outcome};
use monster::Walk;

// Where the search stands, with the rounds completed, the lost ones among them, and the steps completed.
#[derive(Clone, Copy)]
pub(crate) struct State {
    pub(crate) walk: Walk,
    pub(crate) rounds: u32,
    pub(crate) lost: u32,
    pub(crate) steps: u32,
    // each round takes a step at least
    ghost counted: { rounds ≤ steps },
    ghost among: { lost ≤ rounds },
}

impl State {
    ghost use Rattle.turns.specs.Turn.{outcome_of};

    // The search over, where it stands.
    pub(crate) fn ended(self, end: End) -> Outcome
        ensures { result ≡ outcome_of end self }
    {
        Outcome {
            end,
            rounds: self.rounds,
            lost: self.lost,
            steps: self.steps,
            words: self.walk.source.at,
        }
    }
}
