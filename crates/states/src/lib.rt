// What the figures mean: the states of a stretch, the runs in them, and the sums over them, as definitions in specs/. No code of
// this crate runs.
#![tactic(auto)]

ghost use Rattle.states.specs.Places.{EachStateOnce, FailsInARow, RingFailsAround, SeamRunOnce};

// The definitions say what their words say: all states are summed over, each once; a state fails exactly where k neighbours in a
// row are down; and the run across the seam counts each station once.
pub fn definitions_hold()
    ensures once { EachStateOnce }
    ensures line { FailsInARow }
    ensures ring { RingFailsAround }
    ensures seam { SeamRunOnce }
{}
