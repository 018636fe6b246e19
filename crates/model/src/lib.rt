#![tactic(auto)]

ghost use Rattle.model.specs.Laws.{TightStands, InsideStands};
ghost use Rattle.model.specs.Settled.{SettlingStands};

// 'Inside' is an order on the boxes of plans, and says that the one's choices are the other's.
pub fn inside_stands()
    ensures { InsideStands }
{}

// The tight box of every relation has the laws, and just the choices that some support uses.
pub fn tight_stands()
    ensures { TightStands }
{}

// Runs that shrink and are monotone have one settled box in every box.
pub fn settling_stands()
    ensures { SettlingStands }
{}
