ghost use Rattle.counting.specs.Balance.{GivenOutIsHeld};

/// States that of some counting shares that join to the whole, as many readers are given out as are held.
pub fn given_out_is_held()
    ensures { GivenOutIsHeld }
{}
