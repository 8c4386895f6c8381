ghost use Rattle.edits.specs.Filling.{ReachedIsJoined};

// The function here does nothing: it states a law of `is_joined`, by which a fill is defined.

/// In a tile layer as many steps as it has cells lead from a start to exactly the cells to which a list of free cells leads, each a
/// neighbour of the one before.
pub fn reached_is_joined()
    ensures { ReachedIsJoined }
{}
