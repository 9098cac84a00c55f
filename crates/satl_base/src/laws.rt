//! What holds of moves of cells, for any test of the pairs that may be put.
ghost use Rattle.std.specs.Prelude.{List, Bool};
ghost use Rattle.std.specs.List.{AllByRecursion};
ghost use Rattle.satl_base.specs.Cells.{Cell, Pair, Part};
ghost use Rattle.satl_base.specs.Moves.{Moves, Passes};

/// No change is moves (profile).
pub fn moves_may_stay()
    ensures { (allows : Pair → Bool) (cells : List Cell) → Moves (Passes allows) cells cells }
{}

/// Moves after moves are moves (profile).
pub fn moves_may_follow()
    ensures { (allows : Pair → Bool) (a b c : List Cell) → Moves (Passes allows) a b → Moves (Passes allows) b c
        → Moves (Passes allows) a c }
{}

/// Where more may be put, the same moves may be made (profile).
pub fn moves_may_widen()
    ensures { (few more : Pair → Bool) (a b : List Cell) → ((p : Pair) → Passes few p → Passes more p) → Moves (Passes few) a b
        → Moves (Passes more) a b }
{}

/// Part of a write is moves, where each of its pairs may be put (profile).
pub fn parts_are_moves()
    ensures { (allows : Pair → Bool) (pairs : List Pair) (a b : List Cell) → AllByRecursion (Passes allows) pairs
        → Part a pairs b → Moves (Passes allows) a b }
{}
