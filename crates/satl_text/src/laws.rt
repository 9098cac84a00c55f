//! Laws of the totals: what holds of the definitions alone.
ghost use Rattle.satl_text.specs.Totals.{TotalsGrow};

/// The totals of answers and one more are those of the answers, with the one more in them (profile).
pub fn totals_grow()
    ensures { TotalsGrow }
{}
