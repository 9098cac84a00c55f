//! Laws of what can be audited.
ghost use Rattle.satl_cover.specs.Reading.{OneAnswer};

/// Of one input one thing is true: that it is covered, or that a frame at one offset is the first that is not, or that
/// the input is refused for one reason at one offset (profile).
pub fn one_answer()
    ensures { OneAnswer }
{}
