//! Laws of loads: what holds of the definitions alone.
ghost use Rattle.satl_top.specs.Laws.{HasAllRequests};

/// A generated input has exactly as many REQUESTs as were asked for (profile).
pub fn generated_input_has_all_requests()
    ensures { HasAllRequests }
{}
