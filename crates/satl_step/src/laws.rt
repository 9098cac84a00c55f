//! A law of what is counted: it holds of the definitions alone.
ghost use Rattle.satl_step.specs.Laws.{AllowsNoneUnplugged};

/// Events behind an UNPLUG, of which none is POWER, allow no call of the drive (profile).
pub fn an_unplugged_drive_is_allowed_no_call()
    ensures { AllowsNoneUnplugged }
{}
