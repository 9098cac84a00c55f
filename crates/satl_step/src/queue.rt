// How much of a drive's queue is used.
ghost use Rattle.std.specs.Prelude.{◌≤◌, length};
ghost use Rattle.satl_drive.specs.State.{DriveState};
ghost use Rattle.satl_direct.specs.Run.{depth};
ghost use Rattle.satl_core.specs.Layer.{Tied, view};
ghost use Rattle.satl_core.specs.Tie.{TiesQueue};

use satl_core::Satl;

/// Changes nothing, and says of a tied layer what its drive has outstanding: as many commands as the device lets it have, each
/// that of a task under its tag (ACS-3, native command queuing; profile).
pub fn see_queue(satl: &Satl)
    ensures deep { (d : DriveState) → Tied satl.now d → depth (view satl.now d) ≤ length d.outstanding }
    ensures ties { (d : DriveState) → Tied satl.now d → TiesQueue satl.now d }
{
    satl.pending();
}
