// Which unit of a target a frame goes to.
ghost use Rattle.std.specs.Prelude.{◌≡◌, ◌==◌};
ghost use Rattle.satl_fleet.specs.Routing.{is_for_all, is_report, names_unit, route_to};

use satl_base::{Manage, Request, are_zeros};
use satl_cdb::REPORT_LUNS;
use satl_unit::NEXUS_RESET;

/// LUN 0: eight bytes of zero (SAM-5 4.6).
pub const LUN_0: [u8; 8] = [0; 8];

/// Where a frame goes: to this unit, at this LUN there (profile).
#[derive(Clone, Copy, Debug, PartialEq, Eq)]
pub struct Route {
    /// The number of the unit.
    pub unit: u8,
    /// The LUN under which that unit sees the frame.
    pub lun: [u8; 8],
}

/// Whether a LUN of one level names one of so many units (SAM-5 4.6).
fn names_unit(units: u8, lun: &[u8; 8]) -> bool
    ensures { result ≡ names_unit units lun.now }
{
    if lun[0] != 0 {
        return false;
    }
    if lun[1] >= units {
        return false;
    }
    are_zeros(&lun[2..])
}

/// Where a frame to a LUN goes, of so many units: to unit 0 at the same LUN where no unit has it (profile).
pub fn route_to(units: u8, lun: &[u8; 8]) -> Route
    ensures { result ≡ route_to units lun.now }
{
    if names_unit(units, lun) {
        return Route {
            unit: lun[1],
            lun: LUN_0,
        };
    }
    Route { unit: 0, lun: *lun }
}

/// Whether it is REPORT LUNS, which the target itself answers (SPC-4 6.33; profile).
pub fn is_report(request: &Request) -> bool
    ensures { result ≡ is_report request.now }
{
    request.cdb[0] == REPORT_LUNS
}

/// Whether it is I_T NEXUS RESET, which goes to every unit (SAM-5 7.6).
pub fn is_for_all(manage: &Manage) -> bool
    ensures { result ≡ is_for_all manage.now }
{
    manage.function == NEXUS_RESET
}
