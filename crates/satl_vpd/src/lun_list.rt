// The logical units.
ghost use Rattle.std.specs.Prelude.{◌≡◌, ◌≤◌};
ghost use Rattle.satl_vpd.specs.Luns.{lun_list};

use arrayvec::ArrayVec;
use satl_base::append;

/// The list of LUNs by SELECT REPORT: 0 and 2 list LUN 0, and 1, the well known units alone, lists none (SPC-4, REPORT LUNS
/// command).
pub fn luns(select: u8) -> ArrayVec<u8, 16>
    requires { select ≤ 2 }
    ensures { result.items ≡ lun_list select }
{
    let mut list = ArrayVec::new();
    if select == 1 {
        append(&mut list, &[0; 8]);
    } else {
        append(&mut list, &[0, 0, 0, 8, 0, 0, 0, 0]);
        append(&mut list, &[0; 8]);
    }
    list
}
