// What a request says beside its command.
ghost use Rattle.std.specs.Prelude.{◌≡◌};
ghost use Rattle.satl_base.specs.Lists.{is_in};
ghost use Rattle.satl_direct.specs.Arrival.{is_unit_0, codes_before_attentions};
ghost use Rattle.satl_direct.specs.Tasks.{is_ordered};
ghost use Rattle.satl_asks.specs.Requests.{is_for_unit};

use satl_base::{Attr, Request};
use satl_cdb::{INQUIRY, REPORT_LUNS, REQUEST_SENSE};

/// Whether a command of this operation code is carried out before a unit attention is told: INQUIRY, REPORT LUNS and REQUEST
/// SENSE (SAM-5 5.14).
pub fn goes_before_attentions(code: u8) -> bool
    ensures { result ≡ is_in code codes_before_attentions }
{
    matches!(code, INQUIRY | REPORT_LUNS | REQUEST_SENSE)
}

/// Whether a LUN is that of logical unit 0: eight bytes of zero (SAM-5 4.6).
pub fn is_unit_0(lun: &[u8; 8]) -> bool
    ensures { result ≡ is_unit_0 lun.now }
{
    u64::from_ne_bytes(*lun) == 0
}

/// Whether a request goes to logical unit 0. REPORT LUNS does at each LUN (SPC-4 6.33).
pub fn is_for_unit(request: &Request) -> bool
    ensures { result ≡ is_for_unit request.now }
{
    is_unit_0(&request.lun) || request.cdb[0] == REPORT_LUNS
}

/// Whether a task has the attribute ORDERED (SAM-5 8.6).
pub fn is_ordered(attr: Attr) -> bool
    ensures { result ≡ is_ordered attr }
{
    match attr {
        Attr::Simple => false,
        Attr::Ordered => true,
    }
}
