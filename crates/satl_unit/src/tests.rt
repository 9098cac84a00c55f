// Conditions and functions from outside.

use super::*;
use std::test::*;

#[test]
fn conditions(rt: HostRuntime) {
    let mut posted = Attentions::none();
    assert_eq!(rt; posted.next(), None);
    posted.post(Attention::ModeChanged);
    posted.post(Attention::NexusLoss);
    posted.post(Attention::PowerOn);
    posted.post(Attention::Cleared);
    posted.post(Attention::UnitReset);
    posted.post(Attention::NexusLoss);
    let reports = [
        (0x29, 0x01),
        (0x29, 0x03),
        (0x29, 0x07),
        (0x2F, 0x00),
        (0x2A, 0x01),
    ];
    for (asc, ascq) in reports.iter() {
        let next = posted.next().map(|what| what.additional_sense());
        let reported = AdditionalSense {
            asc: *asc,
            ascq: *ascq,
        };
        assert_eq!(rt; next, Some(reported));
    }
    assert_eq!(rt; posted.next(), None);
}

#[test]
fn all_nexuses(rt: HostRuntime) {
    for posted in powered_on().iter_mut() {
        assert_eq!(rt; posted.next(), Some(Attention::PowerOn));
        assert_eq!(rt; posted.next(), None);
    }
    for posted in no_attentions().iter_mut() {
        assert_eq!(rt; posted.next(), None);
    }
}

#[test]
fn functions(rt: HostRuntime) {
    let cases = [
        (0x01, Function::AbortTask),
        (0x02, Function::AbortTaskSet),
        (0x04, Function::ClearTaskSet),
        (0x08, Function::UnitReset),
        (0x10, Function::NexusReset),
        (0x80, Function::QueryTask),
        (0x81, Function::QueryTaskSet),
    ];
    for (code, function) in cases.iter() {
        assert_eq!(rt; Function::of(*code), Some(*function));
        assert_eq!(rt; function.code(), *code);
    }
    for code in [0x00, 0x03, 0x20, 0x82, 0xFF].iter() {
        assert_eq!(rt; Function::of(*code), None);
    }
}
