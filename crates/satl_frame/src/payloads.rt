// Payloads of frames, field by field.
ghost use Rattle.std.specs.Prelude.{◌≡◌, ◌<◌, ◌++◌, true, ℕ, List, IfSome, IfNone, MatchOption, length, slice_index};
ghost use Rattle.byteorder.specs.Endian.{big_bytes};
ghost use Rattle.satl_frame.specs.Faults.{has_bad_event, has_bad_field};
ghost use Rattle.satl_frame.specs.Frames.{attr_code, expected_in, is_expectable, which_code, head_size, request_fields, manage_fields, frame_rows, has_code, allows, HasFields, IsManage};
ghost use Rattle.satl_frame.specs.Pulls.{SpellsFrame, SpellsEvent};

use crate::frames::{
    BENCH_KIND, Frame, GLITCH_EVENT, LONGEST_EVENT, MANAGE_KIND, MEND_EVENT, ORDER_EVENT,
    POWER_EVENT, REQUEST_SIZE, STRIKE_EVENT, TURN_KIND, UNPLUG_EVENT, Version,
};
use crate::judge::{number_4, number_8};
use byteorder::{BigEndian, ByteOrder};
use satl_base::{
    Attr, BenchEvent, LONGEST_DATA, Manage, Nexus, OrderBytes, Pages, Request, Tag, Which,
};

fn attr_of(code: u8) -> Option<Attr>
    ensures { MatchOption result (1 < code) (λ a. attr_code a ≡ code) }
{
    match code {
        0 => Some(Attr::Simple),
        1 => Some(Attr::Ordered),
        _ => None,
    }
}

/// The field `expected` of a request's head. None where the version has none.
fn expected_of(version: Version, head: &[u8]) -> Option<u32>
    requires { length head.now ≡ head_size version }
    ensures { result ≡ expected_in version head.now }
{
    match version {
        Version::One => None,
        Version::Two => Some(number_4(head, REQUEST_SIZE)),
    }
}

fn is_expectable(expected: Option<u32>) -> bool
    ensures { result ≡ is_expectable expected }
{
    match expected {
        None => true,
        Some(count) => count <= LONGEST_DATA,
    }
}

/// The request of a head, still without its data-out. None where a field is bad.
pub fn request_of(version: Version, head: &[u8]) -> Option<Request>
    requires { length head.now ≡ head_size version }
    ensures found { IfSome result (λ r. (request_fields r ≡ head.now) × HasFields version r) }
    ensures none { IfNone result ((rest : List ℕ) → has_bad_field version 1 (head.now ++ rest) ≡ true) }
{
    let nexus = Nexus::new(head[0])?;
    let attr = attr_of(head[1])?;
    let mut lun = [0; 8];
    lun.copy_from_slice(&head[2..10]);
    let mut cdb = [0; 16];
    cdb.copy_from_slice(&head[14..REQUEST_SIZE]);
    let expected = expected_of(version, head);
    if !is_expectable(expected) {
        return None;
    }
    Some(Request {
        nexus,
        attr,
        lun,
        tag: Tag(number_4(head, 10)),
        cdb,
        body: Pages::default(),
        data_len: 0,
        expected,
    })
}

fn manage_of(payload: &[u8]) -> Option<Manage>
    requires { length payload.now ≡ 14 }
    ensures found { IfSome result (λ m. (manage_fields m ≡ payload.now) × IsManage m) }
    ensures none { IfNone result (3 < slice_index payload.now 0) }
{
    let nexus = Nexus::new(payload[0])?;
    let mut lun = [0; 8];
    lun.copy_from_slice(&payload[2..10]);
    Some(Manage {
        nexus,
        function: payload[1],
        lun,
        tag: Tag(number_4(payload, 10)),
    })
}

fn turn_of(payload: &[u8]) -> u16
    requires { length payload.now ≡ 2 }
    ensures { big_bytes 2 result ≡ payload.now }
{
    BigEndian::read_u16(payload)
}

fn which_of(code: u8) -> Option<Which>
    ensures some { IfSome result (λ which. which_code which ≡ code) }
    ensures none { IfNone result ((code ≡ 1 → ⊥) × (code ≡ 2 → ⊥)) }
{
    match code {
        1 => Some(Which::Read),
        2 => Some(Which::Write),
        _ => None,
    }
}

fn strike_of<'a>(payload: &[u8]) -> Option<BenchEvent<'a>>
    requires some { 0 < length payload.now }
    requires event { slice_index payload.now 0 ≡ 1 }
    ensures found { IfSome result (SpellsEvent payload.now) }
    ensures none { IfNone result (has_bad_event payload.now ≡ true) }
{
    if payload.len() != 10 {
        return None;
    }
    let which = which_of(payload[1])?;
    let lba = number_8(payload, 2);
    Some(BenchEvent::Strike { which, lba })
}

fn mend_of<'a>(payload: &[u8]) -> Option<BenchEvent<'a>>
    requires some { 0 < length payload.now }
    requires event { slice_index payload.now 0 ≡ 2 }
    ensures found { IfSome result (SpellsEvent payload.now) }
    ensures none { IfNone result (has_bad_event payload.now ≡ true) }
{
    if payload.len() != 9 {
        return None;
    }
    let lba = number_8(payload, 1);
    Some(BenchEvent::Mend { lba })
}

fn glitch_of<'a>(payload: &[u8]) -> Option<BenchEvent<'a>>
    requires some { 0 < length payload.now }
    requires event { slice_index payload.now 0 ≡ 3 }
    ensures found { IfSome result (SpellsEvent payload.now) }
    ensures none { IfNone result (has_bad_event payload.now ≡ true) }
{
    if payload.len() != 3 {
        return None;
    }
    let count = BigEndian::read_u16(&payload[1..]);
    Some(BenchEvent::Glitch { count })
}

fn order_of<'a>(payload: &'a [u8]) -> Option<BenchEvent<'a>>
    requires some { 0 < length payload.now }
    requires event { slice_index payload.now 0 ≡ 4 }
    ensures found { IfSome result (SpellsEvent payload.now) }
    ensures none { IfNone result (has_bad_event payload.now ≡ true) }
{
    if payload.len() < 2 || payload.len() > LONGEST_EVENT {
        return None;
    }
    Some(BenchEvent::Order {
        bytes: OrderBytes::new(&payload[1..]),
    })
}

fn event_of<'a>(payload: &'a [u8]) -> Option<BenchEvent<'a>>
    requires some { 0 < length payload.now }
    ensures found { IfSome result (SpellsEvent payload.now) }
    ensures none { IfNone result (has_bad_event payload.now ≡ true) }
{
    match payload[0] {
        STRIKE_EVENT => strike_of(payload),
        MEND_EVENT => mend_of(payload),
        GLITCH_EVENT => glitch_of(payload),
        ORDER_EVENT => order_of(payload),
        POWER_EVENT if payload.len() == 1 => Some(BenchEvent::Power),
        UNPLUG_EVENT if payload.len() == 1 => Some(BenchEvent::Unplug),
        _ => None,
    }
}

/// The frame of a payload of another kind than REQUEST; order bytes stay where the payload stands. None where a field is bad.
pub fn small_frame<'a>(version: Version, code: u8, payload: &'a [u8]) -> Option<Frame<'a>>
    requires known { has_code (frame_rows version) code ≡ true }
    requires allowed { allows (frame_rows version) code (length payload.now) ≡ true }
    requires other { 1 < code }
    ensures found { IfSome result (SpellsFrame version code payload.now) }
    ensures none { IfNone result (has_bad_field version code payload.now ≡ true) }
{
    match code {
        MANAGE_KIND => Some(Frame::Manage(manage_of(payload)?)),
        TURN_KIND => Some(Frame::Turn(turn_of(payload))),
        BENCH_KIND => Some(Frame::Bench(event_of(payload)?)),
        _ => Some(Frame::End),
    }
}
