// What a target answers itself: REPORT LUNS.
ghost use Rattle.std.specs.Prelude.{◌≡◌, ◌≤◌, ◌+◌, ◌∷◌, [], OnErr, OnOk, length};
ghost use Rattle.satl_base.specs.declared.reply.Scsi.TheVariants.{CheckCondition};
ghost use Rattle.satl_cdb.specs.Refusals.{invalid_field};
ghost use Rattle.satl_sense.specs.Fixed.{fixed_form};
ghost use Rattle.satl_direct.specs.Arrival.{reply_to};
ghost use Rattle.satl_direct.specs.Senses.{refusal_sense};
ghost use Rattle.satl_frame.specs.Output.{IsWritable};
ghost use Rattle.satl_frame.specs.Output.Answer.{replied};
ghost use Rattle.satl_base.specs.Limits.{IsExpectable};
ghost use Rattle.satl_io.specs.Causes.{HasCause};
ghost use Rattle.satl_io.specs.Known.{Wrote, WrotePart};
ghost use Rattle.satl_fleet.specs.Output.{named};
ghost use Rattle.satl_fleet.specs.Target.{target_luns, luns_told, target_reply};
ghost use Rattle.satl_pages.specs.Counts.{number_of};

use crate::telling::UnitTeller;
use arrayvec::ArrayVec;
use byteorder::{BigEndian, ByteOrder};
use satl_asks::refusal_sense;
use satl_base::{Pages, Reply, Request, Scsi, append};
use satl_cdb::Illegal;
use satl_frame::WriteFault;
use satl_io::Sink;
use satl_pages::Pool;
use satl_sense::sense_bytes;
use satl_step::Teller;
use satl_telling::padded;
use std::mem;

/// The list of the LUNs of four units.
type Luns = ArrayVec<u8, 40>;

/// The LUNs of at most four units, behind the number of their bytes (SPC-4 6.33).
fn all_luns(units: u8) -> Luns
    requires few { units ≤ 4 }
    ensures { result.items ≡ target_luns units 0 }
{
    let mut luns = Luns::new();
    append(&mut luns, &[0, 0, 0, 8 * units, 0, 0, 0, 0]);
    for k in 0..units {
        append(&mut luns, &[0, k, 0, 0, 0, 0, 0, 0]);
    }
    luns
}

/// The list of LUNs by SELECT REPORT 00h to 02h (SPC-4 6.33).
fn target_luns(units: u8, select: u8) -> Luns
    requires few { units ≤ 4 }
    ensures { result.items ≡ target_luns units select }
{
    if select != 1 {
        return all_luns(units);
    }
    let mut none = Luns::new();
    append(&mut none, &[0; 8]);
    none
}

/// GOOD with the list of LUNs in a page, cut to the allocation length (SPC-4 6.33).
fn luns_told(units: u8, request: &Request, mut pages: Pages) -> Reply
    requires few { units ≤ 4 }
    requires one { length pages ≡ 1 }
    ensures told { result ≡ luns_told units request.now }
    ensures short { result.data_len ≤ 40 }
{
    let luns = target_luns(units, request.cdb[2]);
    let Some(mut page) = pages.pop_first() else {
        unreachable!();
    };
    page.set(&padded(luns.as_slice()));
    pages.push_first(page);
    let alloc = BigEndian::read_u32(&request.cdb[6..]);
    Reply {
        nexus: request.nexus,
        tag: request.tag,
        status: Scsi::Good,
        sense: ArrayVec::new(),
        body: pages,
        data_len: alloc.min(luns.len() as u32),
        expected: request.expected,
    }
}

/// CHECK CONDITION, since SELECT REPORT is above 02h (SPC-4 6.33). The sense data is in the fixed form.
fn refused(request: &Request) -> Reply
    ensures { result ≡ reply_to request.now CheckCondition (fixed_form (refusal_sense (invalid_field 2))) }
{
    let sense = refusal_sense(Illegal::invalid_field(2));
    Reply {
        nexus: request.nexus,
        tag: request.tag,
        status: Scsi::CheckCondition,
        sense: sense_bytes(&sense, false),
        body: Pages::default(),
        data_len: 0,
        expected: request.expected,
    }
}

/// The answer to REPORT LUNS, with a page of the pool where it has data.
fn target_reply(units: u8, request: &Request, pool: &mut Pool) -> Reply
    requires few { units ≤ 4 }
    requires page { 1 ≤ pool.old.free }
    requires expected { IsExpectable request.now.expected }
    ensures told { result ≡ target_reply units request.now }
    ensures writable { IsWritable result }
    ensures out { pool.new.out ≡ pool.old.out + length result.body }
    ensures number { number_of pool.new ≡ number_of pool.old }
{
    if request.cdb[2] > 2 {
        return refused(request);
    }
    let Some(pages) = pool.take(1) else {
        unreachable!();
    };
    luns_told(units, request, pages)
}

/// Answers REPORT LUNS, under unit 0. The pages that are out are those of the request; they come back to the pool. `WriteFault`
/// comes only where the sink's count of faults rose (SPC-4 6.33; profile).
pub fn report<K: Sink>(
    units: u8,
    mut request: Request,
    pool: &mut Pool,
    sink: &mut K,
) -> Result<(), WriteFault>
    requires few { units ≤ 4 }
    requires pages { pool.old.out ≡ length request.body }
    requires some { 1 ≤ number_of pool.old }
    requires expected { IsExpectable request.expected }
    ensures all { OnOk result (Wrote (K.written sink.old) (K.written sink.new)
        (named 0 (replied (target_reply units request) ∷ []))) }
    ensures part { OnErr result (WrotePart (K.written sink.old) (K.written sink.new)
        (named 0 (replied (target_reply units request) ∷ []))) }
    ensures all_in { OnOk result (pool.new.out ≡ 0) }
    ensures number { number_of pool.new ≡ number_of pool.old }
    ensures cause { HasCause (K.faults sink.old) (K.faults sink.new) result }
{
    pool.give(mem::replace(&mut request.body, Pages::default()));
    let reply = target_reply(units, &request, pool);
    let mut teller = UnitTeller {
        unit: 0,
        named: false,
    };
    teller.tell_reply(&reply, sink)?;
    pool.give(reply.body);
    Ok(())
}
