// Tasks of a record end.
ghost use Rattle.std.specs.Prelude.{◌≡◌, ◌≤◌, ◌<◌, ◌+◌, ◌*◌, ◌^◌, IfOk, IfSome, OnOk, List, ℕ, true, not, ◌&&◌, length};
ghost use Rattle.satl_line.specs.Eligible.{eligible_at};
ghost use Rattle.satl_audit.specs.Finishing.{AreTasks, EndsOrCannot, Flushes, NamesNext, OnlyEnds, ReadAnswered, Turns, WriteAnswered};
ghost use Rattle.satl_audit.specs.Waiting.{entries_in};
ghost use Rattle.satl_audit.specs.Progress.{compared, progress, recorded};

use crate::arriving::Followed;
use crate::cursor::Cursor;
use crate::effects::{Put, put_blocks, show_blocks};
use crate::reply::{Name, REPLY_HEAD, head};
use crate::sectors::Sectors;
use satl_base::{Nexus, NoMemory, Range, Scsi, Tag};
use satl_cdb::Command;
use satl_identify::Identity;

/// Nexus and tag of the next answer in the output. None where there is none.
fn next_name(output: &Cursor<'_>) -> Option<(Nexus, Tag)>
    ensures { NamesNext output.now result }
{
    let rest = output.rest();
    if rest.len() < REPLY_HEAD {
        return None;
    }
    let nexus = Nexus::new(rest[5])?;
    let tag = u32::from_be_bytes([rest[7], rest[8], rest[9], rest[10]]);
    Some((nexus, Tag(tag)))
}

/// The place of the task that the next answer in the output names, where it is eligible.
fn next_task(followed: &Followed<'_>) -> Option<usize>
    ensures within { IfSome result (λ place. place < length followed.now.waiting) }
    ensures eligible { IfSome result (λ place. eligible_at (entries_in followed.now.waiting) place ≡ true) }
    ensures only { OnlyEnds followed.now result }
{
    let (nexus, tag) = next_name(&followed.output)?;
    let place = followed.waiting.find(nexus, tag)?;
    if !followed.waiting.eligible(place) {
        return None;
    }
    Some(place)
}

/// A READ ends: whether its answer comes next in the output, with what each sector may have (SBC-3, READ commands).
fn read_ends(
    output: &mut Cursor<'_>,
    sectors: &mut Sectors,
    input: &[u8],
    name: Name,
    range: Range,
) -> Result<bool, NoMemory>
    requires within { range.lba + range.count ≤ length sectors.old }
    requires small { range.lba + range.count < 2 ^ 64 }
    ensures length { length sectors.new ≡ length sectors.old }
    ensures reads { IfOk result
        (ReadAnswered input.now name range (compared output.old sectors.old) (compared output.new sectors.new)) }
{
    let len = 512 * u64::from(range.count);
    if !output.pass(&head(name, Scsi::Good, 0, len)) {
        return Ok(false);
    }
    let Some(given) = output.take(len as usize) else {
        return Ok(false);
    };
    show_blocks(sectors, range, input, given)
}

/// A WRITE ends: whether GOOD comes next in the output; then its blocks are put (SBC-3, WRITE commands).
fn write_ends(
    output: &mut Cursor<'_>,
    sectors: &mut Sectors,
    name: Name,
    put: &Put,
) -> Result<bool, NoMemory>
    requires within { put.now.range.lba + put.now.range.count ≤ length sectors.old }
    requires small { put.now.range.lba + put.now.range.count < 2 ^ 64 }
    requires room { put.now.at + 512 * put.now.range.count < 2 ^ 64 }
    ensures length { length sectors.new ≡ length sectors.old }
    ensures writes { (input : List ℕ) → IfOk result
        (WriteAnswered input name put.now (compared output.old sectors.old) (compared output.new sectors.new)) }
{
    if !output.pass(&head(name, Scsi::Good, 0, 0)) {
        return Ok(false);
    }
    put_blocks(sectors, put)?;
    Ok(true)
}

/// A SYNCHRONIZE CACHE ends: whether GOOD comes next in the output; then all is written back (SBC-3, SYNCHRONIZE CACHE).
fn flush_ends(output: &mut Cursor<'_>, sectors: &mut Sectors, name: Name) -> Result<bool, NoMemory>
    ensures length { OnOk result (length sectors.new ≡ length sectors.old) }
    ensures flushes { IfOk result
        (Flushes name (compared output.old sectors.old) (compared output.new sectors.new)) }
{
    if !output.pass(&head(name, Scsi::Good, 0, 0)) {
        return Ok(false);
    }
    sectors.settle()?;
    Ok(true)
}

/// Whether a WRITE goes through the cache: where there is one, unless FUA is 1 (SBC-3, FUA).
fn is_cached(identity: &Identity, fua: bool) -> bool
    ensures { result ≡ (identity.now.cache && not fua) }
{
    identity.cache && !fua
}

/// A task ends: whether there is one whose answer comes next in the output, with which each sector goes along. In a run that
/// can be audited READs, WRITEs and SYNCHRONIZE CACHEs end (SAM-5 8).
pub fn end_task(
    followed: &mut Followed<'_>,
    sectors: &mut Sectors,
    identity: &Identity,
    input: &[u8],
) -> Result<bool, NoMemory>
    requires tasks { AreTasks identity.now input.now followed.old.waiting }
    requires sectors { length sectors.old ≡ identity.now.capacity }
    requires small { length input.now < 2 ^ 63 }
    requires capacity { identity.now.capacity < 2 ^ 64 }
    ensures tasks { AreTasks identity.now input.now followed.new.waiting }
    ensures length { OnOk result (length sectors.new ≡ length sectors.old) }
    ensures ends { IfOk result (EndsOrCannot (recorded identity.now input.now)
        (progress followed.old sectors.old) (progress followed.new sectors.new)) }
{
    let Some(place) = next_task(followed) else {
        return Ok(false);
    };
    let entry = followed.waiting.entry(place);
    let name = Name {
        nexus: entry.nexus,
        tag: entry.tag,
    };
    let command = entry.command;
    let at = followed.waiting.data_at(place);
    followed.waiting.remove(place);
    let output = &mut followed.output;
    match command {
        Command::Read { lba, count, .. } => {
            read_ends(output, sectors, input, name, Range { lba, count })
        }
        Command::Write {
            lba,
            count,
            fua,
            ..
        } => {
            let put = Put {
                range: Range { lba, count },
                at,
                cached: is_cached(identity, fua),
            };
            write_ends(output, sectors, name, &put)
        }
        Command::Flush { .. } => flush_ends(output, sectors, name),
        _ => Ok(false),
    }
}

/// So many turns, each of which ends a task where there is one: whether they can be done with the answers that come next in the
/// output, and with which each sector goes along (SAM-5 8; profile).
pub fn turn(
    followed: &mut Followed<'_>,
    sectors: &mut Sectors,
    identity: &Identity,
    input: &[u8],
    count: u16,
) -> Result<bool, NoMemory>
    requires tasks { AreTasks identity.now input.now followed.old.waiting }
    requires sectors { length sectors.old ≡ identity.now.capacity }
    requires small { length input.now < 2 ^ 63 }
    requires capacity { identity.now.capacity < 2 ^ 64 }
    ensures tasks { AreTasks identity.now input.now followed.new.waiting }
    ensures length { OnOk result (length sectors.new ≡ length sectors.old) }
    ensures turns { IfOk result (Turns (recorded identity.now input.now) count
        (progress followed.old sectors.old) (progress followed.new sectors.new)) }
{
    for _done in 0..count {
        if followed.waiting.is_empty() {
            return Ok(true);
        }
        if !end_task(followed, sectors, identity, input)? {
            return Ok(false);
        }
    }
    Ok(true)
}
