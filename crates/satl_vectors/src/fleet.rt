// Two drives behind one target.
ghost use Rattle.std.specs.Prelude.{◌≡◌, IfOk, map, vec_len};
ghost use Rattle.std.specs.List.{AllByRecursion};
ghost use Rattle.satl_disk.specs.Disk.{state_of};
ghost use Rattle.satl_barrier.specs.Leaving.{IsFree};

use crate::replaying::{fresh_drive, pieces, run_on};
use satl_base::{NoMemory, Which};
use satl_disk::ModelDrive;
use satl_drive::Bench;
use satl_top::Status;
use std::alloc::Global;
use std::marker::Brand;
use std::process::Abort;
use std::test::Fail;

/// REPORT LUNS of nexus 0, tag 1, and END.
const LUNS: &[u8] = b"SATLRPL1\
    \x01\0\0\0\x1e\0\0\0\0\0\0\0\0\0\0\0\0\0\x01\xa0\0\0\0\0\0\0\0\0\xff\0\0\0\0\0\0\
    \x05\0\0\0\0";

/// The LUNs of two units, under unit 0.
const LUNS_TOLD: &[u8] = b"SATLRSP1\x84\0\0\0\x01\0\
    \x81\0\0\0\x1f\0\0\0\0\0\x01\0\
    \0\0\0\x10\0\0\0\0\0\0\0\0\0\0\0\0\0\x01\0\0\0\0\0\0\
    \x85\0\0\0\0";

/// READ(10) of one block at address 0 by nexus 0, tag 1, of LUN 0 and of LUN 1, and END.
const TWO_READS: &[u8] = b"SATLRPL1\
    \x01\0\0\0\x1e\0\0\0\0\0\0\0\0\0\0\0\0\0\x01\x28\0\0\0\0\0\0\0\x01\0\0\0\0\0\0\0\
    \x01\0\0\0\x1e\0\0\0\x01\0\0\0\0\0\0\0\0\0\x01\x28\0\0\0\0\0\0\0\x01\0\0\0\0\0\0\0\
    \x05\0\0\0\0";

/// The block of unit 0, in zeros.
const BLOCK_TOLD: &[u8] = b"SATLRSP1\x84\0\0\0\x01\0\x81\0\0\x02\x07\0\0\0\0\0\x01\0";

/// MEDIUM ERROR 3/11/00 of unit 1 with address 0 as its INFORMATION, and ENDED.
const FLAW_TOLD: &[u8] = b"\x84\0\0\0\x01\x01\
    \x81\0\0\0\x19\0\x02\0\0\0\x01\x12\
    \xf0\0\x03\0\0\0\0\x0a\0\0\0\0\x11\0\0\0\0\0\
    \x85\0\0\0\0";

/// A drive whose block at address 0 cannot be read.
fn flawed(alloc: Global) -> Result<ModelDrive, NoMemory>
    ensures free { IfOk result (λ d. IsFree (state_of d)) }
{
    let mut drive = fresh_drive(alloc, 8192)?;
    Bench::<Brand>::strike(&mut drive, Which::Read, 0);
    Ok(drive)
}

/// A fresh drive and a flawed one.
fn modelled(alloc: Global) -> Result<Vec<ModelDrive>, NoMemory>
    ensures count { IfOk result (λ drives. vec_len drives ≡ 2) }
    ensures free { IfOk result (λ drives. AllByRecursion IsFree (map state_of drives.items)) }
{
    let mut drives = Vec::new(alloc);
    drives.push(fresh_drive(alloc, 8192)?)?;
    drives.push(flawed(alloc)?)?;
    Ok(drives)
}

/// The input ends with 0 and writes this, however its bytes are cut.
fn expect(rt: &impl Abort, alloc: Global, input: &[u8], output: &[u8]) -> Result<(), Fail> {
    for piece in [1, 65536] {
        let mut drives = modelled(alloc)?;
        let (ended, written) = run_on(
            alloc,
            &["fleet"],
            input.to_vec(alloc)?,
            pieces(piece),
            &mut drives,
        )?;
        assert_eq!(rt; ended, Status::Done, "in pieces of {piece}");
        assert_eq!(rt; written.as_slice(), output, "in pieces of {piece}");
    }
    Ok(())
}

/// The target tells its LUNs.
#[test]
fn luns_of_two_drives(rt: HostRuntime) -> Result<(), Fail> {
    expect(&rt, rt.alloc(), LUNS, LUNS_TOLD)
}

/// The same tag at two LUNs: each unit has a task set and a medium of its own, so one read ends with data, and the other at a
/// flaw.
#[test]
fn same_tag_on_two_drives(rt: HostRuntime) -> Result<(), Fail> {
    let alloc = rt.alloc();
    let mut output = BLOCK_TOLD.to_vec(alloc)?;
    output.extend_from_slice(&[0; 512])?;
    output.extend_from_slice(FLAW_TOLD)?;
    expect(&rt, alloc, TWO_READS, &output)
}
