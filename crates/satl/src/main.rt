//! `satl replay` and `satl show`: framed commands on standard input, framed answers or lines of text on standard output, over a
//! modelled drive. `satl fleet`: the same over four of them, behind one target. `satl usb`: commands and answers on the wire of
//! USB Bulk-Only Transport. `satl audit`: a record on standard input, and on standard output whether its output is that of a
//! run of the device over its input. `satl gen --seed N --requests N`: a generated input over one drive, and its totals on
//! standard output.
#![tactic(auto)]

ghost use Rattle.std.specs.Prelude.{◌≡◌, ◌<◌, IfOk, map, vec_len};
ghost use Rattle.std.specs.List.{AllByRecursion};
ghost use Rattle.satl_disk.specs.Disk.{state_of};
ghost use Rattle.satl_barrier.specs.Leaving.{IsFree};

use satl_base::{NoMemory, Steps};
use satl_disk::ModelDrive;
use satl_io::{BufferedSource, StdSink};
use satl_top::{Status, program};
use std::alloc::Global;
use std::env;
use std::io::{BufReader, ErrorKind};
use std::marker::Brand;
use std::process::ExitCode;
use std::rc::RcStr;
use std::sync::ledger::{Blank, Ledger};

/// The modelled drives: one for each LUN of `fleet`; the other modes have the first.
const DRIVES: u32 = 4;

/// The sectors of a modelled drive.
const SECTORS: u32 = 8192;

/// How many bytes of standard input are read at once, at most.
const INPUT_BUFFER: usize = 65536;

/// The words of the program. None where one is not UTF-8.
fn words_of(rt: &HostRuntime) -> Result<Option<Vec<RcStr>>, NoMemory> {
    let mut words = Vec::new(rt.alloc());
    let given = match env::args(rt) {
        Ok(given) => given,
        Err(error) if error.kind() == ErrorKind::OutOfMemory => return Err(NoMemory),
        Err(_) => return Ok(None),
    };
    for word in given {
        words.push(RcStr::from_string(word)?)?;
    }
    Ok(Some(words))
}

/// The modelled drives.
fn modelled(alloc: Global) -> Result<Vec<ModelDrive>, NoMemory>
    ensures count { IfOk result (λ drives. vec_len drives ≡ 4) }
    ensures free { IfOk result (λ drives. AllByRecursion IsFree (map state_of drives.items)) }
{
    let mut drives = Vec::new(alloc);
    for _ in 0..DRIVES {
        drives.push(ModelDrive::new(alloc, SECTORS)?)?;
    }
    Ok(drives)
}

/// Does what the words ask for. The drive calls are counted on a blank page of a ledger.
fn run<L: Ledger>(rt: &HostRuntime, blank: Blank) -> Result<Status, NoMemory>
    requires name { blank.name ≡ L.name }
    requires parts { blank.parts ≡ L.parts }
    requires some { 0 < blank.parts }
{
    let alloc = rt.alloc();
    let Some(words) = words_of(rt)? else {
        return Ok(Status::Usage);
    };
    let Ok(input) = BufReader::with_capacity(alloc, INPUT_BUFFER, rt.stdin()) else {
        return Err(NoMemory);
    };
    let mut source = BufferedSource::new(input);
    let mut sink = StdSink::new(rt.stdout());
    let mut drives = modelled(alloc)?;
    let mut steps = Steps::<L>::new(blank);
    Ok(program(
        alloc,
        &words,
        &mut source,
        &mut sink,
        &mut drives,
        &mut steps,
    ))
}

fn main(rt: HostRuntime) -> ExitCode {
    let status = match run::<Brand>(&rt, Blank::new(1)) {
        Ok(status) => status,
        Err(NoMemory) => Status::NoMemory,
    };
    if let Some(line) = told(status) {
        let _ = eprintln!(rt; "{line}");
    }
    ExitCode::from(status.code())
}

/// What a person is told on standard error (profile). None where all was done.
fn told(status: Status) -> Option<&'static str> {
    match status {
        Status::Done | Status::No | Status::NotCovered => None,
        Status::Usage => Some(
            "usage: satl replay | show | usb | fleet | audit | gen --seed N --requests N",
        ),
        Status::BadInput => Some("satl: the input is refused"),
        Status::ReadFault => Some("satl: a read failed"),
        Status::WriteFault => Some("satl: a write failed"),
        Status::NoMemory => Some("satl: there is not the memory"),
        Status::DriveRefused => Some("satl: the drive is not served, or its link was lost"),
    }
}
