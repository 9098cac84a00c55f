// A drive that keeps what it was handed.
ghost use Rattle.std.specs.Prelude.{◌≡◌, ◌<◌};
ghost use Rattle.satl_disk.specs.Disk.{state_of};
ghost use Rattle.satl_barrier.specs.Leaving.{IsFree};

use arrayvec::ArrayVec;
use satl_base::{Pages, Steps, Which};
use satl_disk::ModelDrive;
use satl_drive::{Bench, Drive, LinkDown, Registers, Report, Taskfile};
use satl_io::{MemorySink, MemorySource};
use satl_pages::Dma;
use satl_serve::{Form, ServeFault, serve};
use satl_text::Summary;
use std::alloc::Global;
use std::marker::{Brand, Model};
use std::sync::ledger::{Blank, Ledger};

/// What a drive was handed: a command, queued or not, by its registers, or a soft reset.
#[derive(Clone, Copy, Debug, Default, PartialEq, Eq)]
pub enum Handed {
    Command(Registers),
    #[default]
    Reset,
}

/// The modelled drive, with the first 32 things that it was handed, in order. Clauses see the drive.
#[derive(Drop)]
pub struct WatchedDrive {
    drive: ModelDrive,
    handed: ArrayVec<Handed, 32>,
}

impl Model for WatchedDrive {
    ghost use Rattle.satl_disk.specs.Disk.{Disk};

    ghost Value = { Disk };

    ghost view = { λ watched. watched.drive };
}

impl WatchedDrive {
    pub fn new(drive: ModelDrive) -> WatchedDrive
        ensures { result ≡ drive }
    {
        WatchedDrive {
            drive,
            handed: ArrayVec::new(),
        }
    }

    pub fn handed(&self) -> &[Handed] {
        self.handed.as_slice()
    }
}

fn keep(kept: &mut ArrayVec<Handed, 32>, handed: Handed) {
    if !kept.is_full() {
        kept.push(handed);
    }
}

impl<L: Ledger> Drive<L> for WatchedDrive {
    ghost state = { state_of };

    fn run(
        &mut self,
        regs: &Registers,
        pages: &mut Pages,
        steps: &mut Steps<L>,
    ) -> Result<Taskfile, LinkDown> {
        keep(&mut self.handed, Handed::Command(*regs));
        self.drive.run(regs, pages, steps)
    }

    fn issue(&mut self, regs: &Registers, dma: &Dma, steps: &mut Steps<L>) -> Result<(), LinkDown> {
        keep(&mut self.handed, Handed::Command(*regs));
        self.drive.issue(regs, dma, steps)
    }

    fn poll(&mut self, dma: &mut Dma, steps: &mut Steps<L>) -> Result<Report, LinkDown> {
        self.drive.poll(dma, steps)
    }

    fn soft_reset(&mut self, dma: &Dma, steps: &mut Steps<L>) -> Result<(), LinkDown> {
        keep(&mut self.handed, Handed::Reset);
        self.drive.soft_reset(dma, steps)
    }
}

impl<L: Ledger> Bench<L> for WatchedDrive {
    fn strike(&mut self, which: Which, lba: u64) {
        Bench::<L>::strike(&mut self.drive, which, lba);
    }

    fn mend(&mut self, lba: u64) {
        Bench::<L>::mend(&mut self.drive, lba);
    }

    fn glitch(&mut self, count: u16) {
        Bench::<L>::glitch(&mut self.drive, count);
    }

    fn order(&mut self, bytes: &[u8]) {
        Bench::<L>::order(&mut self.drive, bytes);
    }

    fn power(&mut self) {
        Bench::<L>::power(&mut self.drive);
    }

    fn unplug(&mut self) {
        Bench::<L>::unplug(&mut self.drive);
    }
}

/// How serving an input over the drive ends, answered in this form; its calls are counted on a blank page of a ledger.
fn counted<L: Ledger>(
    alloc: Global,
    form: Form,
    source: &mut MemorySource,
    sink: &mut MemorySink,
    drive: &mut WatchedDrive,
    blank: Blank,
) -> Result<Summary, ServeFault>
    requires free { IsFree (state_of drive.old) }
    requires name { blank.name ≡ L.name }
    requires parts { blank.parts ≡ L.parts }
    requires some { 0 < blank.parts }
{
    let mut steps = Steps::<L>::new(blank);
    serve(alloc, form, source, sink, drive, &mut steps)
}

/// How serving an input over the drive ends, answered in this form.
pub fn served(
    alloc: Global,
    form: Form,
    source: &mut MemorySource,
    sink: &mut MemorySink,
    drive: &mut WatchedDrive,
) -> Result<Summary, ServeFault>
    requires { IsFree (state_of drive.old) }
{
    counted::<Brand>(alloc, form, source, sink, drive, Blank::new(1))
}
