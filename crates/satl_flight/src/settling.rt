// Asking the drive which task has ended.
ghost use Rattle.std.specs.Prelude.{◌≡◌, ◌≢◌, ◌≤◌, ◌+◌, [], length, Some, Ok, IfOk, OnErr};
ghost use Rattle.satl_errlog.specs.declared.entry.NcqError.{NcqError};
ghost use Rattle.satl_errlog.specs.Log.{log_of, log_says};
ghost use Rattle.satl_drive.specs.State.{IsFit};
ghost use Rattle.satl_flight.specs.Flown.{IsInFlight};
ghost use Rattle.satl_flight.specs.Leaving.{AreLeft, settle_calls};
ghost use Rattle.satl_flight.specs.Lending.{AreAlike, IsLending, waiting, whole_tasks};
ghost use Rattle.satl_flight.specs.Settled.{HasReadLog, IsLogCutOff, IsLostInFlight, Settles, on_drive};

use crate::flight::Flight;
use satl_base::{Pages, Steps};
use satl_drive::{Drive, LinkDown, Report};
use satl_errlog::{LOG_ADDRESS, NcqError, read_log};
use satl_line::TaskSet;
use satl_pages::Dma;
use satl_regs::{AtaCommand, put_command};
use std::sync::ledger::Ledger;

/// A task that has ended on the drive: where it stands in the set, and why it failed, where it did (ACS-3, native command
/// queuing).
#[derive(Clone, Copy, Debug, PartialEq, Eq)]
pub struct Ended {
    /// The place of the task in the order of arrival.
    pub place: usize,
    /// The entry of the error log, where it failed.
    pub error: Option<NcqError>,
}

impl Flight {
    /// Polls once. The task that has ended has its pages back; after an error, for which the log is read, all tasks have, and
    /// nothing is outstanding (ACS-3, native command queuing).
    pub fn settle_one<D: Drive<L>, L: Ledger>(
        &mut self,
        set: &mut TaskSet,
        dma: &mut Dma,
        drive: &mut D,
        steps: &mut Steps<L>,
    ) -> Result<Ended, LinkDown>
        requires lending { IsLending self.old dma.old set.old }
        requires tie { IsInFlight self.old (whole_tasks self.old dma.old set.old) (D.state drive.old) }
        requires one { self.old ≢ [] }
        requires fit { IsFit (D.state drive.old) }
        ensures ok { IfOk result (λ ended. Settles ended.place ended.error (on_drive (waiting self.old dma.old set.old)
            (D.state drive.old)) (on_drive (waiting self.new dma.new set.new) (D.state drive.new))) }
        ensures err { OnErr result (IsLostInFlight (whole_tasks self.old dma.old set.old) (D.state drive.old)
            (D.state drive.new)) }
        ensures emptied { OnErr result (self.new ≡ []) }
        ensures alike { OnErr result (AreAlike (whole_tasks self.old dma.old set.old) (whole_tasks self.new dma.new set.new)) }
        ensures lending { IsLending self.new dma.new set.new }
        ensures fit { IsFit (D.state drive.new) }
        ensures left { IfOk result (λ ended. AreLeft ended.error self.old self.new) }
        ensures cost { IfOk result (λ ended. steps.new ≡ steps.old + settle_calls ended.error) }
        ensures steps { steps.new ≤ steps.old + 2 }
    {
        match drive.poll(dma, steps) {
            Ok(Report::Idle) => unreachable!(),
            Ok(Report::Done(tag)) => {
                let place = self.land(tag, set, dma);
                Ok(Ended { place, error: None })
            }
            Ok(Report::Error) => match read_error(drive, &mut self.log, steps) {
                Ok(error) => {
                    let place = self.land(error.tag, set, dma);
                    self.land_all(set, dma);
                    Ok(Ended {
                        place,
                        error: Some(error),
                    })
                }
                Err(LinkDown) => {
                    self.land_all(set, dma);
                    Err(LinkDown)
                }
            },
            Err(LinkDown) => {
                self.land_all(set, dma);
                Err(LinkDown)
            }
        }
    }
}

/// Reads the error log, which tells the command that failed and ends the error state (ACS-3 annex A, log 10h).
fn read_error<D: Drive<L>, L: Ledger>(
    drive: &mut D,
    log: &mut Pages,
    steps: &mut Steps<L>,
) -> Result<NcqError, LinkDown>
    requires idle { (D.state drive.old).outstanding ≡ [] }
    requires error { (e : NcqError) × (((D.state drive.old).error ≡ Some e) × (log_says (log_of e) ≡ Ok e)) }
    requires page { length log.old ≡ 1 }
    ensures ok { IfOk result (λ error. HasReadLog error (D.state drive.old) (D.state drive.new)) }
    ensures same { IfOk result (λ error. (D.state drive.old).error ≡ Some error) }
    ensures err { OnErr result (IsLogCutOff (D.state drive.old) (D.state drive.new)) }
    ensures page { length log.new ≡ 1 }
    ensures fit { IsFit (D.state drive.old) → IsFit (D.state drive.new) }
    ensures step { steps.new ≡ steps.old + 1 }
{
    let regs = put_command(&AtaCommand::ReadLog {
        log: LOG_ADDRESS,
        page: 0,
        blocks: 1,
    });
    match drive.run(&regs, log, steps) {
        Ok(_) => {}
        Err(LinkDown) => return Err(LinkDown),
    }
    match read_log(log.block(0)) {
        Ok(error) => Ok(error),
        Err(_) => unreachable!(),
    }
}
