// What the auditor knows.
ghost use Rattle.std.specs.Prelude.{◌≡◌};
ghost use Rattle.satl_cover.specs.Known.{is_known, is_known_frame};

use satl_base::{BenchEvent, are_zeros};
use satl_cdb::{Command, Illegal, read_cdb};
use satl_frame::Frame;

/// Whether the auditor knows a command (profile).
fn is_known(command: Result<Command, Illegal>) -> bool
    ensures { result ≡ is_known command }
{
    match command {
        Err(_) => true,
        Ok(command) => matches!(
            command,
            Command::TestUnitReady
                | Command::Read { .. }
                | Command::Write { .. }
                | Command::Flush { .. }
        ),
    }
}

/// Whether the auditor knows a frame, on a drive that trims or not (profile).
pub fn is_known_frame(trim: bool, frame: &Frame<'_>) -> bool
    ensures { result ≡ is_known_frame trim frame.now }
{
    match frame {
        Frame::Request(request) => {
            are_zeros(&request.lun) && is_known(read_cdb(&request.cdb, trim))
        }
        Frame::Manage(_) => false,
        Frame::Bench(event) => matches!(event, BenchEvent::Order { .. } | BenchEvent::Power),
        Frame::Turn(_) | Frame::End => true,
    }
}
