// A command of a host's own, by its registers.
ghost use Rattle.std.specs.Prelude.{◌≡◌, ◌≤◌, ◌+◌, IfOk, OnErr, false, length};
ghost use Rattle.satl_base.specs.Lists.{is_in};
ghost use Rattle.satl_regs.specs.Commands.{command_in};
ghost use Rattle.satl_regs.specs.Effects.{own_blocks, pairs_of};
ghost use Rattle.satl_regs.specs.QueuedCommands.{queued_codes};
ghost use Rattle.satl_drive.specs.Rules.{IsCarriedOut};
ghost use Rattle.satl_drive.specs.State.{medium_of};
ghost use Rattle.satl_base.specs.Blocks.{AreWhole};
ghost use Rattle.satl_barrier.specs.Leaving.{IsFree, IsLostIn, Stays};

use satl_base::{Pages, Steps};
use satl_drive::{Drive, LinkDown};
use satl_regs::{Registers, Taskfile};
use std::sync::ledger::Ledger;

/// Carries out the command in these registers, whichever it is but a queued one, with its data in pages of 512 bytes: at least
/// as many as it moves. `LinkDown`: the link was lost (SAT-3 12.2).
pub fn pass_through<D: Drive<L>, L: Ledger>(
    regs: &Registers,
    pages: &mut Pages,
    drive: &mut D,
    steps: &mut Steps<L>,
) -> Result<Taskfile, LinkDown>
    requires free { IsFree (D.state drive.old) }
    requires alone { is_in regs.now.command queued_codes ≡ false }
    requires room { own_blocks (command_in regs.now) ≤ length pages.old }
    ensures passed { IfOk result (λ ended.
        IsCarriedOut (record { registers = regs.now; given = pages.old; ended = ended; taken = pages.new })
        (D.state drive.old) (D.state drive.new)) }
    ensures lost { OnErr result (IsLostIn (pairs_of (command_in regs.now) (medium_of (D.state drive.old)) pages.old)
        (D.state drive.old) (D.state drive.new)) }
    ensures stays { Stays (D.state drive.old) (D.state drive.new) }
    ensures size { length pages.new ≡ length pages.old }
    ensures given { AreWhole pages.old }
    ensures taken { AreWhole pages.new }
    ensures step { steps.new ≡ steps.old + 1 }
{
    look_at_sizes(pages);
    let ended = drive.run(regs, pages, steps);
    look_at_sizes(pages);
    ended
}

/// Looks at each page, so that its size is known: 512 bytes.
fn look_at_sizes(pages: &Pages)
    ensures { AreWhole pages.now }
{
    for block in pages.iter() {
        let _bytes = block.as_bytes();
    }
}
