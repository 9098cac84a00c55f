// The settings of a drive: its write cache, and read look-ahead.
ghost use Rattle.std.specs.Prelude.{◌≡◌, ◌+◌, [], true, OnOk, OnErr, ◌≤◌, not, false};
ghost use Rattle.satl_regs.specs.Effects.{has_setting};
ghost use Rattle.satl_base.specs.Cells.{AreSound};
ghost use Rattle.satl_base.specs.Identify.{has_cache, has_look};
ghost use Rattle.satl_barrier.specs.Commands.{IsCutShort};
ghost use Rattle.satl_barrier.specs.Leaving.{IsFree, IsLostIn, Stays};
ghost use Rattle.satl_barrier.specs.Settings.{CanSet, IsSetBy, IsSetOn, IsTuned};

use crate::commands::run_bare;
use satl_base::{Modes, Steps};
use satl_drive::{Drive, LinkDown};
use satl_regs::{AtaCommand, Setting};
use std::sync::ledger::Ledger;

/// Makes a setting of a feature that the drive has. `LinkDown`: the link was lost (ACS-3, SET FEATURES).
pub fn make_setting<D: Drive<L>, L: Ledger>(
    drive: &mut D,
    setting: Setting,
    steps: &mut Steps<L>,
) -> Result<(), LinkDown>
    requires free { IsFree (D.state drive.old) }
    requires has { has_setting (D.state drive.old).identify setting ≡ true }
    ensures set { OnOk result (IsSetOn setting (D.state drive.old) (D.state drive.new)) }
    ensures lost { OnErr result (IsCutShort [] (D.state drive.old) (D.state drive.new)) }
    ensures stays { Stays (D.state drive.old) (D.state drive.new) }
    ensures step { steps.new ≡ steps.old + 1 }
{
    let what = setting.subcommand();
    run_bare(drive, &AtaCommand::SetFeatures { what }, steps)
}

/// Turns the write cache on or off, unless it is so.
fn set_cache<D: Drive<L>, L: Ledger>(
    is_on: bool,
    on: bool,
    drive: &mut D,
    steps: &mut Steps<L>,
) -> Result<(), LinkDown>
    requires free { IsFree (D.state drive.old) }
    requires sound { AreSound (D.state drive.old).cells }
    requires up { (D.state drive.old).down ≡ false }
    requires is { (D.state drive.old).cache ≡ is_on }
    requires may { has_cache (D.state drive.old).identify ≡ false → on ≡ is_on }
    ensures tuned { OnOk result (IsTuned on (D.state drive.old).look (D.state drive.old) (D.state drive.new)) }
    ensures lost { OnErr result (IsCutShort [] (D.state drive.old) (D.state drive.new)) }
    ensures stays { Stays (D.state drive.old) (D.state drive.new) }
    ensures step { steps.new ≤ steps.old + 1 }
{
    if is_on == on {
        return Ok(());
    }
    make_setting(drive, Setting::WriteCache { on }, steps)
}

/// Turns read look-ahead on or off, unless it is so.
fn set_look<D: Drive<L>, L: Ledger>(
    is_on: bool,
    on: bool,
    drive: &mut D,
    steps: &mut Steps<L>,
) -> Result<(), LinkDown>
    requires free { IsFree (D.state drive.old) }
    requires sound { AreSound (D.state drive.old).cells }
    requires up { (D.state drive.old).down ≡ false }
    requires is { (D.state drive.old).look ≡ is_on }
    requires may { has_look (D.state drive.old).identify ≡ false → on ≡ is_on }
    ensures tuned { OnOk result (IsTuned (D.state drive.old).cache on (D.state drive.old) (D.state drive.new)) }
    ensures lost { OnErr result (IsCutShort [] (D.state drive.old) (D.state drive.new)) }
    ensures stays { Stays (D.state drive.old) (D.state drive.new) }
    ensures step { steps.new ≤ steps.old + 1 }
{
    if is_on == on {
        return Ok(());
    }
    make_setting(drive, Setting::LookAhead { on }, steps)
}

/// Sets the drive as the mode values are to be: its write cache by WCE, and read look-ahead by DRA. `LinkDown`: the link was
/// lost (SAT-3 10, MODE SELECT commands).
pub fn tune<D: Drive<L>, L: Ledger>(
    modes: &Modes,
    wanted: &Modes,
    drive: &mut D,
    steps: &mut Steps<L>,
) -> Result<(), LinkDown>
    requires free { IsFree (D.state drive.old) }
    requires sound { AreSound (D.state drive.old).cells }
    requires set { IsSetBy modes.now (D.state drive.old) }
    requires may { CanSet modes.now wanted.now (D.state drive.old) }
    ensures tuned { OnOk result (IsTuned wanted.now.wce (not wanted.now.dra) (D.state drive.old) (D.state drive.new)) }
    ensures lost { OnErr result (IsLostIn [] (D.state drive.old) (D.state drive.new)) }
    ensures stays { Stays (D.state drive.old) (D.state drive.new) }
    ensures step { steps.new ≤ steps.old + 2 }
{
    set_cache(modes.wce, wanted.wce, drive, steps)?;
    set_look(!modes.dra, !wanted.dra, drive, steps)?;
    Ok(())
}
