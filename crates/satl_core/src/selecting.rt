// Mode values that a task sets.
ghost use Rattle.std.specs.Prelude.{◌≡◌};
ghost use Rattle.satl_direct.specs.Attentions.{are_same_modes};
ghost use Rattle.satl_core.specs.Turning.{change_posting, modes_after, set_by};
ghost use Rattle.satl_mode.specs.Changes.{wanted_by};

use crate::alone::Alone;
use crate::managing::Posting;
use crate::turning::Ending;
use satl_base::{ModeChange, Modes, Nexus};
use satl_cdb::Command;
use satl_mode::apply;
use satl_pass::{pass_of, plan};
use satl_regs::{AtaCommand, Setting};

/// The mode values that a task wants: those that there are, with what it changes.
pub fn wanted_by(modes: &Modes, change: &Option<ModeChange>) -> Modes
    ensures { result ≡ wanted_by modes.now change.now }
{
    match change {
        Some(change) => apply(modes, change),
        None => *modes,
    }
}

/// The mode values once a task has ended: those that a MODE SELECT that is done wants, and those that the command of an ATA
/// PASS-THROUGH that is done sets (SPC-4, MODE SELECT commands; SAT-3 12.2).
pub fn modes_after(command: &Command, ending: &Ending, modes: &Modes, wanted: &Modes) -> Modes
    ensures { result ≡ modes_after command.now ending.now modes.now wanted.now }
{
    match (Alone::of(command), ending) {
        (_, Ending::Check(_)) => *modes,
        (Some(Alone::Select), _) => *wanted,
        (Some(Alone::Through { cdb }), _) => set_by(&plan(&pass_of(&cdb)), modes),
        _ => *modes,
    }
}

/// The mode values that an ATA command of a host sets: SET FEATURES turns the write cache or look-ahead on or off (ACS-3).
fn set_by(command: &AtaCommand, modes: &Modes) -> Modes
    ensures { result ≡ set_by command.now modes.now }
{
    let AtaCommand::SetFeatures { what } = *command else {
        return *modes;
    };
    match Setting::of(what) {
        Some(Setting::WriteCache { on }) => Modes { wce: on, ..*modes },
        Some(Setting::LookAhead { on }) => Modes { dra: !on, ..*modes },
        None => *modes,
    }
}

fn are_same(a: &Modes, b: &Modes) -> bool
    ensures { result ≡ are_same_modes a.now b.now }
{
    a.wce == b.wce && a.dra == b.dra && a.d_sense == b.d_sense
}

/// What is posted where a task of a nexus has ended: after a MODE SELECT the others are told where a value has changed (SPC-4,
/// MODE SELECT commands).
pub fn change_posting(command: &Command, old: &Modes, new: &Modes, nexus: Nexus) -> Option<Posting>
    ensures { result ≡ change_posting command.now old.now new.now nexus }
{
    match command {
        Command::ModeSelect { .. } if !are_same(old, new) => Some(Posting::ModesChanged(nexus)),
        _ => None,
    }
}
