// The conditions that one nexus has not been told yet.
ghost use Rattle.std.specs.Prelude.{◌≡◌, ◌≤◌, ◌<◌, ◌++◌, ◌∷◌, [], ◌↔◌, IsSome, length, option_to_list, replicate};
ghost use Rattle.satl_unit.specs.declared.attention.Attention.TheVariants as attentions;
ghost use Rattle.satl_unit.specs.Conditions.{IsInReportOrder, posted};

use crate::attention::Attention;
use satl_base::NEXUSES;
use std::marker::Model;

/// The unit attention conditions that are posted for one nexus (SAM-5 5.14): a set of at most five. Clauses see the list of
/// them in the order of report: power on, reset, nexus loss, tasks cleared, modes changed (profile).
#[derive(Debug, Drop)]
pub struct Attentions {
    power_on: bool,
    unit_reset: bool,
    nexus_loss: bool,
    cleared: bool,
    mode_changed: bool,
}

impl Model for Attentions {
    ghost use Rattle.std.specs.Prelude.{List};
    ghost use Rattle.satl_unit.specs.declared.attention.Attention.{Attention};

    ghost Value = { List Attention };

    ghost use Rattle.satl_unit.specs.Flags.{flagged};

    ghost view = { flagged };
}

impl Attentions {
    /// No condition (SAM-5 5.14).
    pub fn none() -> Attentions
        ensures { result ≡ [] }
    {
        Attentions {
            power_on: false,
            unit_reset: false,
            nexus_loss: false,
            cleared: false,
            mode_changed: false,
        }
    }

    /// Posts a condition. One that is posted already stays, once (SAM-5 5.14).
    #[tactic(auto, unfolding(crate::specs::Conditions::posted))]
    pub fn post(&mut self, what: Attention)
        ensures { self.new ≡ posted what self.old }
    {
        match what {
            Attention::PowerOn => self.power_on = true,
            Attention::UnitReset => self.unit_reset = true,
            Attention::NexusLoss => self.nexus_loss = true,
            Attention::Cleared => self.cleared = true,
            Attention::ModeChanged => self.mode_changed = true,
        }
    }

    /// Takes the condition that is reported first. None exactly where none is posted (the order: profile).
    pub fn next(&mut self) -> Option<Attention>
        ensures items { self.old ≡ option_to_list result ++ self.new }
        ensures variant { IsSome result ↔ (0 < length self.old) }
        ensures order { IsInReportOrder self.old }
        ensures few { length self.old ≤ 5 }
    {
        if self.power_on {
            self.power_on = false;
            return Some(Attention::PowerOn);
        }
        if self.unit_reset {
            self.unit_reset = false;
            return Some(Attention::UnitReset);
        }
        if self.nexus_loss {
            self.nexus_loss = false;
            return Some(Attention::NexusLoss);
        }
        if self.cleared {
            self.cleared = false;
            return Some(Attention::Cleared);
        }
        if self.mode_changed {
            self.mode_changed = false;
            return Some(Attention::ModeChanged);
        }
        None
    }
}

/// The conditions of four nexuses, none of which is to be told anything (profile).
pub fn no_attentions() -> [Attentions; NEXUSES]
    ensures { result ≡ replicate 4 [] }
{
    [
        Attentions::none(),
        Attentions::none(),
        Attentions::none(),
        Attentions::none(),
    ]
}

/// The condition of a nexus that is to be told that the power was on, and nothing else (SAM-5 6.3).
#[tactic(auto, unfolding(crate::specs::Conditions::posted))]
fn power_on() -> Attentions
    ensures { result ≡ attentions.PowerOn ∷ [] }
{
    let mut conditions = Attentions::none();
    conditions.post(Attention::PowerOn);
    conditions
}

/// The conditions of four nexuses, each of which is to be told that the power was on, and nothing else (SAM-5 6.3).
pub fn powered_on() -> [Attentions; NEXUSES]
    ensures { result ≡ replicate 4 (attentions.PowerOn ∷ []) }
{
    [power_on(), power_on(), power_on(), power_on()]
}
