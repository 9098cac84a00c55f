// One unit attention condition.
ghost use Rattle.std.specs.Prelude.{◌≡◌};
ghost use Rattle.satl_unit.specs.Conditions.{additional_sense_of};

/// An additional sense code and its qualifier (SPC-4 4.5.6).
#[derive(Clone, Copy, Debug, PartialEq, Eq)]
pub struct AdditionalSense {
    /// The additional sense code.
    pub asc: u8,
    /// Its qualifier.
    pub ascq: u8,
}

/// A unit attention condition (SAM-5 5.14): what has happened to the unit that a nexus has not been told yet.
#[derive(Clone, Copy, Debug, PartialEq, Eq)]
pub enum Attention {
    /// The power was switched on.
    PowerOn,
    /// The logical unit was reset.
    UnitReset,
    /// The nexus was lost.
    NexusLoss,
    /// Another nexus cleared this one's tasks.
    Cleared,
    /// Another nexus changed mode values.
    ModeChanged,
}

impl Attention {
    /// The codes that report the condition, with the sense key UNIT ATTENTION (SPC-4 4.5.6).
    pub fn additional_sense(&self) -> AdditionalSense
        ensures { result ≡ additional_sense_of self.now }
    {
        let (asc, ascq) = match self {
            Attention::PowerOn => (0x29, 0x01),
            Attention::UnitReset => (0x29, 0x03),
            Attention::NexusLoss => (0x29, 0x07),
            Attention::Cleared => (0x2F, 0x00),
            Attention::ModeChanged => (0x2A, 0x01),
        };
        AdditionalSense { asc, ascq }
    }
}
