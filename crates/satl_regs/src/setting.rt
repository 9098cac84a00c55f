// What SET FEATURES turns on and off.

ghost use Rattle.std.specs.Prelude.{◌≡◌, Some};
ghost use Rattle.satl_regs.specs.Effects.{setting_of};

/// A setting of the drive, on or off (ACS-3, SET FEATURES).
#[derive(Clone, Copy, Debug, PartialEq, Eq)]
pub enum Setting {
    /// The volatile write cache.
    WriteCache { on: bool },
    /// Read look-ahead.
    LookAhead { on: bool },
}

// Subcommands (ACS-3, SET FEATURES).
const ENABLE_CACHE: u8 = 0x02;

const DISABLE_CACHE: u8 = 0x82;

const ENABLE_LOOK: u8 = 0xAA;

const DISABLE_LOOK: u8 = 0x55;

impl Setting {
    /// What a subcommand sets; `None` of one that the profile does not have (ACS-3, SET FEATURES).
    pub fn of(subcommand: u8) -> Option<Setting>
        ensures { result ≡ setting_of subcommand }
    {
        match subcommand {
            ENABLE_CACHE => Some(Setting::WriteCache { on: true }),
            DISABLE_CACHE => Some(Setting::WriteCache { on: false }),
            ENABLE_LOOK => Some(Setting::LookAhead { on: true }),
            DISABLE_LOOK => Some(Setting::LookAhead { on: false }),
            _ => None,
        }
    }

    /// The subcommand that sets it (ACS-3, SET FEATURES).
    pub fn subcommand(self) -> u8
        ensures { setting_of result ≡ Some self }
    {
        match self {
            Setting::WriteCache { on: true } => ENABLE_CACHE,
            Setting::WriteCache { on: false } => DISABLE_CACHE,
            Setting::LookAhead { on: true } => ENABLE_LOOK,
            Setting::LookAhead { on: false } => DISABLE_LOOK,
        }
    }
}
