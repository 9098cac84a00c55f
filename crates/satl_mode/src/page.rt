// The mode pages.

ghost use Rattle.std.specs.Prelude.{◌≡◌, ◌≤◌, ◌+◌};
ghost use Rattle.satl_mode.specs.ModePages.{changeable, defaults, page_byte, page_coded, row_of, shown_by, size_of};

use crate::bits::{AWRE, AWRE_BYTE, D_SENSE, D_SENSE_BYTE, DRA, DRA_BYTE, WCE, WCE_BYTE};
use satl_base::Modes;
use satl_cdb::mode_page;
use satl_identify::Identity;

/// A mode page of the profile (SPC-4 7.5, SBC-3).
#[derive(Clone, Copy, Debug, PartialEq, Eq)]
pub enum ModePage {
    /// Read-Write Error Recovery (SBC-3): AWRE.
    ErrorRecovery,
    /// Caching (SBC-3): WCE and DRA.
    Caching,
    /// Control (SPC-4): D_SENSE.
    Control,
    /// Informational Exceptions Control (SPC-4).
    InformationalExceptions,
}

/// What mode pages show.
#[derive(Clone, Copy, Debug, PartialEq, Eq)]
pub struct Shown {
    /// The bits that no host can change are shown.
    pub fixed: bool,
    /// The bits that a host can change.
    pub settings: Modes,
}

fn changeable(identity: &Identity) -> Modes
    ensures { result ≡ changeable identity.now }
{
    Modes {
        wce: identity.cache,
        dra: identity.look,
        d_sense: true,
    }
}

/// The mode values at power on: WCE 1 where there is a cache, DRA 0 where there is look-ahead, D_SENSE 0 (profile).
pub fn defaults(identity: &Identity) -> Modes
    ensures { result ≡ defaults identity.now }
{
    Modes {
        wce: identity.cache,
        dra: !identity.look,
        d_sense: false,
    }
}

/// PC: the current values (SPC-4, MODE SENSE commands).
pub const CURRENT_VALUES: u8 = 0;

/// PC: the bits that can change.
pub const CHANGEABLE_VALUES: u8 = 1;

/// What pages show by PC: 0 current values, 1 the bits that can change, else the default values.
pub fn shown_by(control: u8, identity: &Identity, modes: &Modes) -> Shown
    ensures { result ≡ shown_by control identity.now modes.now }
{
    match control {
        CURRENT_VALUES => Shown {
            fixed: true,
            settings: *modes,
        },
        CHANGEABLE_VALUES => Shown {
            fixed: false,
            settings: changeable(identity),
        },
        _ => Shown {
            fixed: true,
            settings: defaults(identity),
        },
    }
}

/// The page of a code.
pub fn page_coded(code: u8) -> Option<ModePage>
    ensures { result ≡ page_coded code }
{
    match code {
        mode_page::ERROR_RECOVERY => Some(ModePage::ErrorRecovery),
        mode_page::CACHING => Some(ModePage::Caching),
        mode_page::CONTROL => Some(ModePage::Control),
        mode_page::EXCEPTIONS => Some(ModePage::InformationalExceptions),
        _ => None,
    }
}

impl ModePage {
    /// PAGE CODE.
    fn code(self) -> u8
        ensures { result ≡ (row_of self).code }
    {
        match self {
            ModePage::ErrorRecovery => mode_page::ERROR_RECOVERY,
            ModePage::Caching => mode_page::CACHING,
            ModePage::Control => mode_page::CONTROL,
            ModePage::InformationalExceptions => mode_page::EXCEPTIONS,
        }
    }

    /// PAGE LENGTH: the bytes from byte 2 on.
    pub fn length(self) -> u8
        ensures value { result ≡ (row_of self).length }
        ensures most { result ≤ 18 }
    {
        match self {
            ModePage::ErrorRecovery | ModePage::Control | ModePage::InformationalExceptions => 0x0A,
            ModePage::Caching => 0x12,
        }
    }

    /// The size in bytes.
    pub fn size(self) -> usize
        ensures value { result ≡ size_of self }
        ensures least { 12 ≤ result }
        ensures most { result ≤ 20 }
    {
        2 + usize::from(self.length())
    }

    /// The byte at a place.
    pub fn byte(self, shown: &Shown, place: usize) -> u8
        ensures { result ≡ page_byte self shown.now place }
    {
        match (self, place) {
            (_, 0) => self.code(),
            (_, 1) => self.length(),
            (ModePage::ErrorRecovery, AWRE_BYTE) => if shown.fixed { AWRE } else { 0 },
            (ModePage::Caching, WCE_BYTE) => if shown.settings.wce { WCE } else { 0 },
            (ModePage::Caching, DRA_BYTE) => if shown.settings.dra { DRA } else { 0 },
            (ModePage::Control, D_SENSE_BYTE) => if shown.settings.d_sense { D_SENSE } else { 0 },
            _ => 0,
        }
    }
}
