// The wrapper of a status.
ghost use Rattle.std.specs.Prelude.{◌≡◌};
ghost use Rattle.satl_bot.specs.Wrappers.{csw_code, csw_of};

/// How a command ended, bCSWStatus (USB Mass Storage Class, Bulk-Only Transport 1.0, 5.2).
#[derive(Clone, Copy, Debug, PartialEq, Eq)]
pub enum CswStatus {
    /// Command Passed.
    Passed,
    /// Command Failed.
    Failed,
    /// Phase Error: there is more data than the host takes.
    PhaseError,
}

fn code_of(status: CswStatus) -> u8
    ensures { result ≡ csw_code status }
{
    match status {
        CswStatus::Passed => 0,
        CswStatus::Failed => 1,
        CswStatus::PhaseError => 2,
    }
}

/// The wrapper of a status: the command's tag, the bytes that were not moved, and how it ended (USB Mass Storage Class,
/// Bulk-Only Transport 1.0, 5.2).
pub fn csw_bytes(tag: u32, residue: u32, status: CswStatus) -> [u8; 13]
    ensures { result ≡ csw_of tag residue status }
{
    let [tag0, tag1, tag2, tag3] = tag.to_le_bytes();
    let [residue0, residue1, residue2, residue3] = residue.to_le_bytes();
    let code = code_of(status);
    [
        b'U', b'S', b'B', b'S', // dCSWSignature
        tag0, tag1, tag2, tag3, // dCSWTag
        residue0, residue1, residue2, residue3, // dCSWDataResidue
        code, // bCSWStatus
    ]
}
