// The capacity of the unit.
ghost use Rattle.std.specs.Prelude.{◌≡◌, ◌≤◌};
ghost use Rattle.satl_vpd.specs.Capacity.{capacity_10, capacity_16, shown_last_lba};

use satl_identify::Identity;

/// LBPME: blocks can be unmapped (SBC-3, READ CAPACITY (16) command).
const LBPME: u8 = 0x80;

/// LBPRZ: a block that was unmapped reads as zeros.
const LBPRZ: u8 = 0x40;

/// The last LBA as 32 bits show it.
fn shown_last_lba(identity: &Identity) -> u32
    requires { 1 ≤ identity.now.capacity }
    ensures { result ≡ shown_last_lba identity.now }
{
    u32::try_from(identity.capacity - 1).unwrap_or(u32::MAX)
}

/// The data of READ CAPACITY (10): the last LBA, FFFFFFFFh where it is larger, and the block length in bytes (SBC-3, READ
/// CAPACITY (10) command). Each identity that `read_identity` gives has sectors.
#[tactic(auto, unfolding(crate::specs::Capacity::capacity_10))]
pub fn capacity10(identity: &Identity) -> [u8; 8]
    requires { 1 ≤ identity.now.capacity }
    ensures { result ≡ capacity_10 identity.now }
{
    let mut data = [0; 8];
    data[..4].copy_from_slice(&shown_last_lba(identity).to_be_bytes()); // RETURNED LOGICAL BLOCK ADDRESS
    data[4..].copy_from_slice(&512u32.to_be_bytes()); // LOGICAL BLOCK LENGTH IN BYTES
    data
}

/// The data of READ CAPACITY (16): the last LBA, the block length in bytes, how many logical blocks a physical one has, and
/// whether blocks can be unmapped (SBC-3, READ CAPACITY (16) command). Each identity that `read_identity` gives has sectors.
#[tactic(auto, unfolding(crate::specs::Capacity::capacity_16))]
pub fn capacity16(identity: &Identity) -> [u8; 32]
    requires { 1 ≤ identity.now.capacity }
    ensures { result ≡ capacity_16 identity.now }
{
    let mut data = [0; 32];
    data[..8].copy_from_slice(&(identity.capacity - 1).to_be_bytes()); // RETURNED LOGICAL BLOCK ADDRESS
    data[8..12].copy_from_slice(&512u32.to_be_bytes()); // LOGICAL BLOCK LENGTH IN BYTES
    data[13] = identity.exponent; // LOGICAL BLOCKS PER PHYSICAL BLOCK EXPONENT
    data[14] = if identity.trim { LBPME | LBPRZ } else { 0x00 };
    data
}
