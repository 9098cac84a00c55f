// Texts of IDENTIFY DEVICE data.
ghost use Rattle.std.specs.Prelude.{◌≡◌, ◌≤◌, ◌<◌, ◌+◌, ◌==◌};
ghost use Rattle.satl_vpd.specs.Texts.{characters, is_blank};

use arrayvec::ArrayVec;

/// T10 VENDOR IDENTIFICATION of an ATA device (SAT-3).
pub const ATA_VENDOR: [u8; 8] = *b"ATA     ";

/// A text of at most 20 words.
pub type Text = ArrayVec<u8, 40>;

/// The text in the words first to last, the high byte of each word first.
pub fn characters(bytes: &[u8; 512], first: usize, last: usize) -> Text
    requires order { first ≤ last }
    requires within { last < 256 }
    requires few { last < first + 20 }
    ensures { result.items ≡ characters first last bytes.now }
{
    let mut text = Text::new();
    for word in first..last + 1 {
        text.push(bytes[2 * word + 1]);
        text.push(bytes[2 * word]);
    }
    text
}

/// Whether a text is spaces alone (SAT-3, INQUIRY command).
pub fn is_blank(text: &[u8]) -> bool
    ensures { result ≡ is_blank text.now }
{
    text.iter().all(|c| *c == b' ')
}
