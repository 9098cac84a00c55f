// Words of a line.
ghost use Rattle.std.specs.Prelude.{◌≡◌, ◌<◌, ◌≤◌, ◌+◌, ◌++◌, ◌∷◌, length};
ghost use Rattle.arrayvec.specs.ArrayVec.{array_vec_len};
ghost use Rattle.hex.specs.Hex.{encode_lower};
ghost use Rattle.satl_text.specs.Lines.{hex_bytes};

use arrayvec::ArrayVec;
use itoa::{Buffer, Integer};
use satl_base::append;

/// The text of a line, at most 8,192 bytes (profile).
pub type Text = ArrayVec<u8, 8192>;

/// A space and a word.
pub fn add_word(text: &mut Text, word: &[u8])
    requires { array_vec_len text.old + 1 + length word.now ≤ 8192 }
    ensures added { text.new.items ≡ text.old.items ++ 0x20 ∷ word.now }
    ensures size { array_vec_len text.new ≡ array_vec_len text.old + 1 + length word.now }
{
    text.push(b' ');
    append(text, word);
}

/// A space and a number in decimal.
pub fn add_decimal<I: Integer>(text: &mut Text, n: I)
    requires { array_vec_len text.old ≤ 8000 }
    ensures added { text.new.items ≡ text.old.items ++ 0x20 ∷ I.text n }
    ensures few { array_vec_len text.new ≤ array_vec_len text.old + 41 }
{
    let mut buffer = Buffer::new();
    add_word(text, buffer.format(n).as_bytes());
}

/// A space and at most 32 bytes in hexadecimal digits.
pub fn add_digits(text: &mut Text, bytes: &[u8])
    requires short { length bytes.now ≤ 32 }
    requires room { array_vec_len text.old ≤ 8000 }
    ensures added { text.new.items ≡ text.old.items ++ 0x20 ∷ encode_lower bytes.now }
    ensures few { array_vec_len text.new ≤ array_vec_len text.old + 65 }
{
    let mut digits = [0; 64];
    let digits = &mut digits[..2 * bytes.len()];
    match hex::encode_to_slice(bytes, digits) {
        Ok(()) => add_word(text, digits),
        Err(_) => unreachable!(),
    }
}

/// A space and at most 32 bytes in hexadecimal digits, or `-` where there is none.
pub fn add_bytes(text: &mut Text, bytes: &[u8])
    requires short { length bytes.now ≤ 32 }
    requires room { array_vec_len text.old ≤ 8000 }
    ensures added { text.new.items ≡ text.old.items ++ 0x20 ∷ hex_bytes bytes.now }
    ensures few { array_vec_len text.new ≤ array_vec_len text.old + 65 }
{
    if bytes.is_empty() {
        add_word(text, b"-");
    } else {
        add_digits(text, bytes);
    }
}
