// Plain words.
ghost use Rattle.std.specs.Prelude.{◌≡◌, ◌↔◌, IfSome, Some, [], ◌∷◌, map, true};
ghost use Rattle.std.specs.Rc.{rc_str_bytes};
ghost use Rattle.satl_words.specs.Plain.{ArePlain, IsInRange, load_words, plain_words};

use crate::modes::{MOST_REQUESTS, Mode};
use crate::numbers::plain_number;
use std::rc::RcStr;

/// What plain words ask for: two words, of which the second is `replay`, `show`, `usb` or `audit`, or six of the form `satl gen
/// --seed N --requests N` with numbers in decimal digits without a sign or a leading zero, of which the second is at most
/// 100,000 (profile). None exactly where the words are not plain. Takes no memory.
pub fn plain_mode(words: &[RcStr]) -> Option<Mode>
    ensures spelled { IfSome result (λ mode. IsInRange mode × ArePlain (map rc_str_bytes words.now) mode) }
    ensures plain { (mode : Mode) → IsInRange mode → ArePlain (map rc_str_bytes words.now) mode → result ≡ Some mode }
{
    match words.len() {
        2 => mode_named(&words[1]),
        6 => load_asked(&words[1], &words[2], &words[3], &words[4], &words[5]),
        _ => None,
    }
}

/// Whether a word is this text.
fn is_word(word: &RcStr, text: &str) -> bool
    ensures { (result ≡ true) ↔ (rc_str_bytes word.now ≡ text.now) }
{
    let word: &str = word;
    word == text
}

/// The mode that one word names.
fn mode_named(word: &RcStr) -> Option<Mode>
    ensures spelled { IfSome result (λ mode. IsInRange mode × (plain_words mode ≡ rc_str_bytes word.now ∷ [])) }
    ensures plain { (mode : Mode) → plain_words mode ≡ rc_str_bytes word.now ∷ [] → result ≡ Some mode }
{
    if is_word(word, "replay") {
        return Some(Mode::Replay);
    }
    if is_word(word, "show") {
        return Some(Mode::Show);
    }
    if is_word(word, "usb") {
        return Some(Mode::Usb);
    }
    if is_word(word, "audit") {
        return Some(Mode::Audit);
    }
    None
}

/// The load that the words behind the program's name ask for.
fn load_asked(
    name: &RcStr,
    first: &RcStr,
    seed: &RcStr,
    second: &RcStr,
    requests: &RcStr,
) -> Option<Mode>
    ensures spelled { IfSome result (λ mode. IsInRange mode
        × (plain_words mode ≡ rc_str_bytes name.now ∷ rc_str_bytes first.now ∷ rc_str_bytes seed.now ∷ rc_str_bytes second.now
        ∷ rc_str_bytes requests.now ∷ [])) }
    ensures plain { (mode : Mode) → IsInRange mode
        → plain_words mode ≡ rc_str_bytes name.now ∷ rc_str_bytes first.now ∷ rc_str_bytes seed.now ∷ rc_str_bytes second.now
        ∷ rc_str_bytes requests.now ∷ [] → result ≡ Some mode }
{
    if !is_word(name, "gen") {
        return None;
    }
    if !is_word(first, "--seed") {
        return None;
    }
    if !is_word(second, "--requests") {
        return None;
    }
    load_of(seed, requests)
}

/// The load with these numbers, where they are plain.
fn load_of(seed: &RcStr, requests: &RcStr) -> Option<Mode>
    ensures spelled { IfSome result (λ mode. IsInRange mode
        × (plain_words mode ≡ load_words (rc_str_bytes seed.now) (rc_str_bytes requests.now))) }
    ensures plain { (mode : Mode) → IsInRange mode
        → plain_words mode ≡ load_words (rc_str_bytes seed.now) (rc_str_bytes requests.now) → result ≡ Some mode }
{
    let seed = plain_number(seed, u64::MAX)?;
    let requests = plain_number(requests, MOST_REQUESTS as u64)?;
    Some(Mode::Generate {
        seed,
        requests: requests as u32,
    })
}
