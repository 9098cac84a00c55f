// Numbers among the words.
ghost use Rattle.std.specs.Prelude.{◌≡◌, ◌≤◌, ℕ, IfSome, Some};
ghost use Rattle.std.specs.Fmt.{decimal};
ghost use Rattle.clap.specs.Words.{found_of, rows_of};
ghost use Rattle.satl_words.specs.CommandLine.{GivesNumber};

use clap::ArgMatches;
use itoa::Buffer;

/// The number that a text spells in decimal digits without a sign or a leading zero, up to a greatest one.
pub fn plain_number(text: &str, most: u64) -> Option<u64>
    ensures some { IfSome result (λ n. (n ≤ most) × (text.now ≡ decimal n)) }
    ensures plain { (n : ℕ) → n ≤ most → text.now ≡ decimal n → result ≡ Some n }
{
    let Ok(number) = text.parse::<u64>() else {
        return None;
    };
    let mut buffer = Buffer::new();
    if number > most {
        return None;
    }
    if buffer.format(number) != text {
        return None;
    }
    Some(number)
}

/// The number that clap took for an option, up to a greatest one. Clap has tested that there is one and that it is no greater.
pub fn number_given(found: &ArgMatches<'_>, id: &str, most: u64) -> u64
    ensures given { GivesNumber id.now most (rows_of (found_of found.now)) result }
    ensures few { result ≤ most }
{
    found.get_one::<u64>(id).unwrap_or(0).min(most)
}
