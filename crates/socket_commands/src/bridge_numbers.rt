//! The words of the command.

ghost use Rattle.std.specs.Prelude.{◌≡◌, ◌∷◌, [], ℕ, MatchOption, map, string_bytes, true};
ghost use Rattle.socket_commands.specs.Bridge.Numbers.{IsBridge, IsCount, NamesBridge};

use text_lines::number_from;

/// The most digits of the number of slaves.
const DIGITS: usize = 2;

/// The most slaves that can live on UDP.
const MOST: u64 = 15;

/// A number of one or two decimal digits, 0 to 15; none for any other word.
fn count_of(word: &str) -> Option<u8>
    ensures { MatchOption result ((n : ℕ) → IsCount word.now n → ⊥) (IsCount word.now) }
{
    let digits = word.as_bytes();
    if digits.len() > DIGITS {
        return None;
    }
    match number_from(0, MOST, digits) {
        Ok(number) => Some(number as u8),
        Err(_) => None,
    }
}

/// How many slaves live on UDP, where these two words are `bridge` and such a number.
fn count_behind(word: &str, number: &str) -> Option<u8>
    ensures { MatchOption result (IsBridge (word.now ∷ number.now ∷ []) → ⊥) (NamesBridge (word.now ∷ number.now ∷ [])) }
{
    if word != "bridge" {
        return None;
    }
    count_of(number)
}

/// How many slaves live on UDP, where the words name the command.
pub(crate) fn named_count(words: &[String]) -> Option<u8>
    ensures { MatchOption result (IsBridge (map string_bytes words.now) → ⊥) (NamesBridge (map string_bytes words.now)) }
{
    match words {
        [word, number] => count_behind(word.as_str(), number.as_str()),
        _ => None,
    }
}

/// Whether the words name the command.
pub fn is_bridge(words: &[String]) -> bool
    ensures yes { result ≡ true → IsBridge (map string_bytes words.now) }
    ensures no { IsBridge (map string_bytes words.now) → result ≡ true }
{
    named_count(words).is_some()
}
