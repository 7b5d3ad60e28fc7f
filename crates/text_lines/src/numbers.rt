//! Numbers as words.

ghost use Rattle.std.specs.Prelude.{◌≡◌, ◌<◌, ◌≤◌, ◌^◌, length, IsTrue, IfSome};
ghost use Rattle.std.specs.Char.{is_ascii_digit};
ghost use Rattle.std.specs.List.{list_all};
ghost use Rattle.std.specs.Str.Parse.{digits_value};
ghost use Rattle.text_lines.specs.Numbers.{decimal_number, number_from, signed_number, int64};

use crate::reasons::TextWhy;

/// One to twenty decimal digits, leading zeros counted.
pub fn number(word: &[u8]) -> Option<u128>
    ensures value { result ≡ decimal_number word.now }
    ensures small { IfSome result (λ n. n < 10 ^ 20) }
{
    if word.is_empty() || word.len() > 20 {
        return None;
    }
    if all_digits(word) {
        Some(value(word))
    } else {
        None
    }
}

fn all_digits(word: &[u8]) -> bool
    ensures { result ≡ list_all is_ascii_digit word.now }
{
    word.iter().all(|b| b.is_ascii_digit())
}

fn value(word: &[u8]) -> u128
    requires digits { IsTrue (list_all is_ascii_digit word.now) }
    requires short { length word.now ≤ 20 }
    ensures value { result ≡ digits_value 10 word.now }
    ensures small { result < 10 ^ 20 }
{
    let mut n: u128 = 0;
    for digit in word {
        n = n * 10 + (*digit - b'0') as u128;
    }
    n
}

/// A number from `low` to `high`: `BadNumber` for a word that is no number, else `Limit` for one out of
/// the range.
pub fn number_from(low: u64, high: u64, word: &[u8]) -> Result<u64, TextWhy>
    ensures { result ≡ number_from low high word.now }
{
    let n = number(word).ok_or(TextWhy::BadNumber)?;
    if n < low as u128 || n > high as u128 {
        return Err(TextWhy::Limit);
    }
    Ok(n as u64)
}

/// A number, behind a `-` where `signed` lets it.
pub fn signed_number(signed: bool, word: &[u8]) -> Option<i128>
    ensures { result ≡ signed_number signed word.now }
{
    match word {
        [b'-', digits @ ..] => {
            if !signed {
                return None;
            }
            let n = number(digits)?;
            Some(-(n as i128))
        }
        _ => {
            let n = number(word)?;
            Some(n as i128)
        }
    }
}

/// A number from -2^63 to 2^63 - 1: `BadNumber` for a word that is no number, else `Limit` for one out
/// of the range.
pub fn int64(word: &[u8]) -> Result<i64, TextWhy>
    ensures { result ≡ int64 word.now }
{
    match word {
        [b'-', digits @ ..] => {
            let n = number_from(0, 1 << 63, digits)?;
            Ok((-(n as i128)) as i64)
        }
        _ => {
            let n = number_from(0, (1 << 63) - 1, word)?;
            Ok(n as i64)
        }
    }
}
