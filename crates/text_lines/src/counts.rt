//! The words after a key, by their number: `Words` where there are more or fewer.

ghost use Rattle.std.specs.Prelude.{map};
ghost use Rattle.text_lines.specs.Outcomes.{Sees};
ghost use Rattle.text_lines.specs.Counts.{one_word, two_words, three_words, four_words};

use crate::reasons::TextWhy;

/// Just one word.
pub fn one_word<'a>(args: &[&'a [u8]]) -> Result<&'a [u8], TextWhy>
    ensures { Sees (λ w. w.now) result (one_word (map (λ w. w.now) args.now)) }
{
    match args {
        [word] => Ok(word),
        _ => Err(TextWhy::Words),
    }
}

/// Just two words.
pub fn two_words<'a>(args: &[&'a [u8]]) -> Result<(&'a [u8], &'a [u8]), TextWhy>
    ensures { Sees (λ w. (w.0.now, w.1.now)) result (two_words (map (λ w. w.now) args.now)) }
{
    match args {
        [first, second] => Ok((first, second)),
        _ => Err(TextWhy::Words),
    }
}

/// Just three words.
pub fn three_words<'a>(args: &[&'a [u8]]) -> Result<(&'a [u8], &'a [u8], &'a [u8]), TextWhy>
    ensures { Sees (λ w. (w.0.now, w.1.now, w.2.now)) result (three_words (map (λ w. w.now) args.now)) }
{
    match args {
        [first, second, third] => Ok((first, second, third)),
        _ => Err(TextWhy::Words),
    }
}

/// Just four words.
pub fn four_words<'a>(
    args: &[&'a [u8]],
) -> Result<(&'a [u8], &'a [u8], &'a [u8], &'a [u8]), TextWhy>
    ensures { Sees (λ w. (w.0.now, w.1.now, w.2.now, w.3.now)) result (four_words (map (λ w. w.now) args.now)) }
{
    match args {
        [first, second, third, fourth] => Ok((first, second, third, fourth)),
        _ => Err(TextWhy::Words),
    }
}
