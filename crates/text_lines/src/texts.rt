//! The lines and words of a text.

ghost use Rattle.std.specs.Prelude.{◌≡◌, ◌==◌, ◌<◌, [], ◌∷◌, length, map, IfOk, IfSome, IfNone, if◌then◌else◌};
ghost use Rattle.std.specs.List.{slice_split, position};
ghost use Rattle.std.specs.Str.Lines.{lines, strip_carriage_return};
ghost use Rattle.text_lines.specs.Texts.{words, is_blank, is_skipped};
ghost use Rattle.std.specs.Str.{is_utf8};

use dcp_types::OutOfMemory;
use std::alloc::{AllocError, Global};

fn is_blank(byte: u8) -> bool
    ensures { result ≡ is_blank byte }
{
    byte == b' ' || byte == b'\t'
}

/// The pieces between blanks, empty ones too.
fn parts(alloc: Global, line: &[u8]) -> Result<Vec<&[u8]>, AllocError>
    ensures { IfOk result (λ v. map (λ w. w.now) v.items ≡ slice_split is_blank line.now) }
{
    line.split(|b| is_blank(*b)).collect(alloc)
}

/// The words of a line, which spaces and tabs separate.
pub fn words(alloc: Global, line: &[u8]) -> Result<Vec<&[u8]>, OutOfMemory>
    ensures { IfOk result (λ v. map (λ w. w.now) v.items ≡ words line.now) }
{
    let parts = parts(alloc, line)?;
    let mut out = Vec::new(alloc);
    for part in &parts {
        if !part.is_empty() {
            out.push(*part)?;
        }
    }
    Ok(out)
}

/// A line with no carriage return at its end.
fn without_return(line: &[u8]) -> &[u8]
    ensures { result.now ≡ strip_carriage_return line.now }
{
    match line {
        [rest @ .., b'\r'] => rest,
        _ => line,
    }
}

/// The place of the first line feed.
fn line_end(text: &[u8]) -> Option<usize>
    ensures { result ≡ position (λ b. b == 10) text.now }
{
    text.iter().position(|b| *b == b'\n')
}

/// The first line of a text, without its end, and the text after it; none where no line feed is left.
fn cut_line(text: &[u8]) -> Option<(&[u8], &[u8])>
    ensures some { IfSome result (λ r. (length r.1.now < length text.now) × (lines text.now ≡ r.0.now ∷ lines r.1.now)) }
    ensures none { IfNone result (lines text.now ≡ (if length text.now == 0 then [] else text.now ∷ [])) }
{
    match line_end(text) {
        Some(at) => {
            let (line, _) = text.split_at(at);
            let (_, after) = text.split_at(at + 1);
            Some((without_return(line), after))
        }
        None => None,
    }
}

/// The lines of a text. A line feed ends a line, and a carriage return before it is dropped. The last
/// line may lack the line feed; it then keeps a carriage return.
pub fn lines(alloc: Global, text: &[u8]) -> Result<Vec<&[u8]>, OutOfMemory>
    ensures { IfOk result (λ v. map (λ w. w.now) v.items ≡ lines text.now) }
{
    let mut out = Vec::new(alloc);
    let mut rest = text;
    while let Some((line, after)) = cut_line(rest) {
        out.push(line)?;
        rest = after;
    }
    if rest.is_empty() {
        return Ok(out);
    }
    out.push(rest)?;
    Ok(out)
}

/// Whether a line is UTF-8.
pub fn is_utf8(line: &[u8]) -> bool
    ensures { result ≡ is_utf8 line.now }
{
    match str::from_utf8(line) {
        Ok(_) => true,
        Err(_) => false,
    }
}

/// Whether a line of these words is skipped: it has none, or the first begins with `#`.
pub fn is_skipped(words: &[&[u8]]) -> bool
    ensures { result ≡ is_skipped (map (λ w. w.now) words.now) }
{
    match words {
        [first, ..] => match first {
            [byte, ..] => *byte == b'#',
            [] => false,
        },
        [] => true,
    }
}
