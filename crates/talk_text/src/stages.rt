//! A talk that is read line by line.

ghost use Rattle.std.specs.Prelude.{◌≡◌, map};
ghost use Rattle.text_lines.specs.Texts.{words};
ghost use Rattle.text_lines.specs.Outcomes.{Gives};
ghost use Rattle.talk_text.specs.Judging.{first_is, is_begin, why_more};
ghost use Rattle.talk_text.specs.Machine.{stage_begun, take_talk_block, event_said, take_event, take_talk_line, talk_finished};

use crate::events::{Talk, TalkEvent, TalkEvents};
use crate::message_lines::message_event;
use desc_text::Partial;
use std::alloc::Global;
use text_lines::{LineRefused, TextWhy, is_skipped, is_utf8, words};

/// How far a text is read: within the block of the description, or past it.
#[derive(Drop)]
pub(crate) enum Stage {
    Block(Partial),
    Events(Talk),
}

/// Whether the first word is this one.
fn first_is(word: &[u8], words: &[&[u8]]) -> bool
    ensures { result ≡ first_is word.now (map (λ w. w.now) words.now) }
{
    match words {
        [first, ..] => *first == word,
        [] => false,
    }
}

/// Whether a line closes the block.
///
/// The words are those of the line.
fn is_begin(line: &[u8], given: &[&[u8]]) -> bool
    requires { map (λ w. w.now) given.now ≡ words line.now }
    ensures { result ≡ is_begin line.now }
{
    is_utf8(line) && first_is(b"begin".as_slice(), given)
}

/// What is wrong where a word follows `begin` or `turn`.
fn why_more(words: &[&[u8]]) -> Option<TextWhy>
    ensures { result ≡ why_more (map (λ w. w.now) words.now) }
{
    if words.len() > 1 {
        Some(TextWhy::Words)
    } else {
        None
    }
}

/// Closes the block, by a line of these words.
fn begun(alloc: Global, partial: Partial, words: &[&[u8]]) -> Result<Stage, TextWhy>
    ensures { result ≡ stage_begun partial (map (λ w. w.now) words.now) }
{
    let desc = partial.finish()?;
    match why_more(words) {
        Some(why) => Err(why),
        None => Ok(Stage::Events(Talk {
            desc,
            events: TalkEvents::new(alloc),
        })),
    }
}

/// Takes a line of the block, or the line that closes it.
fn take_block(alloc: Global, partial: Partial, line: &[u8]) -> Result<Stage, LineRefused>
    ensures { Gives (λ s. s) result (take_talk_block partial line.now) }
{
    let words = words(alloc, line)?;
    if is_begin(line, &words) {
        return match begun(alloc, partial, &words) {
            Ok(stage) => Ok(stage),
            Err(why) => Err(LineRefused::Why(why)),
        };
    }
    let mut partial = partial;
    match partial.take_line(alloc, line) {
        Ok(()) => Ok(Stage::Block(partial)),
        Err(refused) => Err(refused),
    }
}

/// The event that a line says.
///
/// The words are those of the line.
fn event_said(alloc: Global, line: &[u8], given: &[&[u8]]) -> Result<TalkEvent, LineRefused>
    requires { map (λ w. w.now) given.now ≡ words line.now }
    ensures { Gives (λ e. e) result (event_said line.now) }
{
    if first_is(b"turn".as_slice(), given) {
        return match why_more(given) {
            Some(why) => Err(LineRefused::Why(why)),
            None => Ok(TalkEvent::Turn),
        };
    }
    message_event(alloc, line)
}

/// Takes the line of an event.
fn take_event(alloc: Global, talk: Talk, line: &[u8]) -> Result<Stage, LineRefused>
    ensures { Gives (λ s. s) result (take_event talk line.now) }
{
    if !is_utf8(line) {
        return Err(LineRefused::Why(TextWhy::NotUtf8));
    }
    let words = words(alloc, line)?;
    if is_skipped(&words) {
        return Ok(Stage::Events(talk));
    }
    let event = event_said(alloc, line, &words)?;
    let mut talk = talk;
    talk.events.push(event)?;
    Ok(Stage::Events(talk))
}

/// Takes a line.
pub(crate) fn take_line(alloc: Global, stage: Stage, line: &[u8]) -> Result<Stage, LineRefused>
    ensures { Gives (λ s. s) result (take_talk_line stage line.now) }
{
    match stage {
        Stage::Block(partial) => take_block(alloc, partial, line),
        Stage::Events(talk) => take_event(alloc, talk, line),
    }
}

/// The talk, at the end of the text: `Missing` where no line closed the block.
pub(crate) fn finished(stage: Stage) -> Result<Talk, TextWhy>
    ensures { result ≡ talk_finished stage }
{
    match stage {
        Stage::Block(_) => Err(TextWhy::Missing),
        Stage::Events(talk) => Ok(talk),
    }
}
