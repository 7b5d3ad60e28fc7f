//! What follows of reading, refusing and printing for all texts and messages.

ghost use Rattle.pdu_text.specs.Laws.{ReadsOrBreaks, NeverBoth, OneMessage, OneCause, SpelledMessages, PrintedReads, NamesDiffer};

/// Each text reads as one message, which has a spelling, or else breaks one rule first.
pub fn texts_are_judged_once()
    ensures judged { ReadsOrBreaks }
    ensures never_both { NeverBoth }
    ensures one_message { OneMessage }
    ensures one_cause { OneCause }
    ensures spelled { SpelledMessages }
{}

/// The line of each message that has a spelling reads as that message.
pub fn printed_messages_read_back()
    ensures { PrintedReads }
{}

/// The name of a message names its type code, so no two messages have one name.
pub fn names_are_one_to_one()
    ensures { NamesDiffer }
{}
