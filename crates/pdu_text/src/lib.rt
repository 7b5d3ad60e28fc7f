//! The printed form of a message, one line.
//!
//! What it promises: `print_pdu` writes exactly the line that `specs/Printed.antt` gives, and
//! the line of a message that has a spelling reads back as that message.
//! `put_pdu_text` writes the bytes of the message as which a text reads; `with_pdu_text` hands exactly that message (`specs/Reading.antt`) to its taker,
//! once, and refuses any other text by the first rule that it breaks (`specs/Refusals.antt`), the taker
//! not called. Only want of memory has no cause in a contract.
#![tactic(auto)]

mod contents;
mod handing;
mod laws;
mod line_fields;
mod message_names;
mod print;
mod reasons;
mod takers;
mod texts_read;
mod value_texts;
mod word_values;

pub use contents::{Said, SaidMessage};
pub use handing::{put_pdu_text, with_pdu_text};
pub use laws::{names_are_one_to_one, printed_messages_read_back, texts_are_judged_once};
pub use print::print_pdu;
pub use reasons::{PduTextRefused, PduTextWhy};
pub use takers::PduTaker;
