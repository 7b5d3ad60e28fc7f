//! The layout of each message, by its type code.

ghost use Rattle.std.specs.Prelude.{◌≡◌, Some, None, MatchOption};
ghost use Rattle.pdu_layout.specs.Table.{row_of, rows_of};

use crate::answers::answer_row;
use crate::configuration::configuration_row;
use crate::fields::Field;
use crate::notices::notice_row;
use crate::questions::question_row;
use crate::state_requests::state_request_row;

/// A message's name in the printed form, and what follows its type code.
#[derive(Clone, Copy)]
pub struct ListedRow {
    pub name: &'static str,
    pub fields: &'static [Field],
}

/// The layout with this type code; none where no message has it.
pub fn listed_row(code: u8) -> Option<ListedRow>
    ensures { MatchOption result (row_of code ≡ None) (λ row. row_of code ≡ Some (record { code = code; name = row.name.now; fields = rows_of row.fields.now })) }
{
    match code {
        0x01..=0x0a => Some(state_request_row(code)),
        0x20..=0x2b => Some(configuration_row(code)),
        0x80..=0x82 => Some(question_row(code)),
        0xb0..=0xb4 => Some(answer_row(code)),
        0xe0 | 0xe1 | 0xf0 | 0xf1 => Some(notice_row(code)),
        _ => None,
    }
}
