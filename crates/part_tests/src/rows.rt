//! The rows of all tables: what is asked, a cell, and the answer.

use crate::models::{self, MODELS};
use crate::tables::unfolded;
use crate::texts::{self, TEXTS};
use crate::words::{self, WORDS};
use std::alloc::Global;
use std::test::Fail;

/// Appends the answer.
fn tell_answer(alloc: Global, told: &mut String, asked: &str, cell: &str) -> Result<(), Fail> {
    if asked.starts_with("model") {
        return models::tell(alloc, told, asked, cell);
    }
    let text = unfolded(alloc, cell)?;
    match asked {
        "description" => texts::tell_description(alloc, told, &text),
        "counts" | "parts" | "rows" => texts::tell_scenario(alloc, told, asked, &text),
        _ => words::tell(alloc, told, asked, &text),
    }
}

/// A row with its answer made again.
fn again(alloc: Global, row: &str) -> Result<String, Fail> {
    let (asked, rest) = row.split_once('|').unwrap_or((row, ""));
    let (cell, _) = rest.split_once('|').unwrap_or((rest, ""));
    let mut told = format!(in alloc; "{asked}|{cell}|")?;
    tell_answer(alloc, &mut told, asked, cell)?;
    Ok(told)
}

#[test]
fn rows_have_their_answers(rt: HostRuntime) -> Result<(), Fail> {
    for table in [WORDS, TEXTS, MODELS] {
        for row in table.lines() {
            assert_eq!(rt; again(rt.alloc(), row)?.as_str(), row);
        }
    }
    Ok(())
}
