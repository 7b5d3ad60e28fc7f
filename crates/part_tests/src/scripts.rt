//! The scripts of all tables, played again.

use crate::{conversations, masters};
use std::alloc::Global;
use std::test::Fail;

/// A script played again.
fn again(alloc: Global, script: &str) -> Result<String, Fail> {
    let (head, events) = script.split_once('\n').unwrap_or((script, ""));
    let (kind, _) = head.split_once('|').unwrap_or((head, ""));
    let mut told = String::from_str(alloc, head)?;
    if kind == "small" || kind == "long" {
        conversations::tell_script(alloc, &mut told, kind, events)?;
    } else {
        masters::tell_script(alloc, &mut told, kind, events)?;
    }
    Ok(told)
}

#[test]
fn scripts_play_again(rt: HostRuntime) -> Result<(), Fail> {
    for table in [conversations::SCRIPTS, masters::SCRIPTS] {
        for script in table.split("\n\n") {
            assert_eq!(rt; again(rt.alloc(), script)?.as_str(), script);
        }
    }
    Ok(())
}
