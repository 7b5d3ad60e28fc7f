//! Addresses as words.

ghost use Rattle.std.specs.Prelude.{◌≡◌, ◌==◌, map, IfOk};
ghost use Rattle.std.specs.List.{slice_split};
ghost use Rattle.text_lines.specs.Outcomes.{Gives};
ghost use Rattle.text_lines.specs.Addresses.{ip_part, ip_of_parts, ip, address};

use crate::counts::two_words;
use crate::numbers::{number, number_from};
use crate::reasons::{LineRefused, TextWhy};
use dcp_types::Address;
use std::alloc::{AllocError, Global};

/// A number from 0 to 255, leading zeros and all.
fn ip_part(word: &[u8]) -> Option<u8>
    ensures { result ≡ ip_part word.now }
{
    match number(word) {
        Some(n) => { if n <= 255 { Some(n as u8) } else { None } }
        None => None,
    }
}

/// The pieces between dots.
fn dotted(alloc: Global, word: &[u8]) -> Result<Vec<&[u8]>, AllocError>
    ensures { IfOk result (λ v. map (λ w. w.now) v.items ≡ slice_split (λ b. b == 46) word.now) }
{
    word.split(|b| *b == b'.').collect(alloc)
}

fn ip_of_parts(parts: &[&[u8]]) -> Result<u32, TextWhy>
    ensures { result ≡ ip_of_parts (map (λ w. w.now) parts.now) }
{
    match parts {
        [a, b, c, d] => {
            let a = ip_part(a).ok_or(TextWhy::BadNumber)?;
            let b = ip_part(b).ok_or(TextWhy::BadNumber)?;
            let c = ip_part(c).ok_or(TextWhy::BadNumber)?;
            let d = ip_part(d).ok_or(TextWhy::BadNumber)?;
            Ok(((a as u32 * 256 + b as u32) * 256 + c as u32) * 256 + d as u32)
        }
        _ => Err(TextWhy::BadNumber),
    }
}

/// The ip that a word is: four numbers from 0 to 255 with dots, the first the most significant;
/// `BadNumber` where it is none.
pub fn ip(alloc: Global, word: &[u8]) -> Result<u32, LineRefused>
    ensures { Gives (λ n. n) result (ip word.now) }
{
    let parts = dotted(alloc, word)?;
    let ip = ip_of_parts(&parts)?;
    Ok(ip)
}

/// The address that two words are: an ip, and a port from 1 to 65,535.
pub fn address(alloc: Global, args: &[&[u8]]) -> Result<Address, LineRefused>
    ensures { Gives (λ a. a) result (address (map (λ w. w.now) args.now)) }
{
    let (host, port) = two_words(args)?;
    let ip = ip(alloc, host)?;
    let port = number_from(1, 65_535, port)?;
    Ok(Address {
        ip,
        port: port as u16,
    })
}
