//! How the tables of rows are read.

use std::alloc::Global;
use std::test::Fail;

/// The bytes that a cell stands for: digits behind `#` are hexadecimal, and in any other text `/`
/// stands for a line feed.
pub fn bytes_of(alloc: Global, cell: &str) -> Result<Vec<u8>, Fail> {
    if let Some(digits) = cell.strip_prefix('#') {
        return Ok(hex::decode(alloc, digits)?);
    }
    let mut bytes = Vec::new(alloc);
    for byte in cell.as_bytes() {
        bytes.push(if *byte == b'/' { b'\n' } else { *byte })?;
    }
    Ok(bytes)
}

/// The numbers that a cell lists, separated by spaces.
pub fn numbers_of(alloc: Global, cell: &str) -> Result<Vec<u64>, Fail> {
    let mut numbers = Vec::new(alloc);
    for word in cell.split_whitespace() {
        numbers.push(word.parse::<u64>().unwrap_or(0))?;
    }
    Ok(numbers)
}
