// The pieces of a page.

use itoa::Buffer;
use rx_heap::{Heap, Memory};

/// Puts some bytes.
pub(crate) fn put(page: &mut Vec<u8, Heap>, bytes: &[u8]) -> Result<(), Memory> {
    page.extend_from_slice(bytes)?;
    Ok(())
}

/// Puts a number behind some bytes.
pub(crate) fn put_number(
    page: &mut Vec<u8, Heap>,
    before: &[u8],
    number: u64,
) -> Result<(), Memory> {
    let mut digits = Buffer::new();
    put(page, before)?;
    put(page, digits.format(number).as_bytes())
}
