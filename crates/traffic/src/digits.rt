//! Bytes in hexadecimal.

use std::alloc::AllocError;

const DIGITS: &[u8; 16] = b"0123456789abcdef";

/// The digit of a number below 16.
fn digit(number: u8) -> u8 {
    DIGITS[(number & 15) as usize]
}

/// Puts bytes in hexadecimal; a dash where there are none.
pub fn put_bytes(out: &mut Vec<u8>, bytes: &[u8]) -> Result<(), AllocError> {
    if bytes.is_empty() {
        out.push(b'-')?;
    }
    for byte in bytes {
        out.push(digit(*byte >> 4))?;
        out.push(digit(*byte))?;
    }
    Ok(())
}
