// Prints words and bytes, and looks through a buffer that was lent.
use crate::lent::FULL_BYTE;
use std::io::Write;
use std::{fmt, io};

// Bytes in hexadecimal.
#[derive(Clone, Copy)]
pub struct Hex<'a>(pub &'a [u8]);

impl fmt::Display for Hex<'_> {
    fn fmt<W: fmt::Write>(&self, f: &mut fmt::Formatter<W>) -> fmt::Result {
        for byte in self.0 {
            write!(f, "{byte:02x}")?;
        }
        Ok(())
    }
}

// Prints each word that has another value than `usual`.
pub(crate) fn words<W: Write>(out: &mut W, s: &[u32], usual: u32) -> io::Result<()> {
    for (i, word) in s.iter().enumerate() {
        if *word != usual {
            write!(out, " {i}:{word}")?;
        }
    }
    Ok(())
}

// Says so where a byte of a lent buffer, from a place on, is not as it was lent.
pub(crate) fn rest<W: Write>(out: &mut W, lent: &[u8], from: usize) -> io::Result<()> {
    if lent.iter().skip(from).any(|byte| *byte != FULL_BYTE) {
        out.write_all(b" changed")?;
    }
    Ok(())
}

// A check sum of bytes.
pub(crate) fn sum(s: &[u8]) -> u64 {
    s.iter().fold(
        1,
        |total, byte| (total % 16777213 * 257 + *byte as u64) % 16777213,
    )
}
