// What is lent to a call: a buffer, and where the call tells lengths and places. All is full of one byte before.
use crate::answer::Refusal;
use crate::{answer, show};
use bits::BitCount;
use std::io;
use std::io::Write;

pub(crate) const FULL_BYTE: u8 = 0xa5;

pub(crate) const FULL_WORD: u32 = 0xa5a5a5a5;

pub(crate) const FULL_PLACE: usize = 0xa5a5a5a5;

// The bytes of a buffer for an archive, more than one may have.
pub(crate) const LONG: usize = 70000;

// A buffer, and how much was written to it, in bytes or in bits; the entry and the bit place of a refusal.
#[derive(Drop)]
pub struct Lent<const N: usize> {
    pub bytes: [u8; N],
    pub size: usize,
    pub entry: usize,
    pub place: usize,
}

impl<const N: usize> Lent<N> {
    pub(crate) fn full() -> Lent<N> {
        Lent {
            bytes: [FULL_BYTE; N],
            size: 0,
            entry: FULL_PLACE,
            place: FULL_PLACE,
        }
    }

    // The answer of the call that gave this number.
    pub(crate) fn told(&self, number: u32) -> Result<(), Refusal> {
        answer::told(number, self.entry, self.place)
    }

    // So many bytes of what was written.
    pub(crate) fn first(&self, count: usize) -> &[u8] {
        &self.bytes[..count.min(N)]
    }

    // The bytes of the PDU that was written.
    pub(crate) fn pdu(&self) -> &[u8] {
        self.first(BitCount(self.size).bytes())
    }

    // Prints the length and the sum of what the call wrote, or its refusal.
    pub(crate) fn print<W: Write>(
        &self,
        out: &mut W,
        answer: Result<(), Refusal>,
    ) -> io::Result<()> {
        let size = self.size;
        match answer {
            Ok(()) => write!(out, "bytes {size} sum {}", show::sum(self.first(size)))?,
            Err(refusal) => write!(out, "{refusal}")?,
        }
        show::rest(out, &self.bytes, size)
    }
}
