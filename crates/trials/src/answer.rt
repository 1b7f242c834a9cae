// What a call answers, and how it is printed.
use std::fmt;

// No entry, or no bit place: BOC_NOWHERE.
pub(crate) const NOWHERE: usize = usize::MAX;

// A refusal: its number, as the C interface gives it, and the entry and the bit place at which it stopped, if it stopped at one.
#[derive(Clone, Copy, PartialEq)]
pub struct Refusal {
    pub number: u32,
    pub entry: Option<usize>,
    pub place: Option<usize>,
}

// What a call answers that gave this refusal number, 0 for none, and this entry and bit place.
pub(crate) fn told(number: u32, entry: usize, place: usize) -> Result<(), Refusal> {
    if number == 0 {
        return Ok(());
    }
    Err(Refusal {
        number,
        entry: somewhere(entry),
        place: somewhere(place),
    })
}

fn somewhere(at: usize) -> Option<usize> {
    if at == NOWHERE { None } else { Some(at) }
}

impl fmt::Display for Refusal {
    fn fmt<W: fmt::Write>(&self, f: &mut fmt::Formatter<W>) -> fmt::Result {
        write!(f, "refused {}", self.number)?;
        if let Some(entry) = self.entry {
            write!(f, " entry {entry}")?;
        }
        if let Some(place) = self.place {
            write!(f, " bit {place}")?;
        }
        Ok(())
    }
}

// A decision; what bars has a number as its cause.
#[derive(Clone, Copy, PartialEq)]
pub enum Decision {
    Barred(u32),
    Allowed,
    NotHeld,
}

// The C interface gives a decision as a number.
impl From<u32> for Decision {
    fn from(number: u32) -> Decision {
        match number {
            3 => Decision::Allowed,
            4 => Decision::NotHeld,
            cause => Decision::Barred(cause),
        }
    }
}

impl fmt::Display for Decision {
    fn fmt<W: fmt::Write>(&self, f: &mut fmt::Formatter<W>) -> fmt::Result {
        match self {
            Decision::Barred(cause) => write!(f, "barred {cause}"),
            Decision::Allowed => write!(f, "allowed"),
            Decision::NotHeld => write!(f, "not held"),
        }
    }
}
