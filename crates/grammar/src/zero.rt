// The record in which everything is zero, and its parts: what a PDU does not carry.
ghost use Rattle.std.specs.Prelude.{◌≡◌};
ghost use Rattle.grammar.specs.Zero.{zero_identities, zero_numbers, zero_figures, zero_services, zero_lists, zero_record};

use crate::record::{Figures, Identities, Lists, Number, Numbers, Record, Services};
use bits::DigitCount;

pub fn zero_identities() -> Identities
    ensures { result ≡ zero_identities }
{
    Identities::default()
}

// By hand, and so the lists and the record: the length of a number is a DigitCount, which has no default.
pub fn zero_numbers() -> Numbers
    ensures { result ≡ zero_numbers }
{
    let none = Number {
        length: DigitCount(0),
        digits: [0u8; 24],
    };
    Numbers {
        code: 0,
        entries: [none; 8],
    }
}

pub fn zero_figures() -> Figures
    ensures { result ≡ zero_figures }
{
    Figures::default()
}

pub fn zero_services() -> Services
    ensures { result ≡ zero_services }
{
    Services::default()
}

pub fn zero_lists() -> Lists
    ensures { result ≡ zero_lists }
{
    let identities = zero_identities();
    let numbers = zero_numbers();
    Lists {
        groups: identities,
        restricted: identities,
        exceptions: identities,
        numbers,
        excepted: numbers,
    }
}

pub fn zero_record() -> Record
    ensures { result ≡ zero_record }
{
    let affected = zero_identities();
    let figures = zero_figures();
    let services = zero_services();
    let lists = zero_lists();
    Record {
        kind: 0,
        affected,
        figures,
        services,
        lists,
    }
}
