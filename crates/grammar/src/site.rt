// The codes of a PDU's elements, by the site sheet and the standard's tables: each has its meaning or is refused.
ghost use Rattle.std.specs.Prelude.{◌≡◌};
ghost use Rattle.codec.specs.Parts.{only};
ghost use Rattle.grammar.specs.SiteSheet.{range_type, row_of, entries_of, range_refusal, ss_type, digit_of, digit_refusal, all_digits, service_of};
ghost use Rattle.grammar.specs.SiteSheet.{service_refusal, pdu_type, kind_refusal, reserved, defined_part, between};
ghost use Rattle.grammar.specs.Grammar.{ends_refusal, network_of};

use crate::record::Identity;

// The SS type of BOC: a stand-in until EN 300 392-9 is supplied.
pub const SS_TYPE: u32 = 18;

pub fn ss_refusal(code: u32) -> u32
    ensures { result ≡ only ss_type code }
{
    if code == SS_TYPE { 0 } else { 3 }
}

// What a range type says of the entries that follow it.
#[derive(Clone, Copy)]
pub enum RangeType {
    Empty,
    Single(u32),
    FirstAndLast,
}

// The three kinds of list, by which a range type may be refused.
#[derive(Clone, Copy)]
pub enum ListKind {
    Users,
    Identities,
    Numbers,
}

// A row of the site sheet: how many entries follow, and whether the code is refused.
#[derive(Clone, Copy)]
pub struct Row {
    pub entries: u32,
    pub refused: bool,
}

const RANGE_TYPES: [Row; 16] = [
    Row {
        entries: 0,
        refused: false,
    },
    Row {
        entries: 1,
        refused: false,
    },
    Row {
        entries: 2,
        refused: false,
    },
    Row {
        entries: 3,
        refused: false,
    },
    Row {
        entries: 4,
        refused: false,
    },
    Row {
        entries: 5,
        refused: false,
    },
    Row {
        entries: 6,
        refused: false,
    },
    Row {
        entries: 7,
        refused: false,
    },
    Row {
        entries: 8,
        refused: false,
    },
    Row {
        entries: 2,
        refused: false,
    },
    Row {
        entries: 0,
        refused: true,
    },
    Row {
        entries: 0,
        refused: true,
    },
    Row {
        entries: 0,
        refused: true,
    },
    Row {
        entries: 0,
        refused: true,
    },
    Row {
        entries: 0,
        refused: true,
    },
    Row {
        entries: 0,
        refused: true,
    },
];

// The site sheet's row of a range type; a code of more than 4 bits is refused.
pub fn row_of(code: u32) -> Row
    ensures { result ≡ row_of code }
{
    if 16 <= code {
        return Row {
            entries: 0,
            refused: true,
        };
    }
    let i = code as usize;
    RANGE_TYPES[i]
}

// What a range type means; a code of any other has no meaning.
#[tactic(auto, unfolding(crate::specs::SiteSheet::range_type))]
pub fn range_type(code: u32) -> Option<RangeType>
    ensures { result ≡ range_type code }
{
    match code {
        0 => Some(RangeType::Empty),
        1..=8 => Some(RangeType::Single(code)),
        9 => Some(RangeType::FirstAndLast),
        _ => None,
    }
}

// The entries that follow a range type. By its meaning and not from the site sheet's table, which each use would lay out anew on the stack.
#[tactic(auto, unfolding(crate::specs::SiteSheet::row_of))]
pub fn entries_of(code: u32) -> usize
    ensures { result ≡ entries_of code }
{
    match range_type(code) {
        Some(RangeType::Empty) => 0,
        Some(RangeType::Single(count)) => count as usize,
        Some(RangeType::FirstAndLast) => 2,
        None => 0,
    }
}

// The refusal number of a range type in a kind of list, 0 for none.
#[tactic(auto, unfolding(crate::specs::SiteSheet::range_refusal))]
pub fn range_refusal(list: ListKind, code: u32) -> u32
    ensures { result ≡ range_refusal list code }
{
    match range_type(code) {
        Some(RangeType::Empty) => match list {
            ListKind::Users => 3,
            ListKind::Identities => 0,
            ListKind::Numbers => 0,
        },
        Some(RangeType::Single(_)) => 0,
        Some(RangeType::FirstAndLast) => match list {
            ListKind::Users => 0,
            ListKind::Identities => 0,
            ListKind::Numbers => 3,
        },
        None => 3,
    }
}

// A digit of an external number.
#[derive(Clone, Copy)]
pub enum Digit {
    Decimal(u32),
    Star,
    Hash,
    Plus,
}

#[tactic(auto, unfolding(crate::specs::SiteSheet::digit_of))]
pub fn digit_of(code: u32) -> Option<Digit>
    ensures { result ≡ digit_of code }
{
    match code {
        0..=9 => Some(Digit::Decimal(code)),
        10 => Some(Digit::Star),
        11 => Some(Digit::Hash),
        12 => Some(Digit::Plus),
        _ => None,
    }
}

#[tactic(auto, unfolding(crate::specs::SiteSheet::digit_refusal))]
pub fn digit_refusal(code: u32) -> u32
    ensures { result ≡ digit_refusal code }
{
    if digit_of(code).is_some() { 0 } else { 3 }
}

// Whether each of the sixteen digits of 4 bits in w is legal: 13 to 15 have the bits 8 and 4, and 2 or 1.
pub fn are_digits(w: u64) -> bool
    ensures { result ≡ all_digits 16 w }
{
    let refused = (w >> 3) & (w >> 2) & ((w >> 1) | w);
    refused & 0x1111_1111_1111_1111 == 0
}

// A service (table 42).
#[derive(Clone, Copy)]
pub enum Service {
    All,
    Speech,
    CircuitData,
    ShortData,
}

#[tactic(auto, unfolding(crate::specs::SiteSheet::service_of))]
pub fn service_of(code: u32) -> Option<Service>
    ensures { result ≡ service_of code }
{
    match code {
        0 => Some(Service::All),
        1 => Some(Service::Speech),
        2 => Some(Service::CircuitData),
        3 => Some(Service::ShortData),
        _ => None,
    }
}

#[tactic(auto, unfolding(crate::specs::SiteSheet::service_refusal))]
pub fn service_refusal(code: u32) -> u32
    ensures { result ≡ service_refusal code }
{
    if service_of(code).is_some() { 0 } else { 3 }
}

// A BOC PDU type (table 23) that has a PDU.
#[derive(Clone, Copy)]
pub enum PduType {
    Define,
    DefineAck,
    DefineExternal,
    DefineUser,
    DefineUserAck,
    DefineExternalUser,
    Interrogate,
    InterrogateAck,
    CallBarred,
}

#[tactic(auto, unfolding(crate::specs::SiteSheet::pdu_type))]
pub fn pdu_type(code: u32) -> Option<PduType>
    ensures { result ≡ pdu_type code }
{
    match code {
        5 => Some(PduType::Define),
        6 => Some(PduType::DefineAck),
        7 => Some(PduType::DefineExternal),
        8 => Some(PduType::DefineUser),
        9 => Some(PduType::DefineUserAck),
        10 => Some(PduType::DefineExternalUser),
        11 => Some(PduType::Interrogate),
        12 => Some(PduType::InterrogateAck),
        13 => Some(PduType::CallBarred),
        _ => None,
    }
}

pub fn kind_refusal(code: u32) -> u32
    ensures { result ≡ kind_refusal code }
{
    between_refusal(5, 13, code)
}

// The refusal number of a value of which those from low to high are reserved.
pub fn reserved_refusal(low: u32, high: u32, v: u32) -> u32
    ensures { result ≡ reserved low high v }
{
    if between_refusal(low, high, v) == 0 {
        3
    } else {
        0
    }
}

// The part whose lists a definition of it carries: its own for addition and replacement, none for any other.
#[tactic(auto, unfolding(crate::specs::SiteSheet::defined_part))]
pub fn defined_part(part: u32, definition: u32) -> u32
    ensures { result ≡ defined_part part definition }
{
    if 1 < definition { 0 } else { part }
}

// The refusal number of a value that is to be from low to high.
pub fn between_refusal(low: u32, high: u32, v: u32) -> u32
    ensures { result ≡ between low high v }
{
    if v < low {
        return 3;
    }
    if high < v {
        return 3;
    }
    0
}

// The refusal number of the two ends of a range, 0 for none.
#[tactic(auto, unfolding(crate::specs::Grammar::ends_refusal))]
pub fn ends_refusal(first: Identity, last: Identity) -> u32
    ensures { result ≡ ends_refusal first last }
{
    if first.present != last.present {
        return 4;
    }
    if first.extension != last.extension {
        return 4;
    }
    if last.ssi < first.ssi {
        return 4;
    }
    0
}

// The network of an identity: its extension if that is present, otherwise `missing`, the one that a missing extension means.
#[tactic(auto, unfolding(crate::specs::Grammar::network_of))]
pub fn network_of(missing: u32, e: Identity) -> u32
    ensures { result ≡ network_of missing e }
{
    if e.present == 1 { e.extension } else { missing }
}
