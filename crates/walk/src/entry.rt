// The entries of a list: identities or external numbers.
ghost use Rattle.std.specs.Prelude.{◌≡◌, ◌≤◌, ℕ, List};
ghost use Rattle.codec.specs.Codec.{Codec};
ghost use Rattle.codec.specs.Reading.{read_at, reached};
ghost use Rattle.grammar.specs.SiteSheet.{range_refusal};
ghost use Rattle.grammar.specs.Grammar.{identity, external};
ghost use Rattle.grammar.specs.declared.site.ListKind.{ListKind};
ghost use Rattle.grammar.specs.declared.site.ListKind.TheVariants as of;
ghost use Rattle.walk.specs.Inner.{pass, steps, range, coded, numbers, bits_of, Ends, Empty};
ghost use Rattle.walk.specs.Entries.{no_identities_empty, no_numbers_empty};

use crate::ahead::{BEYOND, mixed};
use crate::exact::Pdu;
use bits::{Cursor, DigitCount};
use codec::Stop;
use grammar::record::{Identity, Number};
use grammar::site;
use grammar::site::ListKind;

// What stands in a list, and how both walks pass it.
pub(crate) trait Entry {
    // In a PDU.
    ghost part: { Codec Self };

    // Ahead: where it ends.
    fn end(s: &[u8], start: usize) -> usize
        requires { start ≤ 900000 }
        ensures { Ends (pass part) s.now start 4097 result };

    // Exactly: the cursor behind it.
    fn pass(pdu: Pdu, at: Cursor) -> Result<Cursor, Stop>
        ensures { result ≡ reached (read_at part (bits_of pdu.entry) at.at) };
}

// The same of the entries that a range type says.
pub(crate) trait Listed: Entry {
    // The kind of their lists; the affected users are another.
    const LIST: ListKind;

    ghost LIST: { ListKind };

    ghost entries: { ℕ → Codec (List Self) };

    fn entries_end(s: &[u8], start: usize, code: u32) -> usize
        requires { (start ≤ 800000) × (range_refusal LIST code ≡ 0) }
        ensures { Ends (pass (entries code)) s.now start 32776 result };

    fn pass_entries(pdu: Pdu, at: Cursor, code: u32) -> Result<Cursor, Stop>
        ensures { result ≡ reached (read_at (entries code) (bits_of pdu.entry) at.at) };

    // Range type 0 says none.
    ghost empty: { Empty LIST entries };
}

impl Entry for Identity {
    ghost part = { identity };

    // Only the present bit matters.
    fn end(s: &[u8], start: usize) -> usize {
        start + 25 + 24 * bits::bit_at(s, start + 24)
    }

    fn pass(pdu: Pdu, at: Cursor) -> Result<Cursor, Stop> {
        let (_, next) = pdu.identity_of(at)?;
        Ok(next)
    }
}

impl Listed for Identity {
    const LIST: ListKind = ListKind::Identities;

    ghost LIST = { of.Identities };

    ghost entries = { coded };

    ghost empty = { no_identities_empty };

    fn entries_end(s: &[u8], start: usize, code: u32) -> usize {
        if code < 9 {
            return identities_end(s, start, code);
        }
        range_end(s, start)
    }

    fn pass_entries(pdu: Pdu, at: Cursor, code: u32) -> Result<Cursor, Stop> {
        if code == 9 {
            return pdu.pass_range(at);
        }
        pdu.pass_each::<Identity>(at, code)
    }
}

impl Entry for Number {
    ghost part = { external };

    // The length and up to 13 digits stand in one window, the others in the next.
    fn end(s: &[u8], start: usize) -> usize {
        let window = bits::window(s, start);
        let count = (window >> 52u32) as usize;
        if site::between_refusal(1, 24, count as u32) != 0 {
            return start + BEYOND;
        }
        let size = DigitCount(count as u8).bits().0;
        let front = window % 4503599627370496;
        if count <= 13 {
            if site::are_digits(front >> (52 - size)) {
                return start + 5 + size;
            }
            return start + BEYOND;
        }
        if !site::are_digits(front) {
            return start + BEYOND;
        }
        if site::are_digits(bits::window(s, start + 57) >> (109 - size)) {
            return start + 5 + size;
        }
        start + BEYOND
    }

    // Its length, and as many digits.
    fn pass(pdu: Pdu, at: Cursor) -> Result<Cursor, Stop> {
        pdu.pass_counted(at, 5, 24, |at| pdu.pass_element(at, 4, site::digit_refusal))
    }
}

impl Listed for Number {
    const LIST: ListKind = ListKind::Numbers;

    ghost LIST = { of.Numbers };

    ghost entries = { numbers };

    ghost empty = { no_numbers_empty };

    fn entries_end(s: &[u8], start: usize, code: u32) -> usize {
        numbers_end(s, start, code)
    }

    fn pass_entries(pdu: Pdu, at: Cursor, code: u32) -> Result<Cursor, Stop> {
        pdu.pass_each::<Number>(at, code)
    }
}

// The two ends of a range.
fn range_end(s: &[u8], start: usize) -> usize
    requires { start ≤ 1000000 }
    ensures { Ends (pass range) s.now start 4097 result }
{
    let first = crate::identity_in(bits::window(s, start));
    let second = start + 25 + 24 * (first.present as usize);
    let last = crate::identity_in(bits::window(s, second));
    if site::ends_refusal(first, last) != 0 {
        return start + BEYOND;
    }
    second + 25 + 24 * (last.present as usize)
}

// So many identities; several first as if all had the first one's present bit, as in most lists: then no place waits for the bit before it,
// and, unlike for numbers, no entry is tested by itself: its end is only a bit, and leaving at the first other was slower in lists of five and more.
fn identities_end(s: &[u8], start: usize, count: u32) -> usize
    requires { (start ≤ 800000) × (count ≤ 8) }
    ensures { Ends (λ l. steps (pass identity l) count) s.now start 32776 result }
{
    if count < 2 {
        return mixed::<Identity>(s, start, count);
    }
    let present = bits::bit_at(s, start + 24);
    let width = 25 + 24 * present;
    let mut at = start + width;
    let mut other: usize = 0;
    for _ in 1..count {
        other += (bits::bit_at(s, at + 24) + present) % 2;
        at += width;
    }
    if other != 0 {
        return mixed::<Identity>(s, start, count);
    }
    at
}

// So many external numbers; several first as if all were as long as the first: then no place waits for the length before it.
fn numbers_end(s: &[u8], start: usize, count: u32) -> usize
    requires { (start ≤ 800000) × (count ≤ 8) }
    ensures { Ends (λ l. steps (pass external l) count) s.now start 32776 result }
{
    if count < 2 {
        return mixed::<Number>(s, start, count);
    }
    let mut at = Number::end(s, start);
    let width = at - start;
    for _ in 1..count {
        let end = at + width;
        if Number::end(s, at) != end {
            return mixed::<Number>(s, start, count);
        }
        at = end;
    }
    at
}
