// The walk ahead: bits after the end read as zeros, and nothing is tested against the end on the way. Where the end that it finds is
// the PDU's own, all was inside and no element is refused; otherwise the exact walk says why.
ghost use Rattle.std.specs.Prelude.{◌≡◌, ◌+◌, ◌*◌, ◌^◌, ◌≤◌, ◌<◌, length, take};
ghost use Rattle.bits.specs.Bits.{bits};
ghost use Rattle.bits.specs.Element.{window_at};
ghost use Rattle.grammar.specs.SiteSheet.{service_refusal};
ghost use Rattle.grammar.specs.Grammar.{part_of};
ghost use Rattle.grammar.specs.Rows.{form_of, users_if};
ghost use Rattle.walk.specs.Inner.{pass, steps, listed, lists, passing, services_in, result_from, result_behind, result_in, Ends, Finds};

use crate::entry::{Entry, Listed};
use grammar::figures::Form;
use grammar::record::{Identity, Number};
use grammar::site::{ListKind, PduType, SS_TYPE};
use grammar::{figures, site};

// So far beyond its start that no PDU has it, a part ends that is not legal.
pub(crate) const BEYOND: usize = 4097;

// So many entries, whatever they are.
pub(crate) fn mixed<E: Entry>(s: &[u8], start: usize, count: u32) -> usize
    requires { (start ≤ 800000) × (count ≤ 8) }
    ensures { Ends (λ l. steps (pass E.part l) count) s.now start 32776 result }
{
    let mut at = start;
    for _ in 0..count {
        at = E::end(s, at);
    }
    at
}

// A range type and its entries; that there are none is seen first.
fn list_ahead<E: Listed>(s: &[u8], start: usize) -> usize
    requires { start ≤ 700000 }
    ensures { Ends (pass (listed E.LIST E.entries)) s.now start 32780 result }
{
    let code = (bits::window(s, start) >> 53u32) as u32;
    if code == 0 {
        return start + 4;
    }
    if site::range_refusal(E::LIST, code) != 0 {
        return start + BEYOND;
    }
    E::entries_end(s, start + 4, code)
}

// The three lists of a part, of which the first has identities; that all are empty is seen first, in one window.
fn lists_ahead<E: Listed>(s: &[u8], start: usize) -> usize
    requires { start ≤ 600000 }
    ensures { Ends (lists E.LIST E.entries) s.now start 98340 result }
{
    if bits::window(s, start) >> 45u32 == 0 {
        return start + 12;
    }
    list_ahead::<E>(s, list_ahead::<E>(s, list_ahead::<Identity>(s, start)))
}

// The lists that follow.
fn part_ahead(s: &[u8], start: usize, part: u32) -> usize
    requires { start ≤ 600000 }
    ensures { Ends (pass (part_of part)) s.now start 98340 result }
{
    match part {
        1 => lists_ahead::<Identity>(s, start),
        2 => lists_ahead::<Number>(s, start),
        _ => start,
    }
}

// The interrogation result, and where the PDU ends if all of it is there and legal. It is no Option: parts that are refused end beyond, so
// that nothing is tested from part to part, and the one test of the end sees a refusal too.
#[derive(Clone, Copy)]
pub struct Ahead {
    pub result: u32,
    pub end: usize,
}

// Whether seven services at once are legal: each is below 4.
fn are_services(list: u64) -> bool
    ensures { result ≡ passing service_refusal 3 7 list }
{
    list & 0x124924 == 0
}

// The width of the number of services and the services, in 24 bits that begin with them; 0 if one of them is refused.
fn services_in(run: u64) -> usize
    requires { run < 2 ^ 24 }
    ensures { (result ≡ services_in run) × (result ≤ 24) }
{
    let count = (run >> 21u32) as usize;
    if site::between_refusal(1, 7, count as u32) != 0 {
        return 0;
    }
    if !are_services((run % 2097152) >> (21 - 3 * count)) {
        return 0;
    }
    3 + 3 * count
}

fn beyond(start: usize) -> Ahead
    requires { start ≤ 500000 }
    ensures { result ≡ record { result = 0; end = start + 4097 } }
{
    Ahead {
        result: 0,
        end: start + BEYOND,
    }
}

// The affected users, where the PDU has them: their range type stands in its first window. One user, as in an archive, is seen first.
fn users_ahead(s: &[u8], first: u64, users: bool) -> usize
    requires { first ≡ window_at s.now 0 }
    ensures { Ends (pass (users_if users)) s.now 11 32780 result }
{
    if !users {
        return 11;
    }
    let code = ((first >> 42u32) % 16) as u32;
    if code == 1 {
        return Identity::end(s, 15);
    }
    if site::range_refusal(ListKind::Users, code) != 0 {
        return 11 + BEYOND;
    }
    Identity::entries_end(s, 15, code)
}

// What follows the affected users: figures and services stand in one window.
fn rest_ahead(s: &[u8], start: usize, kind: Option<PduType>, form: Form) -> Ahead
    requires { (start ≤ 500000) × (form ≡ form_of kind) }
    ensures { Finds (λ l. result_from kind l start) s.now start result.result result.end }
{
    let window = bits::window(s, start);
    let f = figures::figures_in(kind, window);
    if figures::figures_refusal(kind, f) != 0 {
        return beyond(start);
    }
    let width = form.width;
    if !form.services {
        return Ahead {
            result: f.result,
            end: start + width,
        };
    }
    let services_width = services_in((window >> (33 - width)) % 16777216);
    if services_width == 0 {
        return beyond(start);
    }
    let lists = start + width + services_width;
    Ahead {
        result: f.result,
        end: part_ahead(s, lists, figures::part_in(kind, f)),
    }
}

// What follows SS type and PDU type.
fn behind_type(s: &[u8], first: u64, kind: Option<PduType>) -> Ahead
    requires { first ≡ window_at s.now 0 }
    ensures { Finds (result_behind kind) s.now 11 result.result result.end }
{
    let form = figures::form_of(kind);
    let users = users_ahead(s, first, form.users);
    rest_ahead(s, users, kind, form)
}

// The whole of a PDU; that it is an INTERROGATE ACK, as all in an archive are, is seen first.
pub(crate) fn pdu_ahead(s: &[u8]) -> Ahead
    ensures { Finds result_in s.now 0 result.result result.end }
{
    let first = bits::window(s, 0);
    if (first >> 51u32) as u32 != SS_TYPE {
        return beyond(0);
    }
    let code = ((first >> 46u32) % 32) as u32;
    if code == 12 {
        return behind_type(s, first, Some(PduType::InterrogateAck));
    }
    if site::kind_refusal(code) != 0 {
        return beyond(0);
    }
    behind_type(s, first, site::pdu_type(code))
}

// The same for fewer than eight bytes, with zeros after them. Apart, so that in the walk of more bytes no window has to look for so few.
pub(crate) fn short_ahead(s: &[u8]) -> Ahead
    requires { length s.now < 8 }
    ensures { Finds result_in s.now 0 result.result result.end }
{
    let held = in_eight(s);
    pdu_ahead(&held)
}

// Fewer than eight bytes in eight. Beside the one of `bits`, which asks for a length and so is none of its public functions.
fn in_eight(s: &[u8]) -> [u8; 8]
    requires { length s.now < 8 }
    ensures { take (8 * length s.now) (bits result) ≡ bits s.now }
{
    let mut held = [0u8; 8];
    let width = 8 * s.len();
    bits::lay(&mut held, 0, width, bits::window(s, 0) >> (57 - width));
    held
}
