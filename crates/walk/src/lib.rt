// The walk over a PDU: it keeps only what steers it, and answers with the head of an accepted PDU, or with the refusal number
// and the bit place of the element at fault.
#![tactic(auto)]

ghost use Rattle.std.specs.Prelude.{◌≡◌, ◌<◌, ◌^◌, true};
ghost use Rattle.bits.specs.Frame.{framed};
ghost use Rattle.walk.specs.Walk.{walk_is};
ghost use Rattle.walk.specs.Inner.{identity_in, head_in, ended_is, result_in, Finds};

use ahead::Ahead;
use bits::{BitCount, Cursor};
use codec::Stop;
use grammar::record::Identity;
use grammar::{figures, site};

mod ahead;
mod entry;
mod exact;

// A refusal's number, and the bit place in the PDU where it stands, if it has one.
#[derive(Clone, Copy)]
pub struct Refusal {
    pub number: u32,
    pub place: Option<usize>,
}

// What steers the reading of a PDU: PDU type, range type of the affected users, the first of them, interrogation result; zero where it has none.
#[derive(Clone, Copy)]
pub struct Head {
    pub kind: u32,
    pub code: u32,
    pub user: Identity,
    pub result: u32,
}

// Walks the PDU of n bits in s: refusal 1 first, then element by element, 5 last.
pub fn walk(s: &[u8], n: BitCount) -> Result<Head, Refusal>
    ensures { result ≡ walk_is s.now n.0 }
{
    if !bits::is_framed(s, n) {
        return Err(Refusal {
            number: 1,
            place: None,
        });
    }
    if s.len() < 8 {
        return sighted(s, n, ahead::short_ahead(s));
    }
    sighted(s, n, ahead::pdu_ahead(s))
}

// The head, where the walk ahead ends with the PDU; or the exact walk's answer.
fn sighted(s: &[u8], n: BitCount, seen: Ahead) -> Result<Head, Refusal>
    requires { (framed s.now n.0 ≡ true) × Finds result_in s.now 0 seen.result seen.end }
    ensures { result ≡ walk_is s.now n.0 }
{
    if seen.end == n.0 {
        return Ok(head_in(s, seen.result));
    }
    exactly(s, n)
}

// The exact walk's answer.
fn exactly(s: &[u8], n: BitCount) -> Result<Head, Refusal>
    requires { framed s.now n.0 ≡ true }
    ensures { result ≡ walk_is s.now n.0 }
{
    let pdu = exact::Pdu {
        bytes: s,
        length: n,
    };
    ended(s, n, pdu.pass_pdu())
}

// The answer where reading ends: 5 if bits are left.
fn ended(s: &[u8], n: BitCount, read: Result<(u32, Cursor), Stop>) -> Result<Head, Refusal>
    ensures { result ≡ ended_is s.now n.0 read }
{
    match read {
        Err(stop) => Err(Refusal {
            number: stop.number,
            place: Some(stop.at),
        }),
        Ok((res, end)) => {
            if end.at < n.0 {
                return Err(Refusal {
                    number: 5,
                    place: Some(end.at),
                });
            }
            Ok(head_in(s, res))
        }
    }
}

// The head of an accepted PDU: all but the result stands in its first 64 bits.
fn head_in(s: &[u8], res: u32) -> Head
    ensures { result ≡ head_in s.now res }
{
    let first = bits::window(s, 0);
    let kind = ((first >> 46u32) % 32) as u32;
    let form = figures::form_of(site::pdu_type(kind));
    if !form.users {
        return Head {
            kind,
            code: 0,
            user: Identity {
                ssi: 0,
                present: 0,
                extension: 0,
            },
            result: res,
        };
    }
    let user = identity_in(bits::window(s, 15));
    Head {
        kind,
        code: ((first >> 42u32) % 16) as u32,
        user,
        result: res,
    }
}

// The identity in the window at its place.
pub(crate) fn identity_in(window: u64) -> Identity
    requires { window < 2 ^ 57 }
    ensures { result ≡ identity_in window }
{
    let ssi = (window >> 33u32) as u32;
    if (window >> 32u32) % 2 == 1 {
        return Identity {
            ssi,
            present: 1,
            extension: ((window >> 8u32) % 16777216) as u32,
        };
    }
    Identity {
        ssi,
        present: 0,
        extension: 0,
    }
}
