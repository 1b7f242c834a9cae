// Whether a call is barred, decided without unpacking: the bits of the part that judges it are walked in the archive, and each entry is
// compared as it passes (document 02, request 2026-14). No record is made, and no list is kept.
#![tactic(auto)]

mod identities;
mod numbers;
mod services;
mod sought;

ghost use Rattle.std.specs.Prelude.{◌≡◌};
ghost use Rattle.barring.specs.Decide.{decide_is};
ghost use Rattle.barring.specs.Inner.{ruling_of_body};
ghost use Rattle.in_place.specs.Inner.{seen, settled_by, Judging, Ruled, JudgingAt};

use archive::Refusal;
use barring::{Decision, JudgingPart};
use grammar::record::Number;
use identities::{Wanted, groups_at, identities_at};
use numbers::numbers_at;
use rules::Cause;
use rules::request::{Destination, Request};
use services::services_at;

// Where the affected user's present bit stands, behind SS type, PDU type, range type and SSI; where the services stand if the user has no
// extension; and the bits of an extension.
const PRESENT: usize = 39;

const SERVICES: usize = 45;

const EXTENSION: usize = 24;

// What a list says of a call: whether it has the destination, or the group; whether it is empty; and where it ends.
#[derive(Clone, Copy)]
pub struct Seen {
    pub has: bool,
    pub empty: bool,
    pub end: usize,
}

// Whether something that was looked for stands among what was passed, and where that ends.
#[derive(Clone, Copy)]
pub struct Passed {
    pub has: bool,
    pub end: usize,
}

impl Passed {
    // What was said of all its entries, as said of a list of a range type.
    fn of_list(self, code: u32) -> Seen
        ensures { result ≡ seen self code }
    {
        Seen {
            has: self.has,
            empty: code == 0,
            end: self.end,
        }
    }
}

// The first of rules 2 to 6 that applies, by what the lists say: groups, restricted, exceptions.
#[tactic(auto, unfolding(crate::specs::Inner::settled_by))]
fn settled(groups: Seen, restricted: Seen, exceptions: Seen) -> Option<Cause>
    ensures { result ≡ settled_by groups.has groups.empty restricted.has restricted.empty exceptions.has }
{
    if exceptions.has {
        return None;
    }
    if restricted.has {
        return Some(Cause::RestrictedAddress);
    }
    if groups.empty {
        if restricted.empty {
            return Some(Cause::RestrictedService);
        }
        return None;
    }
    if groups.has {
        return None;
    }
    Some(Cause::OutsideGroup)
}

// What a part says of a call of its user, whose network is the one that a missing extension means: services, groups, restricted and
// exceptions in the PDU's order, each where the one before it ends.
fn ruling_in(s: &[u8], request: Request) -> Option<Cause>
    requires { Judging s.now request }
    ensures { Ruled s.now request result }
{
    let missing = request.user.network;
    let services = services_at(
        s,
        SERVICES + EXTENSION * bits::bit_at(s, PRESENT),
        request.service,
    );
    if !services.has {
        return None;
    }
    let group = request.group;
    let destination = request.destination;
    let groups = groups_at(s, services.end, missing, group);
    match destination {
        Destination::Identity(user) => {
            let wanted = Wanted { user, missing };
            let restricted = identities_at(s, groups.end, wanted);
            let exceptions = identities_at(s, restricted.end, wanted);
            settled(groups, restricted, exceptions)
        },
        Destination::Number(length) => {
            let digits = request.digits;
            let number = Number { length, digits };
            let restricted = numbers_at(s, groups.end, number);
            let exceptions = numbers_at(s, restricted.end, number);
            settled(groups, restricted, exceptions)
        },
    }
}

// The same of the body of a part in the archive. Each engine cuts it out: one public function for both would have to answer for bodies that end
// outside, which no part that is held does.
fn ruling_of_body(archive: &[u8], part: JudgingPart, request: Request) -> Option<Cause>
    requires { JudgingAt archive.now part.at part.length.0 request }
    ensures { result ≡ ruling_of_body archive.now part.at part.length.0 request }
{
    let at = part.at;
    let length = part.length;
    let end = at + length.bytes();
    ruling_in(&archive[at..end], request)
}

// Whether the archive bars the call: 9 before 7, then the part of the request's user.
pub fn decide(archive: &[u8], request: Request) -> Result<Decision, Refusal>
    ensures { result ≡ decide_is archive.now request }
{
    match barring::judging_part(archive, request)? {
        Some(part) => Ok(Decision::from(ruling_of_body(archive, part, request))),
        None => Ok(Decision::NotHeld),
    }
}
