// What a part says of a call: the request and the six rules (document 01, "The barring rule").
#![tactic(auto)]

mod lists;
mod matching;
pub mod request;

ghost use Rattle.std.specs.Prelude.{◌≡◌};
ghost use Rattle.rules.specs.Rule.{cause_number, ruling, six_rules};

use grammar::record::Record;
use grammar::site::network_of;
use lists::{both_empty, destination_among, is_outside};
use matching::covers;
pub use matching::{in_range, is_covering, is_entry};
use request::Request;

// Rejection causes, with their numbers (table 38).
#[derive(Clone, Copy, PartialEq, Eq)]
pub enum Cause {
    OutsideGroup = 0,
    RestrictedService = 1,
    RestrictedAddress = 2,
}

impl From<Cause> for u32 {
    ghost from_gives = { λ cause number. number ≡ cause_number cause };

    fn from(cause: Cause) -> u32 {
        cause as u32
    }
}

// What the part of a user says of a call of that user: the cause for which it is barred, if it is. A group, a restricted or an excepted identity without extension is of the affected
// user's network; an affected user without extension is of the home network.
pub fn rule(part: Record, home: u32, request: Request) -> Option<Cause>
    ensures { result ≡ ruling home part request }
{
    let users = part.affected.entries;
    six_rules(part, network_of(home, users[0]), request)
}

// What the first rule that applies says. `missing` is the network that a missing extension means.
fn six_rules(part: Record, missing: u32, request: Request) -> Option<Cause>
    ensures { result ≡ six_rules missing part request }
{
    let services = part.services;
    if !covers(services, request.service) {
        return None;
    }
    let lists = part.lists;
    let destination = request.destination;
    let digits = request.digits;
    if destination_among(
        lists.exceptions,
        lists.excepted,
        missing,
        destination,
        digits,
    ) {
        return None;
    }
    if destination_among(
        lists.restricted,
        lists.numbers,
        missing,
        destination,
        digits,
    ) {
        return Some(Cause::RestrictedAddress);
    }
    let groups = lists.groups;
    let group = request.group;
    if is_outside(groups, missing, group) {
        return Some(Cause::OutsideGroup);
    }
    if both_empty(lists, destination) {
        return Some(Cause::RestrictedService);
    }
    None
}
