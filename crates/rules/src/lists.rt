// What the lists of a part say of a call. `missing` is the network that a missing extension means.
ghost use Rattle.std.specs.Prelude.{◌≡◌};
ghost use Rattle.rules.specs.Inner.{destination_among};
ghost use Rattle.rules.specs.Rule.{is_outside, both_empty};

use crate::matching::{identity_among, number_among};
use crate::request::{Destination, User};
use grammar::record::{Identities, Lists, Number, Numbers};

// The destination is in the list for its kind.
#[tactic(auto, unfolding(crate::specs::Inner::destination_among))]
pub(crate) fn destination_among(
    identities: Identities,
    numbers: Numbers,
    missing: u32,
    destination: Destination,
    digits: [u8; 24],
) -> bool
    ensures { result ≡ destination_among missing identities numbers destination digits }
{
    match destination {
        Destination::Identity(u) => identity_among(identities, missing, u),
        Destination::Number(length) => number_among(numbers, Number { length, digits }),
    }
}

// The group list isn't empty, and either the call has no group or its group is not in the list.
#[tactic(auto, unfolding(crate::specs::Rule::is_outside))]
pub(crate) fn is_outside(groups: Identities, missing: u32, group: Option<User>) -> bool
    ensures { result ≡ is_outside missing groups group }
{
    if groups.code == 0 {
        return false;
    }
    match group {
        Some(u) => !identity_among(groups, missing, u),
        None => true,
    }
}

// The group list and the restricted list are both empty.
#[tactic(auto, unfolding(crate::specs::Rule::both_empty))]
pub(crate) fn both_empty(lists: Lists, destination: Destination) -> bool
    ensures { result ≡ both_empty lists destination }
{
    if lists.groups.code != 0 {
        return false;
    }
    match destination {
        Destination::Identity(_) => lists.restricted.code == 0,
        Destination::Number(_) => lists.numbers.code == 0,
    }
}
