// Whether a list names a user, an external number or a service. `missing` is the network that a missing extension means.
ghost use Rattle.std.specs.Prelude.{◌≡◌, take};
ghost use Rattle.bits.specs.Lists.{some};
ghost use Rattle.rules.specs.Matching.{is_entry, in_range, identity_among, number_among, is_covering, covered};

use crate::request::User;
use grammar::record::{Identities, Identity, Number, Numbers, Services};
use grammar::site::{RangeType, entries_of, network_of, range_type};

// A single entry is this user.
#[tactic(auto, unfolding(crate::specs::Matching::is_entry))]
pub fn is_entry(e: Identity, missing: u32, u: User) -> bool
    ensures { result ≡ is_entry missing u e }
{
    network_of(missing, e) == u.network && e.ssi == u.ssi
}

// A range, both ends included, has this user.
#[tactic(auto, unfolding(crate::specs::Matching::in_range))]
pub fn in_range(first: Identity, last: Identity, missing: u32, u: User) -> bool
    ensures { result ≡ in_range missing u first last }
{
    if network_of(missing, first) != u.network {
        return false;
    }
    first.ssi <= u.ssi && u.ssi <= last.ssi
}

// One of n single entries is this user.
fn is_one_of(entries: [Identity; 8], n: u32, missing: u32, u: User) -> bool
    ensures { result ≡ some (is_entry missing u) (take n entries) }
{
    entries
        .iter()
        .take(n as usize)
        .any(|&e| is_entry(e, missing, u))
}

// The user is among the identities of a list.
#[tactic(auto, unfolding(crate::specs::Matching::identity_among))]
pub(crate) fn identity_among(list: Identities, missing: u32, u: User) -> bool
    ensures { result ≡ identity_among missing list u }
{
    let entries = list.entries;
    match range_type(list.code) {
        Some(RangeType::Empty) => false,
        Some(RangeType::Single(n)) => is_one_of(entries, n, missing, u),
        Some(RangeType::FirstAndLast) => in_range(entries[0], entries[1], missing, u),
        None => false,
    }
}

// The external number is among the numbers of a list: the same length and the same digits.
pub(crate) fn number_among(list: Numbers, number: Number) -> bool
    ensures { result ≡ number_among list number.length.0 number.digits }
{
    let entries = list.entries;
    let count = entries_of(list.code).min(8);
    let length = number.length.0;
    let places = (length as usize).min(24);
    let mut found = false;
    'entries: for e in &entries[..count] {
        if e.length.0 != length {
            continue 'entries;
        }
        for j in 0..places {
            if e.digits[j] != number.digits[j] {
                continue 'entries;
            }
        }
        found = true;
        break 'entries;
    }
    found
}

// A listed service covers this one: 0 is all applicable services.
#[tactic(auto, unfolding(crate::specs::Matching::is_covering))]
pub fn is_covering(listed: u32, service: u32) -> bool
    ensures { result ≡ is_covering service listed }
{
    listed == 0 || listed == service
}

// The part lists service 0 or this service.
pub(crate) fn covers(services: Services, service: u32) -> bool
    ensures { result ≡ covered services service }
{
    let list = services.list;
    list.iter()
        .take(services.count as usize)
        .any(|&listed| is_covering(listed, service))
}
