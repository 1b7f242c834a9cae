// A user or a group looked for in a list of identities, by the network that a missing extension means.
ghost use Rattle.std.specs.Prelude.{false, get_or};
ghost use Rattle.bits.specs.Bits.{bits};
ghost use Rattle.codec.specs.Places.{places};
ghost use Rattle.grammar.specs.Grammar.{identity, no_identity, zero_identity, identities};
ghost use Rattle.grammar.specs.declared.site.ListKind.TheVariants as of;
ghost use Rattle.reader.specs.Inner.{Read};
ghost use Rattle.rules.specs.Matching.{is_entry, in_range, identity_among};
ghost use Rattle.rules.specs.Rule.{in_groups};
ghost use Rattle.in_place.specs.Inner.{Walkable, Says, Sees};
ghost use Rattle.in_place.specs.Blanks.{no_identity_blank};

use crate::sought::{Sought, among_even, front_at};
use crate::{Passed, Seen};
use grammar::record::Identity;
use grammar::site::entries_of;
use rules::request::User;

// An entry, and where it ends.
#[derive(Clone, Copy)]
pub struct Entry {
    pub identity: Identity,
    pub end: usize,
}

// One window holds an entry: its SSI, its present bit, and its extension if that is 1.
fn entry_at(s: &[u8], at: usize) -> Entry
    requires { Walkable identity s.now at }
    ensures { Read identity (bits s.now) at result.identity result.end }
{
    let window = bits::window(s, at);
    let ssi = (window >> 33u32) as u32;
    if (window >> 32u32) % 2 == 1 {
        return Entry {
            identity: Identity {
                ssi,
                present: 1,
                extension: ((window >> 8u32) % 16777216) as u32,
            },
            end: at + 49,
        };
    }
    Entry {
        identity: Identity {
            ssi,
            present: 0,
            extension: 0,
        },
        end: at + 25,
    }
}

// A user or a group, and the network that a missing extension means.
#[derive(Clone, Copy)]
pub(crate) struct Wanted {
    pub(crate) user: User,
    pub(crate) missing: u32,
}

impl Sought for Wanted {
    type Entry = Identity;

    ghost part = { identity };

    ghost none = { no_identity };

    ghost is = { λ wanted. is_entry wanted.missing wanted.user };

    ghost blank = { no_identity_blank };

    fn at(self, s: &[u8], at: usize) -> Passed {
        let entry = entry_at(s, at);
        let identity = entry.identity;
        Passed {
            has: rules::is_entry(identity, self.missing, self.user),
            end: entry.end,
        }
    }
}

// Nothing is looked for, and entries are passed by their present bits alone.
#[derive(Clone, Copy)]
struct Nothing;

impl Sought for Nothing {
    type Entry = Identity;

    ghost part = { identity };

    ghost none = { no_identity };

    ghost is = { λ nothing e. false };

    ghost blank = { no_identity_blank };

    fn at(self, s: &[u8], at: usize) -> Passed {
        Passed {
            has: false,
            end: at + 25 + 24 * bits::bit_at(s, at + 24),
        }
    }
}

// Whether a range, both ends included, has this user.
fn range_at(s: &[u8], start: usize, wanted: Wanted) -> Passed
    requires { Walkable (places identity no_identity 8 2) s.now start }
    ensures { Says (places identity no_identity 8 2) (λ l. in_range wanted.missing wanted.user (get_or l 0 zero_identity) (get_or l 1 zero_identity)) (bits s.now) start result.has result.end }
{
    let first = entry_at(s, start);
    let last = entry_at(s, first.end);
    let low = first.identity;
    let high = last.identity;
    Passed {
        has: rules::in_range(low, high, wanted.missing, wanted.user),
        end: last.end,
    }
}

// Whether a list, by its range type, has this user.
pub(crate) fn identities_at(s: &[u8], start: usize, wanted: Wanted) -> Seen
    requires { Walkable (identities of.Identities) s.now start }
    ensures { Sees (identities of.Identities) (λ l. identity_among wanted.missing l wanted.user) (λ l. l.code) (bits s.now) start result }
{
    let front = front_at(s, start);
    let code = front.code;
    if code == 9 {
        return range_at(s, front.at, wanted).of_list(code);
    }
    among_even(s, front.at, code as usize, front.width, wanted).of_list(code)
}

// A list in which nothing is looked for: only its end, and whether it is empty.
fn passed_over(s: &[u8], start: usize) -> Seen
    requires { Walkable (identities of.Identities) s.now start }
    ensures { Sees (identities of.Identities) (λ l. false) (λ l. l.code) (bits s.now) start result }
{
    let front = front_at(s, start);
    let code = front.code;
    among_even(s, front.at, entries_of(code), front.width, Nothing).of_list(code)
}

// Whether the group list has the call's group; it does not have none.
pub(crate) fn groups_at(s: &[u8], start: usize, missing: u32, group: Option<User>) -> Seen
    requires { Walkable (identities of.Identities) s.now start }
    ensures { Sees (identities of.Identities) (λ l. in_groups missing l group) (λ l. l.code) (bits s.now) start result }
{
    match group {
        Some(user) => identities_at(s, start, Wanted { user, missing }),
        None => passed_over(s, start),
    }
}
