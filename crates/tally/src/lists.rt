// What the lists among the words come to: a range type with its entries, and all lists by their part.
ghost use Rattle.std.specs.Prelude.{◌≡◌, ℕ, ◌+◌, ◌*◌, ◌≤◌, List, length, Some};
ghost use Rattle.codec.specs.Places.{places};
ghost use Rattle.grammar.specs.Grammar.{identities, no_identities, identity_part, number_part, part_of};
ghost use Rattle.grammar.specs.declared.site.ListKind.TheVariants as of;
ghost use Rattle.words.specs.RecordWords.{entries_from, identities_from, lists_from};
ghost use Rattle.tally.specs.Tally.{Tallies};
ghost use Rattle.tally.specs.Inner.{Fits, Alike, Uncarried, list_from, listing};

use crate::Tally;
use crate::counted::Counted;
use crate::elements::first_refusal;
use grammar::record::{Identities, Identity, Number};
use grammar::site::{ListKind, entries_of, range_refusal};

// An entry of a range type, of which there are eight places.
pub(crate) trait Listed: Counted {
    // What a range type asks of the entries: a refusal number.
    ghost test: { ℕ → List Self → ℕ };

    // How many bits each of the first n has, where they are legal and alike.
    fn bits_alike(words: &[u32], n: usize) -> Option<usize>
        requires { (Self.WORDS * 8 ≤ length words.now) × (n ≤ 8) }
        ensures { (width : ℕ) → result ≡ Some width → Alike Self.used Self.among Self.WORDS n width words.now };

    // That number, 0 for none.
    fn ends(code: u32, words: &[u32]) -> u32
        requires { Self.WORDS * 8 ≤ length words.now }
        ensures { result ≡ test code (entries_from Self.among Self.WORDS 8 words.now) };
}

// The affected users.
impl Counted for Identities {
    ghost WORDS = { 25 };

    ghost used = { identities of.Users };

    ghost unused = { no_identities };

    ghost among = { identities_from };

    const WORDS: usize = 25;

    fn tally(start: Tally, words: &[u32]) -> Tally {
        start.list::<Identity>(ListKind::Users, words)
    }
}

impl Tally {
    // The first n of eight entries are used: at once where they are alike.
    fn eight_entries<E: Listed>(self, words: &[u32], n: usize) -> Tally
        requires { (E.WORDS * 8 ≤ length words.now) × (n ≤ 8) × Uncarried E.WORDS E.unused E.among × Fits (places E.used E.unused 8 n) (entries_from E.among E.WORDS 8 words.now) self }
        ensures { Tallies (places E.used E.unused 8 n) (entries_from E.among E.WORDS 8 words.now) self result }
    {
        let Some(width) = E::bits_alike(words, n) else {
            return self.entries::<E, 8>(words, n);
        };
        let size = E::WORDS;
        let sum = Tally {
            bits: self.bits + width * n,
            ..self
        };
        sum.unused(&words[size * n..size * 8])
    }

    // The range type, as many entries as it says, and the test of them.
    pub(crate) fn list<E: Listed>(self, list: ListKind, words: &[u32]) -> Tally
        requires { (1 + E.WORDS * 8 ≤ length words.now) × Uncarried E.WORDS E.unused E.among × Fits (listing list E.used E.unused E.test) (list_from E.among E.WORDS words.now) self }
        ensures { Tallies (listing list E.used E.unused E.test) (list_from E.among E.WORDS words.now) self result }
    {
        let code = words[0];
        let entries = &words[1..];
        let after_code = self.element(4, code, range_refusal(list, code));
        let after_entries = after_code.eight_entries::<E>(entries, entries_of(code));
        Tally {
            refusal: first_refusal(after_entries.refusal, E::ends(code, entries)),
            ..after_entries
        }
    }

    // Part 1: TETRA identities. The two parts share no more than their groups, so each has a method.
    fn identity_part(self, words: &[u32]) -> Tally
        requires { (477 ≤ length words.now) × Fits identity_part (lists_from words.now) self }
        ensures { Tallies identity_part (lists_from words.now) self result }
    {
        let after_groups = self.list::<Identity>(ListKind::Identities, words);
        let after_restricted = after_groups.list::<Identity>(ListKind::Identities, &words[25..]);
        let after_exceptions = after_restricted.list::<Identity>(
            ListKind::Identities,
            &words[50..],
        );
        after_exceptions.unused(&words[75..477])
    }

    // Part 2: external subscriber numbers.
    fn number_part(self, words: &[u32]) -> Tally
        requires { (477 ≤ length words.now) × Fits number_part (lists_from words.now) self }
        ensures { Tallies number_part (lists_from words.now) self result }
    {
        let after_groups = self.list::<Identity>(ListKind::Identities, words);
        let no_restricted = after_groups.unused(&words[25..50]);
        let no_exceptions = no_restricted.unused(&words[50..75]);
        let after_numbers = no_exceptions.list::<Number>(ListKind::Numbers, &words[75..]);
        after_numbers.list::<Number>(ListKind::Numbers, &words[276..])
    }

    // The part of this number; any other has no lists.
    pub(crate) fn part(self, part: u32, words: &[u32]) -> Tally
        requires { (477 ≤ length words.now) × Fits (part_of part) (lists_from words.now) self }
        ensures { Tallies (part_of part) (lists_from words.now) self result }
    {
        if part == 1 {
            return self.identity_part(words);
        }
        if part == 2 {
            return self.number_part(words);
        }
        self.unused(&words[..477])
    }
}
