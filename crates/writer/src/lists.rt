// A list: a range type with its entries. And the lists of a record, by their part.
ghost use Rattle.std.specs.Prelude.{ℕ, List, ◌+◌, ◌*◌, ◌≤◌, length, drop};
ghost use Rattle.bits.specs.Lists.{Each};
ghost use Rattle.codec.specs.Codec.{Codec};
ghost use Rattle.codec.specs.Places.{places};
ghost use Rattle.grammar.specs.Grammar.{part_of};
ghost use Rattle.words.specs.RecordWords.{entries_from, identity_from, lists_from};
ghost use Rattle.tally.specs.Inner.{list_from};
ghost use Rattle.writer.specs.Inner.{Room, Puts, Small, listing, three};

use crate::elements::put_element;
use grammar::record::{Identity, Number};
use grammar::site::entries_of;

// An entry of a range type.
pub(crate) trait Entry {
    ghost WORDS: { ℕ };

    // Where the PDU uses its place, and where it does not.
    ghost used: { Codec Self };

    ghost unused: { Codec Self };

    ghost among: { List ℕ → Self };

    // What is so of all that are put.
    ghost Small: { Self → Type 0 };

    // The first n of eight.
    fn put_entries(out: &mut [u8], at: usize, words: &[u32], n: usize) -> usize
        requires { (WORDS * 8 ≤ length words.now) × (n ≤ 8) × Each Small (entries_from among WORDS 8 words.now) × Room (places used unused 8 n) (entries_from among WORDS 8 words.now) out.old at }
        ensures { Puts (places used unused 8 n) (entries_from among WORDS 8 words.now) out.old out.new at result };
}

// The range type, and as many entries as it says.
pub(crate) fn put_list<E: Entry>(out: &mut [u8], at: usize, words: &[u32]) -> usize
    requires { (1 + E.WORDS * 8 ≤ length words.now) × Each E.Small (list_from E.among E.WORDS words.now).1 × Room (listing E.used E.unused) (list_from E.among E.WORDS words.now) out.old at }
    ensures { Puts (listing E.used E.unused) (list_from E.among E.WORDS words.now) out.old out.new at result }
{
    let code = words[0];
    let after_code = put_element(out, at, 4, code);
    E::put_entries(out, after_code, &words[1..], entries_of(code))
}

// The groups, what is restricted, and the exceptions to it.
fn put_three<E: Entry>(
    out: &mut [u8],
    at: usize,
    groups: &[u32],
    restricted: &[u32],
    exceptions: &[u32],
) -> usize
    requires groups_there { 25 ≤ length groups.now }
    requires restricted_there { (1 + E.WORDS * 8 ≤ length restricted.now) × Each E.Small (list_from E.among E.WORDS restricted.now).1 }
    requires exceptions_there { (1 + E.WORDS * 8 ≤ length exceptions.now) × Each E.Small (list_from E.among E.WORDS exceptions.now).1 }
    requires room { Room (three E.used E.unused) (list_from identity_from 3 groups.now, (list_from E.among E.WORDS restricted.now, list_from E.among E.WORDS exceptions.now)) out.old at }
    ensures { Puts (three E.used E.unused) (list_from identity_from 3 groups.now, (list_from E.among E.WORDS restricted.now, list_from E.among E.WORDS exceptions.now)) out.old out.new at result }
{
    let after_groups = put_list::<Identity>(out, at, groups);
    let after_restricted = put_list::<E>(out, after_groups, restricted);
    put_list::<E>(out, after_restricted, exceptions)
}

// Part 1: TETRA identities. Part 2: external subscriber numbers. Any other has no lists.
pub(crate) fn put_part(out: &mut [u8], at: usize, part: u32, words: &[u32]) -> usize
    requires { (477 ≤ length words.now) × Small (lists_from words.now) × Room (part_of part) (lists_from words.now) out.old at }
    ensures { Puts (part_of part) (lists_from words.now) out.old out.new at result }
{
    if part == 1 {
        return put_three::<Identity>(out, at, words, &words[25..], &words[50..]);
    }
    if part == 2 {
        return put_three::<Number>(out, at, words, &words[75..], &words[276..]);
    }
    at
}
