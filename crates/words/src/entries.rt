// Parts in words: one, and entries one after another, each in as many words.
ghost use Rattle.std.specs.Prelude.{◌≡◌, ◌∷◌, ℕ, ◌+◌, ◌*◌, ◌≤◌, List, length, drop};
ghost use Rattle.words.specs.Places.{list_places};
ghost use Rattle.words.specs.Inner.{Put};
ghost use Rattle.words.specs.RecordWords.{word, in_turn, entries_from};

use crate::record::{LIST_PLACES, put_word};

// What has a fixed number of words.
pub trait Spelt {
    const WIDTH: usize;

    ghost WIDTH: { ℕ };

    // Its words, and what words from a place on say.
    ghost spelt: { Self → List ℕ };

    ghost meant: { List ℕ → Self };
}

// What is put among words and read from them.
pub(crate) trait Stored: Spelt + Copy {
    // Gives the place after the words.
    fn put(self, words: &mut [u32], at: usize) -> usize
        requires { at + Self.WIDTH ≤ length words.old }
        ensures { Put words.old at (Self.spelt self) Self.WIDTH words.new result };

    fn read(words: &[u32], at: usize) -> Self
        requires { at + Self.WIDTH ≤ length words.now }
        ensures { result ≡ Self.meant (drop at words.now) };
}

pub(crate) fn put_each<E: Stored>(words: &mut [u32], at: usize, entries: &[E]) -> usize
    requires { at + E.WIDTH * length entries.now ≤ length words.old }
    ensures { Put words.old at (in_turn E.spelt entries.now) (E.WIDTH * length entries.now) words.new result }
{
    let mut next = at;
    for entry in entries {
        next = entry.put(words, next);
    }
    next
}

pub(crate) fn each_from<E: Stored>(words: &[u32], at: usize, entries: &mut [E])
    requires { at + E.WIDTH * length entries.old ≤ length words.now }
    ensures { entries.new ≡ entries_from E.meant E.WIDTH (length entries.old) (drop at words.now) }
{
    let mut from = at;
    for entry in entries.iter_mut() {
        *entry = E::read(words, from);
        from += E::WIDTH;
    }
}

// A list: its code and its entries.
pub(crate) fn put_list<E: Stored>(
    words: &mut [u32],
    at: usize,
    code: u32,
    entries: &[E; LIST_PLACES],
) -> usize
    requires { at + (1 + E.WIDTH * list_places) ≤ length words.old }
    ensures { Put words.old at (code ∷ in_turn E.spelt entries.now) (1 + E.WIDTH * list_places) words.new result }
{
    let first = put_word(words, at, code);
    put_each(words, first, entries)
}

// Reads each entry in the place of `none`.
pub(crate) fn list_from<E: Stored>(words: &[u32], at: usize, none: E) -> (u32, [E; LIST_PLACES])
    requires { at + (1 + E.WIDTH * list_places) ≤ length words.now }
    ensures { result ≡ (word (drop at words.now) 0, entries_from E.meant E.WIDTH list_places (drop 1 (drop at words.now))) }
{
    let mut entries = [none; LIST_PLACES];
    each_from(words, at + 1, &mut entries);
    (words[at], entries)
}
