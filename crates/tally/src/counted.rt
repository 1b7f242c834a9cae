// Parts of a record with a fixed number of words: one that a PDU has or has not, and the places of a list, of which it uses the first.
ghost use Rattle.std.specs.Prelude.{ℕ, List, ◌*◌, ◌≤◌, length};
ghost use Rattle.bits.specs.Bits.{pick};
ghost use Rattle.codec.specs.Codec.{Codec};
ghost use Rattle.codec.specs.Places.{places};
ghost use Rattle.words.specs.RecordWords.{entries_from};
ghost use Rattle.tally.specs.Tally.{Tallies};
ghost use Rattle.tally.specs.Inner.{Fits, Uncarried};

use crate::Tally;

// How many words it has, and what they come to: by one codec where the PDU uses it, by the other where it does not.
pub(crate) trait Counted {
    ghost WORDS: { ℕ };

    ghost used: { Codec Self };

    ghost unused: { Codec Self };

    ghost among: { List ℕ → Self };

    const WORDS: usize;

    // Where it is used, and its words are the first of these.
    fn tally(start: Tally, words: &[u32]) -> Tally
        requires { (WORDS ≤ length words.now) × Fits used (among words.now) start }
        ensures { Tallies used (among words.now) start result };
}

impl Tally {
    // A part that the PDU has or has not.
    pub(crate) fn part_if<P: Counted>(self, carried: bool, words: &[u32]) -> Tally
        requires { (P.WORDS ≤ length words.now) × Uncarried P.WORDS P.unused P.among × Fits (pick carried P.used P.unused) (P.among words.now) self }
        ensures { Tallies (pick carried P.used P.unused) (P.among words.now) self result }
    {
        if carried {
            return P::tally(self, words);
        }
        self.unused(&words[..P::WORDS])
    }

    // The first n of so many places are used, whatever stands in them.
    pub(crate) fn entries<E: Counted, const PLACES: usize>(self, words: &[u32], n: usize) -> Tally
        requires { (E.WORDS * PLACES ≤ length words.now) × (n ≤ PLACES) × Uncarried E.WORDS E.unused E.among × Fits (places E.used E.unused PLACES n) (entries_from E.among E.WORDS PLACES words.now) self }
        ensures { Tallies (places E.used E.unused PLACES n) (entries_from E.among E.WORDS PLACES words.now) self result }
    {
        let size = E::WORDS;
        let mut sum = self;
        for i in 0..n {
            sum = E::tally(sum, &words[size * i..]);
        }
        sum.unused(&words[size * n..size * PLACES])
    }
}
