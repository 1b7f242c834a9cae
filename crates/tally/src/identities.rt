// What identities among the words come to: one, and those of a range type.
ghost use Rattle.std.specs.Prelude.{◌≡◌, true, ◌≤◌, length, get_or};
ghost use Rattle.grammar.specs.Grammar.{identity, no_identity, range_ends};
ghost use Rattle.words.specs.RecordWords.{entries_from, identity_from};
ghost use Rattle.tally.specs.Inner.{AllPlain};

use crate::Tally;
use crate::counted::Counted;
use crate::lists::Listed;
use grammar::record::Identity;
use grammar::site::ends_refusal;

// The identity whose three words these begin with.
#[tactic(auto, unfolding(words::specs::RecordWords::identity_from))]
fn identity_from(words: &[u32]) -> Identity
    requires { 3 ≤ length words.now }
    ensures { result ≡ identity_from words.now }
{
    Identity {
        ssi: words[0],
        present: words[1],
        extension: words[2],
    }
}

// Whether several entries are legal, have the first one's present bit, and no extension if that is 0. All are tested: that is quicker.
fn are_alike(words: &[u32], n: usize) -> bool
    requires { (24 ≤ length words.now) × (n ≤ 8) }
    ensures { result ≡ true → AllPlain n (get_or words.now 1 0) words.now }
{
    if n < 2 {
        return false;
    }
    let present = words[1];
    if 1 < present {
        return false;
    }
    let size = 24 * present;
    let mut other: u32 = 0;
    for i in 0..n {
        let e = identity_from(&words[3 * i..]);
        other = other | (e.ssi >> 24u32) | (e.present ^ present) | (e.extension >> size);
    }
    other == 0
}

// SSI, extension present, and the extension exactly if that is 1.
impl Counted for Identity {
    ghost WORDS = { 3 };

    ghost used = { identity };

    ghost unused = { no_identity };

    ghost among = { identity_from };

    const WORDS: usize = 3;

    fn tally(start: Tally, words: &[u32]) -> Tally {
        let e = identity_from(words);
        let after_ssi = start.element(24, e.ssi, 0);
        let after_present = after_ssi.element(1, e.present, 0);
        if e.present == 1 {
            return after_present.element(24, e.extension, 0);
        }
        after_present.unused(&words[2..3])
    }
}

// Only range type 9 has two ends.
impl Listed for Identity {
    ghost test = { range_ends };

    fn bits_alike(words: &[u32], n: usize) -> Option<usize> {
        if !are_alike(words, n) {
            return None;
        }
        Some(25 + 24 * (words[1] as usize))
    }

    fn ends(code: u32, words: &[u32]) -> u32 {
        if code != 9 {
            return 0;
        }
        let first = identity_from(words);
        let last = identity_from(&words[3..]);
        ends_refusal(first, last)
    }
}
