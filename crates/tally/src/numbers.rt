// What external numbers among the words come to: their digits, and one of those of a range type.
ghost use Rattle.std.specs.Prelude.{◌≡◌, ◌≤◌, length, take};
ghost use Rattle.codec.specs.Parts.{absent, element};
ghost use Rattle.codec.specs.Places.{places};
ghost use Rattle.grammar.specs.SiteSheet.{digit_refusal};
ghost use Rattle.grammar.specs.Grammar.{external, no_external};
ghost use Rattle.words.specs.RecordWords.{narrow, narrowed, number_from};
ghost use Rattle.tally.specs.Tally.{Tallies};
ghost use Rattle.tally.specs.Inner.{Fits, none_above};

use crate::Tally;
use crate::counted::Counted;
use crate::elements::{first_refusal, none_above, refusal_unless};
use crate::lists::Listed;
use bits::DigitCount;
use grammar::record::Number;
use grammar::site::between_refusal;

// Whether none of the first `used` of 24 digits is above 12. All are tested first: a fixed number of turns is quicker, and zeros pass too.
fn are_legal(words: &[u32], used: usize) -> bool
    requires { (24 ≤ length words.now) × (used ≤ 24) }
    ensures { result ≡ none_above 12 (take used words.now) }
{
    if none_above(&words[..24], 12) {
        return true;
    }
    none_above(&words[..used], 12)
}

impl Tally {
    // The first n of 24 digits are used: none is above 12, and zeros stand after them.
    fn digits(self, words: &[u32], n: usize) -> Tally
        requires { (24 ≤ length words.now) × Fits (places (element 4 digit_refusal) absent 24 (narrow n)) (narrowed (take 24 words.now)) self }
        ensures { Tallies (places (element 4 digit_refusal) absent 24 (narrow n)) (narrowed (take 24 words.now)) self result }
    {
        let used = n.min(24);
        let legal = are_legal(words, used);
        let unused = none_above(&words[used..24], 0);
        Tally {
            clean: self.clean && unused,
            refusal: first_refusal(self.refusal, refusal_unless(legal)),
            bits: self.bits + DigitCount(used as u8).bits().0,
        }
    }
}

// The length, and as many digits.
impl Counted for Number {
    ghost WORDS = { 25 };

    ghost used = { external };

    ghost unused = { no_external };

    ghost among = { number_from };

    const WORDS: usize = 25;

    fn tally(start: Tally, words: &[u32]) -> Tally {
        let count = words[0];
        let after_length = start.element(5, count, between_refusal(1, 24, count));
        after_length.digits(&words[1..], count as usize)
    }
}

// Each is counted by itself, and no two of them are ends of a range.
impl Listed for Number {
    ghost test = { λ code entries. 0 };

    fn bits_alike(words: &[u32], n: usize) -> Option<usize> {
        None
    }

    fn ends(code: u32, words: &[u32]) -> u32 {
        0
    }
}
