// What elements come to: one that the PDU carries, and words that it does not.
ghost use Rattle.std.specs.Prelude.{◌≡◌, ◌&&◌, ◌+◌, ◌≤◌};
ghost use Rattle.bits.specs.Bits.{pick};
ghost use Rattle.codec.specs.Codec.{first};
ghost use Rattle.codec.specs.Parts.{number_fault, element};
ghost use Rattle.tally.specs.Tally.{Tallies};
ghost use Rattle.tally.specs.Inner.{none_above, Skips};

use crate::Tally;

// The refusal number of a value by its width: one wider than its element is refused.
fn width_refusal(width: usize, value: u32) -> u32
    requires { width ≤ 24 }
    ensures { result ≡ number_fault width value }
{
    if value >> width == 0 { 0 } else { 3 }
}

// The first of two refusal numbers, where 0 is none.
pub(crate) fn first_refusal(a: u32, b: u32) -> u32
    ensures { result ≡ first a b }
{
    if a == 0 { b } else { a }
}

// 3 unless a value is legal.
pub(crate) fn refusal_unless(legal: bool) -> u32
    ensures { result ≡ pick legal 0 3 }
{
    if legal { 0 } else { 3 }
}

// Whether no word is above `most`. A loop that tests all of them is quicker than one that stops.
pub(crate) fn none_above(words: &[u32], most: u32) -> bool
    ensures { result ≡ none_above most words.now }
{
    let mut none = true;
    for word in words {
        if most < *word {
            none = false;
        }
    }
    none
}

impl Tally {
    // An element whose value has the refusal number `refusal`.
    pub(crate) fn element(self, width: usize, value: u32, refusal: u32) -> Tally
        requires { (width ≤ 24) × (self.bits + width ≤ 4096) }
        ensures { Tallies (element width (λ v. refusal)) value self result }
    {
        let own = first_refusal(width_refusal(width, value), refusal);
        Tally {
            refusal: first_refusal(self.refusal, own),
            bits: self.bits + width,
            ..self
        }
    }

    // Words that the PDU does not carry.
    pub(crate) fn unused(self, words: &[u32]) -> Tally
        ensures { Skips words.now self result }
    {
        let zero = none_above(words, 0);
        Tally {
            clean: self.clean && zero,
            ..self
        }
    }
}
