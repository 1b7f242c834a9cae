// What the words of a record come to before anything is stored, part by part in the order of reading: whether all that its PDU does not
// carry is zero, the first refusal, and the length of the PDU.
#![tactic(auto)]

mod counted;
mod elements;
mod identities;
mod lists;
mod numbers;
mod services;

ghost use Rattle.std.specs.Prelude.{◌≡◌, length};
ghost use Rattle.grammar.specs.Grammar.{rest_of, from_record, pdu};
ghost use Rattle.grammar.specs.Rows.{figures_of, width_of};
ghost use Rattle.words.specs.RecordWords.{record_from};
ghost use Rattle.tally.specs.Tally.{nothing, Tallies, TalliesWords};
ghost use Rattle.tally.specs.Inner.{Fits};

use elements::first_refusal;
use grammar::figures::{figures_clean, figures_refusal, form_of, part_in};
use grammar::record::{Figures, Identities, Services};
use grammar::site::{PduType, SS_TYPE, kind_refusal, pdu_type};
use words::record::{RECORD_WORDS, figures_from};

// What the parts so far come to: all is zero that must be, the first refusal number or 0, and the length in bits.
// Each method counts one part more.
#[derive(Clone, Copy)]
pub struct Tally {
    pub clean: bool,
    pub refusal: u32,
    pub bits: usize,
}

impl Tally {
    // The figures of a type, so many bits of them.
    fn figures(self, kind: Option<PduType>, width: usize, figures: Figures) -> Tally
        requires { (width ≡ width_of kind) × Fits (figures_of kind) figures self }
        ensures { Tallies (figures_of kind) figures self result }
    {
        let zero = figures_clean(kind, figures);
        Tally {
            clean: self.clean && zero,
            refusal: first_refusal(self.refusal, figures_refusal(kind, figures)),
            bits: self.bits + width,
        }
    }

    // What follows the PDU type: the row of its table.
    fn rest(self, kind: Option<PduType>, words: &[u32]) -> Tally
        requires { (length words.now ≡ 520) × Fits (rest_of kind) (from_record (record_from words.now)).1 self }
        ensures { Tallies (rest_of kind) (from_record (record_from words.now)).1 self result }
    {
        let form = form_of(kind);
        let figures = figures_from(words);
        let after_users = self.part_if::<Identities>(form.users, &words[1..]);
        let after_figures = after_users.figures(kind, form.width, figures);
        let after_services = after_figures.part_if::<Services>(form.services, &words[29..]);
        after_services.part(part_in(kind, figures), &words[37..])
    }
}

// SS type, PDU type, and what follows them.
fn tally_record(words: &[u32]) -> Tally
    requires { length words.now ≡ 520 }
    ensures { Tallies pdu (record_from words.now) nothing result }
{
    let kind = words[0];
    let start = Tally {
        clean: true,
        refusal: 0,
        bits: 0,
    };
    let after_ss = start.element(6, SS_TYPE, 0);
    let after_kind = after_ss.element(5, kind, kind_refusal(kind));
    after_kind.rest(pdu_type(kind), words)
}

// The words of a record; words of another count are no record's.
pub fn tally_words(words: &[u32]) -> Tally
    ensures { TalliesWords words.now result }
{
    if words.len() != RECORD_WORDS {
        return Tally {
            clean: false,
            refusal: 0,
            bits: 0,
        };
    }
    tally_record(words)
}
