// What services among the words come to: their number with as many of them.
ghost use Rattle.codec.specs.Parts.{absent, element};
ghost use Rattle.grammar.specs.SiteSheet.{service_refusal};
ghost use Rattle.grammar.specs.Grammar.{services, no_services};
ghost use Rattle.words.specs.RecordWords.{word, services_from};

use crate::Tally;
use crate::counted::Counted;
use grammar::record::Services;
use grammar::site::{between_refusal, service_refusal};

// A service is its code alone.
impl Counted for u32 {
    ghost WORDS = { 1 };

    ghost used = { element 3 service_refusal };

    ghost unused = { absent };

    ghost among = { λ words. word words 0 };

    const WORDS: usize = 1;

    fn tally(start: Tally, words: &[u32]) -> Tally {
        let service = words[0];
        start.element(3, service, service_refusal(service))
    }
}

// The number of services, and as many services.
impl Counted for Services {
    ghost WORDS = { 8 };

    ghost used = { services };

    ghost unused = { no_services };

    ghost among = { services_from };

    const WORDS: usize = 8;

    fn tally(start: Tally, words: &[u32]) -> Tally {
        let count = words[0];
        let used = (count as usize).min(7);
        let after_count = start.element(3, count, between_refusal(1, 7, count));
        after_count.entries::<u32, 7>(&words[1..], used)
    }
}
