// The services: their number, and as many, all from one window.
ghost use Rattle.grammar.specs.Grammar.{services, no_services};
ghost use Rattle.reader.specs.Zeros.{no_services_zeros};

use crate::part::Part;
use crate::stores::{held, put_codes};
use bits::Cursor;
use grammar::record::Services;

// The number of services, the services, and zeros in the other places.
impl Part for Services {
    ghost part = { services };

    ghost none = { no_services };

    ghost zeros = { no_services_zeros };

    fn fill(s: &[u8], c: Cursor, words: &mut [u32]) -> Cursor {
        let at = c.at;
        let window = bits::window(s, at);
        let count = (window >> 54) as u32;
        let width = 3 * (count as usize);
        let list = held(window, 3, 21, width);
        let (of_services, codes) = words.split_first_mut().unwrap();
        *of_services = count;
        put_codes::<7, 3>(codes, list);
        Cursor { at: at + 3 + width }
    }
}
