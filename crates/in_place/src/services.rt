// The call's service looked for among the services of a part.
ghost use Rattle.bits.specs.Bits.{bits};
ghost use Rattle.grammar.specs.Grammar.{services};
ghost use Rattle.rules.specs.Matching.{covered};
ghost use Rattle.in_place.specs.Inner.{Walkable, Says};

use crate::Passed;

// Whether a part lists service 0 or this service: their number and all of them stand in one window.
pub(crate) fn services_at(s: &[u8], at: usize, service: u32) -> Passed
    requires { Walkable services s.now at }
    ensures { Says services (λ l. covered l service) (bits s.now) at result.has result.end }
{
    let window = bits::window(s, at);
    let count = (window >> 54u32) as usize;
    let end = at + 3 + 3 * count;
    for i in 0..count {
        if rules::is_covering(((window >> (51 - 3 * i)) % 8) as u32, service) {
            return Passed { has: true, end };
        }
    }
    Passed { has: false, end }
}
