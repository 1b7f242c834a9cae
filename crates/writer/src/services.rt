// Services, in one run with what stands before them.
ghost use Rattle.std.specs.Prelude.{◌≡◌, ℕ, ◌^◌, ◌≤◌, ◌<◌, length};
ghost use Rattle.codec.specs.Parts.{number, seq};
ghost use Rattle.grammar.specs.Grammar.{services};
ghost use Rattle.words.specs.RecordWords.{services_from};
ghost use Rattle.writer.specs.Inner.{Room, Puts, CodesAfter};

use crate::elements::put_run;

// A number, and codes after it, each below `scale`.
fn with_codes(start: u64, codes: &[u32], scale: u64) -> u64
    requires { (start < 256) × (1 ≤ scale) × (scale ≤ 16) × (length codes.now ≤ 12) }
    ensures { (w : ℕ) → scale ≡ 2 ^ w → CodesAfter w (length codes.now) start codes.now result }
{
    let mut run = start;
    for code in codes {
        run = run * scale + (*code as u64) % scale;
    }
    run
}

// The low bits of a lead, up to five; the number of services, and as many services: one run.
pub(crate) fn put_services(
    out: &mut [u8],
    at: usize,
    lead: u32,
    width: usize,
    words: &[u32],
) -> usize
    requires { (lead < 32) × (width ≤ 5) × (8 ≤ length words.now) × Room (seq (number width) (λ x. services)) (lead, services_from words.now) out.old at }
    ensures { Puts (seq (number width) (λ x. services)) (lead, services_from words.now) out.old out.new at result }
{
    let count = words[0];
    let used_bits = 3 * (count as usize).min(7);
    let start = (lead * 8 + count % 8) as u64;
    let run = with_codes(start, &words[1..8], 8) >> (21 - used_bits);
    put_run(out, at, width + 3 + used_bits, run)
}
