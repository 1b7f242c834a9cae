// The identities of a list: each is a run of bits.
ghost use Rattle.std.specs.Prelude.{ℕ, ◌≤◌, ◌<◌, length};
ghost use Rattle.grammar.specs.Grammar.{identity, no_identity};
ghost use Rattle.words.specs.RecordWords.{identity_from};
ghost use Rattle.writer.specs.Inner.{Room, Puts, RunAfter, Ended};

use crate::elements::put_run;
use crate::lists::Entry;
use grammar::record::Identity;

// An identity as a run of bits, after a lead.
#[derive(Clone, Copy)]
struct Run {
    width: usize,
    bits: u64,
}

// A place, and a number that ends in the bits before it.
#[derive(Clone, Copy)]
struct Step {
    at: usize,
    last: u64,
}

// SSI, extension present, and the extension exactly if that is 1.
fn identity_run(lead: u64, words: &[u32]) -> Run
    requires { (lead < 256) × (3 ≤ length words.now) }
    ensures { (8 ≤ result.width) × (result.width ≤ 49) × RunAfter identity (identity_from words.now) lead result.width result.bits }
{
    let ssi = words[0];
    let present = words[1];
    let extension = words[2];
    let head = (lead * 16777216 + (ssi % 16777216) as u64) * 2 + (present % 2) as u64;
    if present == 1 {
        return Run {
            width: 49,
            bits: head * 16777216 + (extension % 16777216) as u64,
        };
    }
    Run {
        width: 25,
        bits: head,
    }
}

// The first identity of a list.
fn put_first(out: &mut [u8], at: usize, words: &[u32]) -> Step
    requires { (3 ≤ length words.now) × Room identity (identity_from words.now) out.old at }
    ensures { Puts identity (identity_from words.now) out.old out.new at result.at × Ended out.new result.at result.last }
{
    let run = identity_run(0, words);
    let last = run.bits;
    let end = put_run(out, at, run.width, last);
    Step { at: end, last }
}

// Another: from the byte on in which the one before it ends, whose last bits are put again. So no byte is read back that was just stored.
fn put_next(out: &mut [u8], step: Step, words: &[u32]) -> Step
    requires { (3 ≤ length words.now) × Ended out.old step.at step.last × Room identity (identity_from words.now) out.old step.at }
    ensures { Puts identity (identity_from words.now) out.old out.new step.at result.at × Ended out.new result.at result.last }
{
    let at = step.at;
    let again = at % 8;
    let run = identity_run(step.last % 256, words);
    let last = run.bits;
    let end = put_run(out, at - again, again + run.width, last);
    Step { at: end, last }
}

impl Entry for Identity {
    ghost WORDS = { 3 };

    ghost used = { identity };

    ghost unused = { no_identity };

    ghost among = { identity_from };

    ghost Small = { λ e. Unit {0} };

    fn put_entries(out: &mut [u8], at: usize, words: &[u32], n: usize) -> usize {
        if n == 0 {
            return at;
        }
        let mut step = put_first(out, at, words);
        for i in 1..n {
            step = put_next(out, step, &words[3 * i..]);
        }
        step.at
    }
}
