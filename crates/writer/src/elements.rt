// Elements and other runs of bits, put one after another.
ghost use Rattle.std.specs.Prelude.{◌≤◌};
ghost use Rattle.codec.specs.Parts.{number};
ghost use Rattle.writer.specs.Inner.{Room, Puts};

// Puts a run of up to 57 bits, the low ones of a number, at a place, and gives the next place, as each function that puts does. Of the bits
// after it nothing is said.
pub(crate) fn put_run(out: &mut [u8], at: usize, width: usize, run: u64) -> usize
    requires { (width ≤ 57) × Room (number width) run out.old at }
    ensures { Puts (number width) run out.old out.new at result }
{
    bits::lay(out, at, width, run);
    at + width
}

pub(crate) fn put_element(out: &mut [u8], at: usize, width: usize, value: u32) -> usize
    requires { (width ≤ 32) × Room (number width) value out.old at }
    ensures { Puts (number width) value out.old out.new at result }
{
    put_run(out, at, width, value as u64)
}
