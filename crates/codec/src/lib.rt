// Reading a PDU element by element, left to right: each reader goes on from where the one before it stands, and passes its refusal on.
#![tactic(auto)]

ghost use Rattle.std.specs.Prelude.{◌≡◌};
ghost use Rattle.codec.specs.Reading.{resume, element_of, said, tested_is};

use bits::{BitCount, Cursor};

// Where reading stops: the refusal number, and the bit place of the element at fault.
#[derive(Clone, Copy)]
pub struct Stop {
    pub number: u32,
    pub at: usize,
}

// The number of `width` bits, 1 to 32, that stands next in the PDU of n bits in s, and the cursor after it; 2 if the PDU ends before or inside it.
pub fn number(
    s: &[u8],
    n: BitCount,
    start: Result<Cursor, Stop>,
    width: usize,
) -> Result<(u32, Cursor), Stop>
    ensures { result ≡ said (resume start (element_of s.now n.0 width)) }
{
    let at = start?;
    at.take(s, n, width).ok_or(Stop {
        number: 2,
        at: at.at,
    })
}

// A number that was read from `start` on, refused there with `refusal` unless that is 0.
pub fn tested(
    start: Result<Cursor, Stop>,
    read: Result<(u32, Cursor), Stop>,
    refusal: u32,
) -> Result<(u32, Cursor), Stop>
    ensures { result ≡ tested_is start read refusal }
{
    let at = start?;
    let found = read?;
    if refusal == 0 {
        return Ok(found);
    }
    Err(Stop {
        number: refusal,
        at: at.at,
    })
}
