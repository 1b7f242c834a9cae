// Refusals of the calls on an archive: the number; of 7 the entry whose body is at fault; and the bit place in the PDU, or in that body.
ghost use Rattle.std.specs.Prelude.{◌≡◌};
ghost use Rattle.archive.specs.Refusals.{plain, of_pdu};

#[derive(Clone, Copy)]
pub struct Refusal {
    pub number: u32,
    pub entry: Option<usize>,
    pub place: Option<usize>,
}

impl Refusal {
    // A number, with no entry and no place.
    pub fn plain(number: u32) -> Refusal
        ensures { result ≡ plain number }
    {
        Refusal {
            number,
            entry: None,
            place: None,
        }
    }
}

// The walk's refusal of a PDU that is offered.
impl From<walk::Refusal> for Refusal {
    ghost from_gives = { λ refused refusal. refusal ≡ of_pdu refused };

    fn from(refused: walk::Refusal) -> Refusal {
        Refusal {
            number: refused.number,
            entry: None,
            place: refused.place,
        }
    }
}
