// The lines: `AT+CTSP=` and 2 to 4 decimal fields, or `AT+CTSP?`, and a CR.
ghost use Rattle.std.specs.Prelude.{◌≡◌};
ghost use Rattle.terminals.specs.Lines.{ends_at, next_field, third_from, set_from, line_of};

// The fields of a set line. A fourth one is refused whatever it says.
#[derive(Clone, Copy)]
pub struct Fields {
    pub profile: usize,
    pub layer: usize,
    pub third: Option<usize>,
    pub fourth: bool,
}

// What a line says.
#[derive(Clone, Copy)]
pub enum Line {
    Read,
    Set(Fields),
}

// The line of the read form, the word of a set line, and the end of a line.
const READ: &[u8] = b"AT+CTSP?\r";

const SET: &[u8] = b"AT+CTSP=";

const END: &[u8] = b"\r";

// Most digits of a field.
const DIGITS: usize = 3;

// Whether a CR stands at a place, and nothing after it.
#[tactic(auto, using(crate::proofs::Bytes::end_over), unfolding(crate::specs::Lines::ends_at))]
fn ends_at(line: &[u8], at: usize) -> bool
    ensures { result ≡ ends_at line.now at }
{
    at < line.len() && &line[at..] == END
}

// The field after a comma.
#[tactic(auto, using(crate::proofs::Bytes::comma_at, crate::proofs::Bytes::comma_over), unfolding(crate::specs::Lines::next_field))]
fn next_field(line: &[u8], at: usize) -> Option<(u32, usize)>
    ensures { result ≡ next_field line.now at }
{
    if *line.get(at)? != b',' {
        return None;
    }
    text::field_at(line, at + 1, DIGITS)
}

// What a set line says whose first two fields end at a place, and that goes on.
#[tactic(auto, unfolding(crate::specs::Lines::third_from, crate::specs::Lines::last_from))]
fn third_from(line: &[u8], profile: usize, layer: usize, at: usize) -> Option<Fields>
    ensures { result ≡ third_from line.now profile layer at }
{
    let (third, third_end) = next_field(line, at)?;
    if ends_at(line, third_end) {
        return Some(Fields {
            profile,
            layer,
            third: Some(third as usize),
            fourth: false,
        });
    }
    let (_, end) = next_field(line, third_end)?;
    if !ends_at(line, end) {
        return None;
    }
    Some(Fields {
        profile,
        layer,
        third: Some(third as usize),
        fourth: true,
    })
}

// What a line says that begins with `AT+CTSP=`.
#[tactic(auto, unfolding(crate::specs::Lines::set_from))]
fn set_from(line: &[u8]) -> Option<Fields>
    ensures { result ≡ set_from line.now }
{
    let (profile, profile_end) = text::field_at(line, SET.len(), DIGITS)?;
    let (layer, layer_end) = next_field(line, profile_end)?;
    if ends_at(line, layer_end) {
        return Some(Fields {
            profile: profile as usize,
            layer: layer as usize,
            third: None,
            fourth: false,
        });
    }
    third_from(line, profile as usize, layer as usize, layer_end)
}

// What a line says, if it says anything.
#[tactic(auto, unfolding(crate::specs::Lines::line_of))]
pub(crate) fn line_of(line: &[u8]) -> Option<Line>
    ensures { result ≡ line_of line.now }
{
    if line == READ {
        return Some(Line::Read);
    }
    if !line.starts_with(SET) {
        return None;
    }
    set_from(line).map(Line::Set)
}
