// The text of the read form: the places off the default, rising, each on a line. What writes a part of it returns the place after that part,
// which is laid where there is room for it.
ghost use Rattle.std.specs.Prelude.{◌≡◌, ◌+◌, ◌≤◌, ◌<◌, length};
ghost use Rattle.bits.specs.Inner.{Laid};
ghost use Rattle.terminals.specs.Layers.{places};
ghost use Rattle.terminals.specs.Reading.{place_text, line_text, lines_text, text_of};

use crate::layers;
use crate::layers::Place;
use crate::profiles::BOTH;
use text::write_item;

// What stands before the first line.
pub(crate) const LEAD: &[u8] = b"+CTSP: ";

// Writes the layer and the third field of a place, and ends the line.
fn write_place(out: &mut [u8], at: usize, place: Place) -> usize
    ensures { at + length (place_text place.layer place.third) ≤ length out.old
        → Laid out.old at (place_text place.layer place.third) out.new result }
{
    let Some(value) = place.third else {
        return write_item(out, at, place.layer, b"\r\n");
    };
    let value_at = write_item(out, at, place.layer, b",");
    write_item(out, value_at, value, b"\r\n")
}

// Writes the line of a place, if it is off the default.
fn write_line(out: &mut [u8], at: usize, profile: u8, place: Place) -> usize
    ensures { at + length (line_text profile place) ≤ length out.old
        → Laid out.old at (line_text profile place) out.new result }
{
    if profile == BOTH {
        return at;
    }
    let layer_at = write_item(out, at, profile as usize, b",");
    write_place(out, layer_at, place)
}

// Writes the lines of all places.
fn write_lines(table: &[u8], out: &mut [u8], start: usize) -> usize
    requires { length table.now ≡ 269 }
    ensures { start + length (lines_text places table.now) ≤ length out.old
        → Laid out.old start (lines_text places table.now) out.new result }
{
    let mut at = start;
    for (index, profile) in table.iter().enumerate() {
        at = write_line(out, at, *profile, layers::place_at(index));
    }
    at
}

// The length of a place's line.
fn line_length(profile: u8, place: Place) -> usize
    ensures { (result ≡ length (line_text profile place)) × (result ≤ 64) }
{
    if profile == BOTH {
        return 0;
    }
    let start = text::digits_of(profile as usize) + 1 + text::digits_of(place.layer) + 2;
    match place.third {
        Some(value) => start + 1 + text::digits_of(value),
        None => start,
    }
}

// The length of all lines.
pub(crate) fn lines_length(table: &[u8]) -> usize
    requires { length table.now ≡ 269 }
    ensures { (result ≡ length (lines_text places table.now)) × (result ≤ 17216) }
{
    let mut size = 0;
    for (index, profile) in table.iter().enumerate() {
        size += line_length(*profile, layers::place_at(index));
    }
    size
}

// Writes the whole text, if there is one.
pub(crate) fn write_text(table: &[u8], out: &mut [u8]) -> usize
    requires { (length table.now ≡ 269) × (0 < length (lines_text places table.now)) }
    ensures { 0 + length (text_of table.now) ≤ length out.old → Laid out.old 0 (text_of table.now) out.new result }
{
    let at = text::append(out, 0, LEAD);
    write_lines(table, out, at)
}
