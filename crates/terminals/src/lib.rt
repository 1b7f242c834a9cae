// Terminals on the serial port: +CTSP lines are read, and a table of service profiles is kept by them (document 02, request 2026-10; EN 300 392-5,
// clause 6.14.4).
#![tactic(auto)]

mod layers;
mod lines;
mod profiles;
mod reading;

ghost use Rattle.std.specs.Prelude.{◌≡◌, true, length};
ghost use Rattle.terminals.specs.Profiles.{is_table, reset_is, reset_out, settles, set_line};
ghost use Rattle.terminals.specs.Answers.{read_is, read_out, line_is, table_after, out_after};
ghost use Rattle.terminals.specs.Refusals.{refusal_number};

use lines::{Fields, Line};

// Why a line, or a table, is refused; with its number.
#[derive(Clone, Copy, PartialEq, Eq)]
pub enum Refusal {
    NoRoom = 8,
    NoTable = 9,
    NoLine = 15,
    BadValue = 16,
    SurplusField = 17,
}

impl From<Refusal> for u32 {
    ghost from_gives = { λ refusal number. number ≡ refusal_number refusal };

    fn from(refusal: Refusal) -> u32 {
        refusal as u32
    }
}

// Sets every place to the profile "both", or refuses a table of another length.
#[tactic(auto, unfolding(crate::specs::Profiles::reset_is, crate::specs::Profiles::reset_out))]
pub fn reset(table: &mut [u8]) -> Result<(), Refusal>
    ensures value { result ≡ reset_is (length table.old) }
    ensures table_after { table.new ≡ reset_out table.old }
{
    if table.len() != layers::PLACES {
        return Err(Refusal::NoTable);
    }
    table.fill(profiles::BOTH);
    Ok(())
}

// A set line: stores the profile in the places that it names, or refuses its fields.
#[tactic(auto, using(crate::proofs::Storing::table_length), unfolding(crate::specs::Profiles::settles, crate::specs::Profiles::set_line))]
fn set(fields: Fields, table: &mut [u8]) -> Result<usize, Refusal>
    requires { is_table table.old ≡ true }
    ensures value { result ≡ settles fields }
    ensures table_after { table.new ≡ set_line fields table.old }
{
    profiles::refusal(fields)?;
    profiles::store(fields, table);
    Ok(0)
}

// The read form: writes the text of the table, or refuses a short buffer.
#[tactic(auto, using(crate::proofs::Storing::table_length))]
fn read(table: &[u8], out: &mut [u8]) -> Result<usize, Refusal>
    requires { is_table table.now ≡ true }
    ensures value { result ≡ read_is table.now (length out.old) }
    ensures out_after { out.new ≡ read_out table.now out.old }
{
    let lines = reading::lines_length(table);
    if lines == 0 {
        return Ok(0);
    }
    if out.len() < reading::LEAD.len() + lines {
        return Err(Refusal::NoRoom);
    }
    Ok(reading::write_text(table, out))
}

// Takes a line: a set line changes the table, the read form writes to the lent buffer. Returns the length in bytes of the text that was
// written, or a refusal.
#[tactic(auto, unfolding(crate::specs::Answers::line_is, crate::specs::Answers::table_after, crate::specs::Answers::out_after))]
pub fn take(line: &[u8], table: &mut [u8], out: &mut [u8]) -> Result<usize, Refusal>
    ensures value { result ≡ line_is line.now table.old (length out.old) }
    ensures table_after { table.new ≡ table_after line.now table.old }
    ensures out_after { out.new ≡ out_after line.now table.old out.old }
{
    if !profiles::is_table(table) {
        return Err(Refusal::NoTable);
    }
    match lines::line_of(line).ok_or(Refusal::NoLine)? {
        Line::Set(fields) => set(fields, table),
        Line::Read => read(table, out),
    }
}
