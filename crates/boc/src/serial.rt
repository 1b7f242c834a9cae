// The calls for C about terminals on the serial port: a table of profiles that is lent, and lines that change it or ask for it.
ghost use Rattle.std.specs.Prelude.{◌≡◌, length};
ghost use Rattle.terminals.specs.Profiles.{reset_is, reset_out};
ghost use Rattle.terminals.specs.Answers.{table_after, out_after};
ghost use Rattle.boc.specs.Serial.{returned, line_answer, line_length};

// Sets every place of a table to the profile "both".
pub fn boc_terminal_reset(table: &mut [u8]) -> u32
    ensures value { result ≡ returned (reset_is (length table.old)) }
    ensures table_after { table.new ≡ reset_out table.old }
{
    match terminals::reset(table) {
        Ok(()) => 0,
        Err(refusal) => u32::from(refusal),
    }
}

// Takes a line: a set line changes the table, the read form writes to `out`; the text's length in bytes goes to `length`.
pub fn boc_terminal_line(line: &[u8], table: &mut [u8], out: &mut [u8], length: &mut usize) -> u32
    ensures value { result ≡ returned (line_answer line.now table.old out.old) }
    ensures table_after { table.new ≡ table_after line.now table.old }
    ensures out_after { out.new ≡ out_after line.now table.old out.old }
    ensures length_after { length.new
        ≡ line_length (line_answer line.now table.old out.old) length.old }
{
    match terminals::take(line, table, out) {
        Ok(bytes) => {
            *length = bytes;
            0
        },
        Err(refusal) => u32::from(refusal),
    }
}
