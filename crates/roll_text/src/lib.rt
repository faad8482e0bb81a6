// The printed roll of a text as bytes in lent memory: it is compiled, and then a line is written for each user and
// each role, or one line for a refusal.
#![tactic(auto)]

ghost use Rattle.policy.specs.Outcome.{of_text};
ghost use Rattle.roll_text.specs.PrintedText.{Prints};

// The memory of the table.
pub const TABLE_BYTES: usize = 65_536;

// Room for the longest roll: a first line of at most 36 bytes, and 256 lines of at most 97.
pub const ROLL_BYTES: usize = 32_768;

// Compiles a text in the lent table memory and writes what is to be printed; answers how many bytes that is. The
// table stays in its memory; after a refusal that memory is as it was.
pub fn write_roll(text: &[u8], table: &mut [u8; TABLE_BYTES], out: &mut [u8; ROLL_BYTES]) -> usize
    ensures { Prints (of_text text.now) table.old table.new out.old out.new result }
{
    let compiled = compiler::compile(text, table);
    match compiled {
        Ok(length) => roll_lines::put_roll(table, length, out),
        Err(refusal) => roll_lines::put_refusal(out, refusal),
    }
}
