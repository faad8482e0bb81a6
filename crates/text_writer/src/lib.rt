// Bytes and decimal numbers, written one after the other into lent memory.
#![tactic(auto)]

ghost use Rattle.std.specs.Prelude.{◌+◌, ◌≤◌, length};
ghost use Rattle.policy.specs.Roll.{digits, decimal};
ghost use Rattle.text_writer.specs.WrittenText.{Appends};

// The most decimal digits of a usize.
pub const MAX_DIGITS: usize = 20;

// Writes the bytes at a place, and answers the place after them.
pub fn put_bytes(out: &mut [u8], at: usize, bytes: &[u8]) -> usize
    requires { at + length bytes.now ≤ length out.old }
    ensures { Appends out.old at bytes.now out.new result }
{
    let past = at + bytes.len();
    out[at..past].copy_from_slice(bytes);
    past
}

// Writes a number in decimal digits, at most so many; it calls itself on all digits but the last.
fn put_digits(out: &mut [u8], at: usize, n: usize, most: usize) -> usize
    requires { at + most ≤ length out.old }
    ensures { Appends out.old at (digits most n) out.new result }
{
    if most == 0 {
        return at;
    }
    if n < 10 {
        out[at] = (48 + n) as u8;
        return at + 1;
    }
    let last = put_digits(out, at, n / 10, most - 1);
    out[last] = (48 + n % 10) as u8;
    last + 1
}

// Writes a number in decimal digits, and answers the place after them.
pub fn put_decimal(out: &mut [u8], at: usize, n: usize) -> usize
    requires { at + 20 ≤ length out.old }
    ensures { Appends out.old at (decimal n) out.new result }
{
    put_digits(out, at, n, MAX_DIGITS)
}
