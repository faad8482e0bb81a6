// Runs every function of `bitset` and `set_operators` on sets of several widths, and writes what each answers, a line
// for an answer.
#![tactic(auto)]

use std::io;
use std::io::Write;

// Numbers at the ends of bytes and of sets of 1, 2, 16 and 64 bytes, and past them.
const NUMBERS: [usize; 12] = [
    0,
    1,
    7,
    8,
    15,
    63,
    64,
    101,
    128,
    511,
    512,
    18446744073709551615,
];

const WIDTHS: [usize; 5] = [0, 1, 2, 16, 64];

// ---- a set and a number

fn ask_number<W: Write>(out: &mut W, set: &[u8], n: usize) -> io::Result<()> {
    set_show::yes_or_no(out, b"contains", set.len(), n, bitset::contains(set, n))?;
    set_show::yes_or_no(out, b"is_within", set.len(), n, bitset::is_within(set, n))
}

// What a change makes of the first set.
fn change_number<W: Write, F: FnOnce(&mut [u8])>(
    out: &mut W,
    name: &[u8],
    set: &mut [u8],
    n: usize,
    change: F,
) -> io::Result<()>
    requires { F.IsAlwaysCallable change }
{
    set_show::first(set);
    change(set);
    set_show::line(out, name, set.len(), n, set)
}

fn numbers<W: Write>(out: &mut W, set: &mut [u8]) -> io::Result<()> {
    for n in NUMBERS {
        change_number(out, b"insert", set, n, |s| bitset::insert(s, n))?;
        change_number(out, b"remove", set, n, |s| bitset::remove(s, n))?;
        change_number(out, b"complement", set, n, |s| bitset::complement(s, n))?;
        ask_number(out, set, n)?;
        set_show::first(set);
        ask_number(out, set, n)?;
    }
    Ok(())
}

// ---- two sets

// A set is counted where its count is sure to be a usize.
fn ask_other<W: Write>(out: &mut W, a: &[u8], b: &[u8]) -> io::Result<()> {
    set_show::yes_or_no(out, b"meets", a.len(), b.len(), set_operators::meets(a, b))?;
    set_show::yes_or_no(out, b"equal", a.len(), b.len(), set_operators::equal(a, b))?;
    if a.len() < 65536 {
        set_show::how_many(out, b"count", a.len(), b.len(), bitset::count(a))?;
    }
    Ok(())
}

// What a change makes of the first set, and what is asked of the two before and after it.
fn change_other<W: Write, F: FnOnce(&mut [u8], &[u8]) + Drop>(
    out: &mut W,
    name: &[u8],
    a: &mut [u8],
    b: &[u8],
    change: F,
) -> io::Result<()>
    requires { F.IsAlwaysCallable change }
{
    set_show::first(a);
    ask_other(out, a, b)?;
    change(a, b);
    set_show::line(out, name, a.len(), b.len(), a)?;
    ask_other(out, a, b)
}

fn pair<W: Write>(out: &mut W, a: &mut [u8], b: &[u8]) -> io::Result<()> {
    change_other(out, b"union", a, b, set_operators::union)?;
    change_other(out, b"intersection", a, b, set_operators::intersection)?;
    change_other(out, b"exclusive_or", a, b, set_operators::exclusive_or)?;
    change_other(out, b"difference", a, b, set_operators::difference)?;
    change_other(out, b"copy", a, b, set_operators::copy)
}

fn pairs<W: Write>(out: &mut W, a: &mut [u8], space: &mut [u8]) -> io::Result<()> {
    numbers(out, a)?;
    for w in WIDTHS {
        if space.len() < w {
            return Ok(());
        }
        set_show::second(&mut space[0..w]);
        pair(out, a, &space[0..w])?;
    }
    Ok(())
}

fn sets<W: Write>(out: &mut W, space: &mut [u8], other: &mut [u8]) -> io::Result<()> {
    for w in WIDTHS {
        if space.len() < w {
            return Ok(());
        }
        pairs(out, &mut space[0..w], other)?;
    }
    Ok(())
}

// Role number 64 is bit 0 of byte 8: this follows from the contract of `insert`.
fn role_64() {
    let mut roles = [0u8; 16];
    bitset::insert(&mut roles, 64);
    prove!(roles[8] == 1);
    prove!(roles[0] == 0);
}

fn main(rt: HostRuntime) -> io::Result<()> {
    role_64();
    let mut out = rt.stdout();
    let mut a = [0u8; 64];
    let mut b = [0u8; 64];
    sets(&mut out, &mut a, &mut b)?;
    out.flush()
}
