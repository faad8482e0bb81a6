// Runs every function of `set_rows`, and `byte_slices::part` and `clear_at`, at several places of a table, and writes
// what each answers, a line for an answer.
#![tactic(auto)]

use std::io;
use std::io::Write;

// Offsets in a table of 24 bytes, widths there, and widths of its rows.
const PLACES: [usize; 6] = [0, 1, 3, 20, 24, 18446744073709551615];

// What the rows of the table gain.
const GAINED: [u8; 2] = [66, 2];

fn ask_part<W: Write>(out: &mut W, table: &[u8], o: usize, w: usize) -> io::Result<()> {
    set_show::line(out, b"part", o, w, byte_slices::part(table, o, w))?;
    set_show::yes_or_no(
        out,
        b"contains_at",
        o,
        w,
        set_rows::contains_at(table, o, w, 7),
    )?;
    if w < 65536 {
        set_show::how_many(out, b"count_at", o, w, set_rows::count_at(table, o, w))?;
    }
    Ok(())
}

fn compare_part<W: Write>(
    out: &mut W,
    table: &[u8],
    o: usize,
    w: usize,
    b: &[u8],
) -> io::Result<()> {
    let within = set_rows::is_within_at(table, o, w, 8);
    set_show::yes_or_no(out, b"is_within_at", o, w, within)?;
    set_show::yes_or_no(out, b"meets_at", o, w, set_rows::meets_at(table, o, w, b))?;
    set_show::yes_or_no(out, b"equal_at", o, w, set_rows::equal_at(table, o, w, b))
}

// What a change, which may read a set of its own, makes of the table.
fn change<W: Write, F: FnOnce(&mut [u8], &[u8])>(
    out: &mut W,
    name: &[u8],
    o: usize,
    w: usize,
    table: &mut [u8],
    b: &mut [u8],
    change: F,
) -> io::Result<()>
    requires { F.IsAlwaysCallable change }
{
    set_show::first(table);
    set_show::second(b);
    change(table, b);
    set_show::line(out, name, o, w, table)
}

fn place<W: Write>(
    out: &mut W,
    table: &mut [u8],
    o: usize,
    w: usize,
    b: &mut [u8],
) -> io::Result<()> {
    change(out, b"insert_at", o, w, table, b, |t, _| {
        set_rows::insert_at(t, o, w, 9);
    })?;
    change(out, b"remove_at", o, w, table, b, |t, _| {
        set_rows::remove_at(t, o, w, 7);
    })?;
    change(out, b"clear_at", o, w, table, b, |t, _| {
        bitset::clear_at(t, o, w);
    })?;
    change(out, b"union_at", o, w, table, b, |t, s| {
        set_rows::union_at(t, o, w, s);
    })?;
    change(out, b"copy_at", o, w, table, b, |t, s| {
        set_rows::copy_at(t, o, w, s);
    })?;
    read(out, table, o, w, b)?;
    change(out, b"grant", 0, w, table, b, |t, s| {
        set_rows::grant(t, s, &GAINED, w);
    })?;
    change(out, b"grant_at", o, w, table, b, |t, s| {
        set_rows::grant_at(t, o, 13, s, &GAINED, w);
    })
}

// What the set of its own becomes.
fn read<W: Write>(
    out: &mut W,
    table: &mut [u8],
    o: usize,
    w: usize,
    b: &mut [u8],
) -> io::Result<()> {
    set_show::first(table);
    set_show::second(b);
    set_rows::read_at(b, table, o, w);
    set_show::line(out, b"read_at", o, w, b)
}

fn places<W: Write>(out: &mut W, table: &mut [u8], b: &mut [u8], o: usize) -> io::Result<()> {
    for w in PLACES {
        place(out, table, o, w, b)?;
        set_show::first(table);
        set_show::second(b);
        ask_part(out, table, o, w)?;
        compare_part(out, table, o, w, b)?;
    }
    Ok(())
}

fn tables<W: Write>(out: &mut W, table: &mut [u8], b: &mut [u8]) -> io::Result<()> {
    for o in PLACES {
        places(out, table, b, o)?;
    }
    Ok(())
}

fn main(rt: HostRuntime) -> io::Result<()> {
    let mut out = rt.stdout();
    let mut table = [0u8; 24];
    let mut few = [0u8; 2];
    tables(&mut out, &mut table, &mut few)?;
    out.flush()
}
