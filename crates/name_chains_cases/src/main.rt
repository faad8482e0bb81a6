// Looks names up among the entries of sections on standard input, by their chains and by a walk of the section, and
// writes a line for each: what was found, and how many entries were compared. A case is the length of a section and
// the section, laid out as section 1 of a table; then the number of tries, and for each its family, the length of the
// name and the name. Numbers have 4 bytes, little endian. The corpus ends with the input, or with a case that is cut
// short or longer than the memory here.
#![tactic(auto)]

ghost use Rattle.std.specs.Prelude.{◌≡◌, length};

use name_chains::Tried;
use name_index::SYMBOL_BYTES;
use std::io;
use std::io::{Read, Write};
use symbols::{Entry, Symbol};

// The greatest length of a name that is looked up: some more than a name may have.
const NAME_MAX: usize = 2 * lexer::Name::MAX;

const PERMISSION: usize = 7;

// Enters the entries of a section into the chains, in their order, as the compiler does with what a text declares.
fn enter_all(section: &[u8], symbols: &mut [u8; SYMBOL_BYTES])
    ensures { length symbols.new ≡ length symbols.old }
{
    name_chains::clear(symbols);
    let mut at: usize = 0;
    let mut end: usize = 0;
    loop {
        let entry = symbols::next_entry(section, at, section.len());
        let Entry::Named { sort, number, past } = entry else {
            return;
        };
        let len = past - at - 4;
        if PERMISSION < sort {
            return;
        }
        if lexer::Name::MAX < len {
            return;
        }
        if symbols::NAME_BYTES < end + 4 + len {
            return;
        }
        end = name_chains::enter(symbols, end, sort, number, section, at + 4, len);
        at = past;
    }
}

// `chains found 1 2 compared 3` or `section missing compared 0`.
fn show<W: Write>(out: &mut W, way: &str, tried: Tried) -> io::Result<()> {
    let compared = tried.compared;
    match tried.found {
        Some(Symbol { sort, number }) => {
            writeln!(out, "{way} found {sort} {number} compared {compared}")
        }
        None => writeln!(out, "{way} missing compared {compared}"),
    }
}

// Reads a name of that length and looks it up both ways; answers whether there was one.
fn look_up<R: Read, W: Write>(
    input: &mut R,
    out: &mut W,
    section: &[u8],
    symbols: &[u8; SYMBOL_BYTES],
    family: usize,
    names: &mut [u8],
    len: usize,
) -> io::Result<bool>
    ensures { length names.new ≡ length names.old }
{
    if names.len() < len {
        return Ok(false);
    }
    let name = &mut names[..len];
    if !corpus::fill(input, name)? {
        return Ok(false);
    }
    show(out, "chains", name_chains::find(symbols, family, name))?;
    let walked = name_chains::find_in_section(section, 0, section.len(), family, name);
    show(out, "section", walked)?;
    Ok(true)
}

// Reads the tries after a section and shows them; answers whether there were as many.
fn tries<R: Read, W: Write>(
    input: &mut R,
    out: &mut W,
    section: &[u8],
    symbols: &[u8; SYMBOL_BYTES],
) -> io::Result<bool> {
    let Some(count) = corpus::length(input)? else {
        return Ok(false);
    };
    let mut names = [0u8; NAME_MAX];
    for _ in 0..count {
        let Some(family) = corpus::length(input)? else {
            return Ok(false);
        };
        let Some(len) = corpus::length(input)? else {
            return Ok(false);
        };
        if !look_up(input, out, section, symbols, family, &mut names, len)? {
            return Ok(false);
        }
    }
    Ok(true)
}

fn main(rt: HostRuntime) -> io::Result<()> {
    let mut sections = [0u8; symbols::NAME_BYTES];
    let mut symbols = [0u8; SYMBOL_BYTES];
    corpus::each_case(
        &mut rt.stdin(),
        &mut rt.stdout(),
        &mut sections,
        |input, out, section| {
            enter_all(section, &mut symbols);
            tries(input, out, section, &symbols)
        },
    )
}
