// From a clean text to its statements: symbols, statement code, constraints and rows in lent memory, or the first
// fault 3 to 7 with its place. Blocks leave nothing in that memory but the full names of what is declared in them.
#![tactic(auto)]

ghost use Rattle.std.specs.Prelude.{◌≡◌, ◌&&◌, leb, length, ℕ, ◌<◌};
ghost use Rattle.items.specs.Looks.{item_at};
ghost use Rattle.statement_reader.specs.Memory.{memory};
ghost use Rattle.parser.specs.Parses.{Parses, ParsesCleared};
ghost use Rattle.parser.specs.Parts.{States, Enters, place_after};
ghost use Rattle.parser.specs.Runs.{Runs, ParsesAfter};
ghost use Rattle.statement_reader.specs.Steps.{nothing_read};

use block_reader::{BLOCKS, FILTER, OpenBlocks};
use declarations::SYMBOL_BYTES;
use items::Item;
use lexer::Text;
use policy::{Fault, FaultAt};
use statement_reader::{CODE_UNITS, Progress, RECORD_BYTES, ROW_BYTES};

// A statement that is read: the place after it, and the progress with it.
#[derive(Clone, Copy)]
struct Stated {
    past: usize,
    progress: Progress,
}

// A block that is opened: the place after its name, and the blocks that are open then.
#[derive(Clone, Copy)]
struct Entered {
    inside: usize,
    blocks: OpenBlocks,
}

// What comes after a run of statements: a block, by its place and the place after the word `block`; the close of a
// block, by the place after it; or the end.
#[derive(Clone, Copy)]
enum Run {
    Block {
        place: usize,
        at: usize,
        progress: Progress,
    },
    Close {
        next: usize,
        progress: Progress,
    },
    End(Progress),
}

// The unit of a place: no place of a clean text is too great for one.
fn place_unit(place: usize) -> u16
    ensures { place < 65536 → result ≡ place }
{
    if Text::MAX < place {
        return 0;
    }
    place as u16
}

// Whether the lent memory is as long as the text's maximum and the maxima of constraints and rows ask. It always is,
// by its types; the proof of `read` learns the lengths where the arrays are lent as slices here.
fn has_room(code: &[u16], constraints: &[u8], rows: &[u8]) -> bool
    ensures { result ≡ (leb 65536 (length code.now) && leb 1536 (length constraints.now) && leb 18432 (length rows.now)) }
{
    if code.len() < CODE_UNITS {
        return false;
    }
    if constraints.len() < RECORD_BYTES {
        return false;
    }
    ROW_BYTES <= rows.len()
}

// The progress before the first statement.
fn nothing_read() -> Progress
    ensures { result ≡ nothing_read }
{
    Progress {
        symbols: 0,
        code: 0,
        transitions: 0,
        constraints: 0,
        rows: 0,
        relabels: 0,
        relabel_rows: 0,
    }
}

// A statement at a place, by the first item that its parentheses hold: its form is judged first, then its names.
fn read(
    text: &[u8],
    first: Item,
    place: usize,
    symbols: &mut [u8; SYMBOL_BYTES],
    code: &mut [u16; CODE_UNITS],
    constraints: &mut [u8; RECORD_BYTES],
    rows: &mut [u8; ROW_BYTES],
    progress: Progress,
) -> Result<Stated, Fault>
    ensures { (at : ℕ) → first ≡ item_at text.now at → States text.now at place
        (memory symbols.old code.old constraints.old rows.old)
        (memory symbols.new code.new constraints.new rows.new) progress result }
{
    if !has_room(code, constraints, rows) {
        return Err(Fault::MaximumPassed);
    }
    let Some(past) = grammar::statement_form(text, first) else {
        return Err(Fault::NoForm);
    };
    let unit = place_unit(place);
    let progress = statement_reader::statement(
        text,
        first,
        unit,
        symbols,
        code,
        constraints,
        rows,
        progress,
    )?;
    Ok(Stated { past, progress })
}

// The header of a block, after the word `block`: its form is judged first, with all that the block holds, then its
// name.
fn enter(
    text: &[u8],
    at: usize,
    symbols: &mut [u8; SYMBOL_BYTES],
    keys: &mut [u64; BLOCKS],
    filter: &mut [u64; FILTER],
    state: OpenBlocks,
) -> Result<Entered, Fault>
    ensures { Enters text.now at keys.old keys.new filter.old filter.new symbols.old symbols.new state result }
{
    let Some(name) = grammar::block_form(text, at) else {
        return Err(Fault::NoForm);
    };
    let blocks = block_reader::open_block(
        text,
        name.start,
        name.length,
        symbols,
        keys,
        filter,
        state,
    )?;
    Ok(Entered {
        inside: name.start + name.length,
        blocks,
    })
}

// The place after the first item of a block, which is the word `block`.
fn place_after(first: Item) -> usize
    ensures { result ≡ place_after first }
{
    match first {
        Item::Word { next, .. } => next,
        Item::Open { next, .. } => next,
        Item::Close { next } => next,
        Item::End => 0,
    }
}

// The statements from a place on, up to the first item that begins none. In a clean text that is the header of a
// block, the close of one, or the end.
fn read_statements(
    text: &[u8],
    start: usize,
    symbols: &mut [u8; SYMBOL_BYTES],
    code: &mut [u16; CODE_UNITS],
    constraints: &mut [u8; RECORD_BYTES],
    rows: &mut [u8; ROW_BYTES],
    before: Progress,
) -> Result<Run, FaultAt>
    ensures { Runs text.now start
        (memory symbols.old code.old constraints.old rows.old)
        (memory symbols.new code.new constraints.new rows.new) before result }
{
    let mut progress = before;
    let mut at = start;
    loop {
        let item = items::next_item(text, at);
        match item {
            Item::Open { place, next } => {
                let first = items::next_item(text, next);
                if grammar::starts_block(first) {
                    return Ok(Run::Block {
                        place,
                        at: place_after(first),
                        progress,
                    });
                }
                let read_here = read(
                    text,
                    first,
                    place,
                    symbols,
                    code,
                    constraints,
                    rows,
                    progress,
                );
                match read_here {
                    Ok(stated) => {
                        at = stated.past;
                        progress = stated.progress;
                    }
                    Err(fault) => return Err(FaultAt { fault, place }),
                }
            }
            Item::Close { next } => return Ok(Run::Close { next, progress }),
            Item::Word { .. } | Item::End => return Ok(Run::End(progress)),
        }
    }
}

// What comes after a first run of statements: blocks with their statements. The memory for the blocks is made here,
// where there are some.
fn parse_blocks(
    text: &[u8],
    first: Run,
    symbols: &mut [u8; SYMBOL_BYTES],
    code: &mut [u16; CODE_UNITS],
    constraints: &mut [u8; RECORD_BYTES],
    rows: &mut [u8; ROW_BYTES],
) -> Result<Progress, FaultAt>
    ensures { ParsesAfter text.now first
        (memory symbols.old code.old constraints.old rows.old)
        (memory symbols.new code.new constraints.new rows.new) result }
{
    let mut keys = [0u64; BLOCKS];
    let mut filter = [0u64; FILTER];
    let mut blocks = block_reader::none_open();
    let mut run = first;
    loop {
        match run {
            Run::Block {
                place,
                at,
                progress,
            } => {
                let opened = enter(text, at, symbols, &mut keys, &mut filter, blocks);
                match opened {
                    Ok(entered) => {
                        blocks = entered.blocks;
                        run = read_statements(
                            text,
                            entered.inside,
                            symbols,
                            code,
                            constraints,
                            rows,
                            progress,
                        )?;
                    }
                    Err(fault) => return Err(FaultAt { fault, place }),
                }
            }
            Run::Close { next, progress } => {
                blocks = block_reader::close_block(symbols, &keys, blocks);
                run = read_statements(text, next, symbols, code, constraints, rows, progress)?;
            }
            Run::End(progress) => return Ok(progress),
        }
    }
}

// The statements of a text that the scan leaves clean, with chains that are empty and no block open.
fn parse_cleared(
    text: &[u8],
    symbols: &mut [u8; SYMBOL_BYTES],
    code: &mut [u16; CODE_UNITS],
    constraints: &mut [u8; RECORD_BYTES],
    rows: &mut [u8; ROW_BYTES],
) -> Result<Progress, FaultAt>
    ensures { ParsesCleared text.now
        (memory symbols.old code.old constraints.old rows.old)
        (memory symbols.new code.new constraints.new rows.new) result }
{
    let nothing = nothing_read();
    let run = read_statements(text, 0, symbols, code, constraints, rows, nothing)?;
    match run {
        Run::Block { .. } | Run::Close { .. } => parse_blocks(
            text,
            run,
            symbols,
            code,
            constraints,
            rows,
        ),
        Run::End(progress) => Ok(progress),
    }
}

// The statements of a text that the scan leaves clean, whatever the memory held: how far the memory is filled, or the
// first fault 3 to 7 with its place.
pub fn parse(
    text: &[u8],
    symbols: &mut [u8; SYMBOL_BYTES],
    code: &mut [u16; CODE_UNITS],
    constraints: &mut [u8; RECORD_BYTES],
    rows: &mut [u8; ROW_BYTES],
) -> Result<Progress, FaultAt>
    ensures { Parses text.now
        (memory symbols.old code.old constraints.old rows.old)
        (memory symbols.new code.new constraints.new rows.new) result }
{
    name_chains::clear(symbols);
    scopes::start(symbols);
    parse_cleared(text, symbols, code, constraints, rows)
}
