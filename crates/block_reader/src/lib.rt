// A block opened, and closed again, while a text is read (W-203): faults 4 and 6. Two parts of the lent memory know
// the blocks. The symbols have the full name of the innermost one that is open, the scope, in which names are
// declared and used. The keys have every block that was opened, also those that are closed. Beside them a filter has
// the marks of these, so that a new block is compared with those before it only where it shares all its marks with
// others.
#![tactic(auto)]

ghost use Rattle.std.specs.Prelude.{◌≡◌};
ghost use Rattle.block_reader.specs.Within.{none_open, OpensBlock, ClosesBlock};

use policy::Fault;
use scopes::SYMBOL_BYTES;

// The keys: a number for each block that a text can have.
pub const BLOCKS: usize = blocks::Blocks::MAX;

// The filter's words. A text has room for 7,281 blocks, and with so many few new ones share all their marks with
// others and are compared with those before them. A text that is made for that can have nearly all its blocks
// compared, as without a filter.
pub const FILTER: usize = 1_024;

// Where the reader is: how many blocks were opened so far, the number of the innermost one that is open, or 0,
// and how many are open.
#[derive(Clone, Copy)]
pub struct OpenBlocks {
    pub count: usize,
    pub block: usize,
    pub depth: usize,
}

// Where a text begins.
pub fn none_open() -> OpenBlocks
    ensures { result ≡ none_open }
{
    OpenBlocks {
        count: 0,
        block: 0,
        depth: 0,
    }
}

// Opens a block whose name is the len bytes of the text from a place on: where the reader stands then, or fault 4 or 6.
pub fn open_block(
    text: &[u8],
    start: usize,
    len: usize,
    symbols: &mut [u8; SYMBOL_BYTES],
    keys: &mut [u64; BLOCKS],
    filter: &mut [u64; FILTER],
    state: OpenBlocks,
) -> Result<OpenBlocks, Fault>
    ensures { OpensBlock text.now start len keys.old keys.new filter.old filter.new symbols.old symbols.new state result }
{
    if !blocks::add(text, keys, filter, state.count, state.block, start, len) {
        return Err(Fault::DeclaredAgain);
    }
    if policy::Block::MAX_DEPTH <= state.depth {
        return Err(Fault::MaximumPassed);
    }
    if !scopes::enter_block(symbols, text, start, len) {
        return Err(Fault::MaximumPassed);
    }
    Ok(OpenBlocks {
        count: state.count + 1,
        block: state.count + 1,
        depth: state.depth + 1,
    })
}

// Closes the innermost block.
pub fn close_block(
    symbols: &mut [u8; SYMBOL_BYTES],
    keys: &[u64; BLOCKS],
    state: OpenBlocks,
) -> OpenBlocks
    ensures { ClosesBlock keys.now symbols.old symbols.new state result }
{
    scopes::leave_block(symbols);
    OpenBlocks {
        block: blocks::around(keys, state.block),
        depth: state.depth.saturating_sub(1),
        ..state
    }
}
