// The passes in their order: text and lent memory in, the answer out. What one pass leaves for the next is in local
// arrays, and the lent memory is written to only when all refusals are past.
#![tactic(auto)]

ghost use Rattle.std.specs.Prelude.{◌≡◌, cond, ◌≤◌, eqb, length, take};
ghost use Rattle.policy.specs.Outcome.{of_text, compiled, line_at, refusal_of};
ghost use Rattle.policy.specs.Answers.{fault_number, refusal_in};
ghost use Rattle.compiler.specs.Passes.{Gives, Measures, Fits, ResolvesAndWrites, CompilesStatements, CompilesClean};
ghost use Rattle.compiler.specs.Promise.{Compiles};

use code_reader::FAMILY_BYTES;
use declarations::SYMBOL_BYTES;
use policy::{Fault, FaultAt, Refusal, Sort};
use statement_reader::{CODE_UNITS, Progress, RECORD_BYTES, ROW_BYTES};
use table_writer::Sizes;

// The sizes of the table of the statements that were read.
fn sizes_of(progress: Progress, symbols: &[u8]) -> Sizes
    ensures { Measures progress symbols.now result }
{
    Sizes {
        names: progress.symbols,
        users: declarations::count(symbols, Sort::USER),
        roles: declarations::count(symbols, Sort::ROLE),
        transitions: progress.transitions,
        constraints: progress.constraints,
        rows: progress.rows,
        user_attributes: declarations::count(symbols, Sort::USER_ATTRIBUTE),
        role_attributes: declarations::count(symbols, Sort::ROLE_ATTRIBUTE),
        type_attributes: declarations::count(symbols, Sort::TYPE_ATTRIBUTE),
        relabels: progress.relabels,
        relabel_rows: progress.relabel_rows,
    }
}

// The first units of the code.
fn units(code: &[u16], end: usize) -> &[u16]
    ensures { result.now ≡ take end code.now }
{
    if code.len() < end {
        return code;
    }
    &code[..end]
}

// Fault 10, or the table is written; its length is answered.
fn write_fitting(
    sizes: Sizes,
    symbols: &[u8],
    code: &[u16],
    constraints: &[u8],
    rows: &[u8],
    user_sets: &[u8; FAMILY_BYTES],
    role_sets: &[u8; FAMILY_BYTES],
    type_sets: &[u8; FAMILY_BYTES],
    table: &mut [u8],
) -> Result<usize, FaultAt>
    ensures { Fits sizes symbols.now code.now constraints.now rows.now
        user_sets.now role_sets.now type_sets.now table.old table.new result }
{
    let length = table_writer::needed(sizes);
    if table.len() < length {
        return Err(FaultAt {
            fault: Fault::MemoryTooShort,
            place: length,
        });
    }
    table_writer::write_table(
        sizes,
        symbols,
        code,
        constraints,
        rows,
        user_sets,
        role_sets,
        type_sets,
        table,
    );
    Ok(length)
}

// Faults 8 and 9, then the table with the final sets.
fn resolve_and_write(
    sizes: Sizes,
    types: usize,
    symbols: &[u8],
    code: &[u16],
    constraints: &[u8],
    rows: &[u8],
    table: &mut [u8],
) -> Result<usize, FaultAt>
    ensures { ResolvesAndWrites sizes types symbols.now code.now constraints.now rows.now table.old table.new result }
{
    let mut user_sets = [0u8; FAMILY_BYTES];
    let mut role_sets = [0u8; FAMILY_BYTES];
    let mut type_sets = [0u8; FAMILY_BYTES];
    resolver::resolve(
        code,
        sizes.users,
        sizes.roles,
        types,
        &mut user_sets,
        &mut role_sets,
        &mut type_sets,
    )?;
    write_fitting(
        sizes,
        symbols,
        code,
        constraints,
        rows,
        &user_sets,
        &role_sets,
        &type_sets,
        table,
    )
}

// Statements without fault 3 to 7.
fn compile_statements(
    progress: Progress,
    symbols: &[u8; SYMBOL_BYTES],
    code: &[u16; CODE_UNITS],
    constraints: &[u8; RECORD_BYTES],
    rows: &[u8; ROW_BYTES],
    table: &mut [u8],
) -> Result<usize, FaultAt>
    ensures { CompilesStatements progress symbols.now code.now constraints.now rows.now
        table.old table.new result }
{
    let sizes = sizes_of(progress, symbols);
    let types = declarations::count(symbols, Sort::TYPE);
    let used = units(code, progress.code);
    resolve_and_write(sizes, types, symbols, used, constraints, rows, table)
}

// A text without fault 1 or 2: its statements are read, with faults 3 to 7.
fn compile_clean(text: &[u8], table: &mut [u8]) -> Result<usize, FaultAt>
    ensures { CompilesClean text.now table.old table.new result }
{
    let mut symbols = [0u8; SYMBOL_BYTES];
    let mut code = [0u16; CODE_UNITS];
    let mut constraints = [0u8; RECORD_BYTES];
    let mut rows = [0u8; ROW_BYTES];
    let progress = parser::parse(text, &mut symbols, &mut code, &mut constraints, &mut rows)?;
    compile_statements(progress, &symbols, &code, &constraints, &rows, table)
}

// The passes in order: faults 1 and 2 first.
fn pass(text: &[u8], table: &mut [u8]) -> Result<usize, FaultAt>
    ensures { Gives (compiled (of_text text.now) (length table.old)) table.old table.new result }
{
    lexer::scan(text)?;
    compile_clean(text, table)
}

// The line of a fault: all but fault 10, whose place is a length, are placed in the text.
fn line_of(text: &[u8], found: FaultAt) -> usize
    ensures { ((fault_number found.fault ≡ 10 → ⊥) → found.place ≤ 65535)
        → result ≡ cond (eqb (fault_number found.fault) 10) 0 (line_at text.now found.place) }
{
    match found.fault {
        Fault::MemoryTooShort => 0,
        _ => lines::line_of(text, found.place),
    }
}

// Every refusal is made here.
fn refusal(text: &[u8], found: FaultAt) -> Refusal
    ensures { ((fault_number found.fault ≡ 10 → ⊥) → found.place ≤ 65535)
        → refusal_in result ≡ refusal_of (of_text text.now) (fault_number found.fault) found.place }
{
    Refusal {
        fault: found.fault,
        place: found.place,
        line: line_of(text, found),
    }
}

// Compiles a text: its table is at the start of the lent memory, or a refusal 1 to 10 is answered and the lent memory
// is as it was.
pub fn compile(text: &[u8], table: &mut [u8]) -> Result<usize, Refusal>
    ensures { Compiles (of_text text.now) table.old table.new result }
{
    match pass(text, table) {
        Ok(length) => Ok(length),
        Err(found) => Err(refusal(text, found)),
    }
}
