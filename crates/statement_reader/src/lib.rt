// One statement whose form is good: its names are entered or looked up, and what it says is put into the lent memory;
// or its fault 4 to 7.
#![tactic(auto)]

ghost use Rattle.std.specs.Prelude.{◌≡◌, List, ℕ, ◌+◌, ◌≤◌, length};
ghost use Rattle.policy.specs.Words.{declare_k, class_k, constrain_k, relabel_k};
ghost use Rattle.policy.specs.Statements.{thing_of, attribute_of};
ghost use Rattle.policy.specs.Encode.{sort_code};
ghost use Rattle.policy.specs.Answers.{family_of};
ghost use Rattle.items.specs.Looks.{item_at};
ghost use Rattle.statement_writer.specs.ResolvedUnits.{WritesStatement};
ghost use Rattle.statement_reader.specs.Memory.{memory, constraint_room, row_room};
ghost use Rattle.statement_reader.specs.Steps.{coded_keyword, Steps, StepsAt, declared_step, coded_step};
ghost use Rattle.statement_reader.specs.Steps.{constrained_step, relabelled_step};

use declarations::SYMBOL_BYTES;
use grammar::Keyword;
use items::Item;
use lexer::Text;
use policy::{Constraint, Family, Fault, Relabel, Relation, Row, Sort, Transition};

// Room for the code: no statement has more units than bytes of the text.
pub const CODE_UNITS: usize = Text::MAX + 1;

// Room for the records of constrains, and after it for those of validatetrans statements; and for their rows likewise.
pub const RECORD_BYTES: usize = Constraint::MAX_BODY_BYTES + Relabel::MAX_BODY_BYTES;

pub const ROW_BYTES: usize = Row::MAX_BODY_BYTES + Relabel::MAX_ROWS_BODY_BYTES;

// How far the lent memory is filled, and how many transitions, constraints and validatetrans statements there are.
#[derive(Clone, Copy)]
pub struct Progress {
    pub symbols: usize,
    pub code: usize,
    pub transitions: usize,
    pub constraints: usize,
    pub rows: usize,
    pub relabels: usize,
    pub relabel_rows: usize,
}

// The statements that have their names in the statement code.
#[derive(Clone, Copy)]
enum CodedStatement {
    Set(Family),
    Relation(Relation),
    Transition,
}

// The number of the sort of a family's things.
fn thing_sort(family: Family) -> usize
    ensures { result ≡ sort_code (thing_of (family_of family)) }
{
    match family {
        Family::Users => Sort::USER,
        Family::Roles => Sort::ROLE,
        Family::Types => Sort::TYPE,
    }
}

// The number of the sort of a family's attributes.
fn attribute_sort(family: Family) -> usize
    ensures { result ≡ sort_code (attribute_of (family_of family)) }
{
    match family {
        Family::Users => Sort::USER_ATTRIBUTE,
        Family::Roles => Sort::ROLE_ATTRIBUTE,
        Family::Types => Sort::TYPE_ATTRIBUTE,
    }
}

// The progress past a declaration, where it is no fault.
fn declared_step(declared: Result<usize, Fault>, progress: Progress) -> Result<Progress, Fault>
    ensures { result ≡ declared_step declared progress }
{
    Ok(Progress {
        symbols: declared?,
        ..progress
    })
}

// `(user U)` and the like.
fn declare_thing(
    text: &[u8],
    at: usize,
    family: Family,
    symbols: &mut [u8; SYMBOL_BYTES],
    progress: Progress,
) -> Result<Progress, Fault>
    ensures { (place : ℕ) (co cs rs : List ℕ) → Steps text.now at place (declare_k (thing_of (family_of family)))
        (memory symbols.old co cs rs) (memory symbols.new co cs rs) progress result }
{
    let declared = declarations::declare(text, at, thing_sort(family), symbols, progress.symbols);
    declared_step(declared, progress)
}

// `(class C (P ...))`
fn declare_class(
    text: &[u8],
    at: usize,
    symbols: &mut [u8; SYMBOL_BYTES],
    progress: Progress,
) -> Result<Progress, Fault>
    ensures { (place : ℕ) (co cs rs : List ℕ) → Steps text.now at place class_k
        (memory symbols.old co cs rs) (memory symbols.new co cs rs) progress result }
{
    let declared = declarations::declare_class(text, at, symbols, progress.symbols);
    declared_step(declared, progress)
}

// `(userattribute A)` and the like: the resolver names the place where an attribute is declared, so it is in the code.
fn declare_attribute(
    text: &[u8],
    at: usize,
    place: u16,
    family: Family,
    symbols: &mut [u8; SYMBOL_BYTES],
    code: &mut [u16; CODE_UNITS],
    progress: Progress,
) -> Result<Progress, Fault>
    ensures { (cs rs : List ℕ) → Steps text.now at place (declare_k (attribute_of (family_of family)))
        (memory symbols.old code.old cs rs) (memory symbols.new code.new cs rs) progress result }
{
    let declared = declarations::declare(
        text,
        at,
        attribute_sort(family),
        symbols,
        progress.symbols,
    );
    let to = statement_writer::write_attribute(family, place, code, progress.code);
    declared_step(
        declared,
        Progress {
            code: to,
            ..progress
        },
    )
}

// The units of a statement with code.
fn write_coded(
    text: &[u8],
    at: usize,
    place: u16,
    kind: CodedStatement,
    symbols: &[u8; SYMBOL_BYTES],
    code: &mut [u16; CODE_UNITS],
    to: usize,
) -> Option<usize>
    ensures { WritesStatement text.now at (coded_keyword kind) place symbols.now code.old to code.new result }
{
    match kind {
        CodedStatement::Set(family) => {
            statement_writer::write_attribute_set(text, at, place, family, symbols, code, to)
        }
        CodedStatement::Relation(relation) => {
            statement_writer::write_relation(text, at, place, relation, symbols, code, to)
        }
        CodedStatement::Transition => {
            statement_writer::write_transition(text, at, place, symbols, code, to)
        }
    }
}

// A statement with code whose names are declared, or are not. A transition is one of as many as there may be.
fn coded_step(
    kind: CodedStatement,
    written: Option<usize>,
    progress: Progress,
) -> Result<Progress, Fault>
    ensures { result ≡ coded_step kind written progress }
{
    let to = written.ok_or(Fault::NameUndeclared)?;
    let count = progress.transitions;
    match kind {
        CodedStatement::Set(_) | CodedStatement::Relation(_) => Ok(Progress {
            code: to,
            ..progress
        }),
        CodedStatement::Transition => {
            if Transition::MAX <= count {
                return Err(Fault::MaximumPassed);
            }
            Ok(Progress {
                code: to,
                transitions: count + 1,
                ..progress
            })
        }
    }
}

// `(userattributeset A S)`, `(userrole U R)`, `(roletransition R T C R)` and the like.
fn coded(
    text: &[u8],
    at: usize,
    place: u16,
    kind: CodedStatement,
    symbols: &[u8; SYMBOL_BYTES],
    code: &mut [u16; CODE_UNITS],
    progress: Progress,
) -> Result<Progress, Fault>
    ensures { (cs rs : List ℕ) → Steps text.now at place (coded_keyword kind)
        (memory symbols.now code.old cs rs) (memory symbols.now code.new cs rs) progress result }
{
    let written = write_coded(text, at, place, kind, symbols, code, progress.code);
    coded_step(kind, written, progress)
}

// A constraint whose record and rows are written, or its fault. Where they are written there was room for one more,
// which the test repeats so that the count cannot overflow.
fn constrained_step(written: Result<usize, Fault>, progress: Progress) -> Result<Progress, Fault>
    ensures { result ≡ constrained_step written progress }
{
    let count = progress.constraints;
    let row = written?;
    if Constraint::MAX <= count {
        return Err(Fault::MaximumPassed);
    }
    Ok(Progress {
        constraints: count + 1,
        rows: row,
        ..progress
    })
}

// `(constrain (C (P ...)) E)`, whose record and rows go into the first part of each memory: no other statement writes
// there.
fn constrain(
    text: &[u8],
    at: usize,
    symbols: &[u8; SYMBOL_BYTES],
    constraints: &mut [u8],
    rows: &mut [u8],
    progress: Progress,
) -> Result<Progress, Fault>
    requires { (constraint_room ≤ length constraints.old) × (row_room ≤ length rows.old) }
    ensures { (place : ℕ) (co : List ℕ) → Steps text.now at place constrain_k
        (memory symbols.now co constraints.old rows.old)
        (memory symbols.now co constraints.new rows.new) progress result }
{
    let records_end = Constraint::MAX_BODY_BYTES;
    let rows_end = Row::MAX_BODY_BYTES;
    let written = constrain_statement::write_constrain(
        text,
        at,
        symbols,
        &mut constraints[..records_end],
        progress.constraints,
        &mut rows[..rows_end],
        progress.rows,
    );
    constrained_step(written, progress)
}

// A validatetrans statement whose record and rows are written, or its fault.
fn relabelled_step(written: Result<usize, Fault>, progress: Progress) -> Result<Progress, Fault>
    ensures { result ≡ relabelled_step written progress }
{
    let count = progress.relabels;
    let row = written?;
    if Relabel::MAX <= count {
        return Err(Fault::MaximumPassed);
    }
    Ok(Progress {
        relabels: count + 1,
        relabel_rows: row,
        ..progress
    })
}

// `(validatetrans C E)`, whose record and rows go into the rest of each memory.
fn validatetrans(
    text: &[u8],
    at: usize,
    symbols: &[u8; SYMBOL_BYTES],
    constraints: &mut [u8],
    rows: &mut [u8],
    progress: Progress,
) -> Result<Progress, Fault>
    requires { (constraint_room ≤ length constraints.old) × (row_room ≤ length rows.old) }
    ensures { (place : ℕ) (co : List ℕ) → Steps text.now at place relabel_k
        (memory symbols.now co constraints.old rows.old)
        (memory symbols.now co constraints.new rows.new) progress result }
{
    let records_start = Constraint::MAX_BODY_BYTES;
    let rows_start = Row::MAX_BODY_BYTES;
    let written = relabel_statement::write_relabel(
        text,
        at,
        symbols,
        &mut constraints[records_start..],
        progress.relabels,
        &mut rows[rows_start..],
        progress.relabel_rows,
    );
    relabelled_step(written, progress)
}

// A statement, by the first item that its parentheses hold. Its form is known to be good where this is called, so
// that is a keyword.
pub fn statement(
    text: &[u8],
    first: Item,
    place: u16,
    symbols: &mut [u8; SYMBOL_BYTES],
    code: &mut [u16; CODE_UNITS],
    constraints: &mut [u8; RECORD_BYTES],
    rows: &mut [u8; ROW_BYTES],
    progress: Progress,
) -> Result<Progress, Fault>
    ensures { (at : ℕ) → first ≡ item_at text.now at → StepsAt text.now at place
        (memory symbols.old code.old constraints.old rows.old)
        (memory symbols.new code.new constraints.new rows.new) progress result }
{
    let Item::Word { number, next, .. } = first else {
        return Err(Fault::NoForm);
    };
    let Some(keyword) = grammar::keyword_of(number) else {
        return Err(Fault::NoForm);
    };
    match keyword {
        Keyword::Thing(family) => declare_thing(text, next, family, symbols, progress),
        Keyword::Attribute(family) => {
            declare_attribute(text, next, place, family, symbols, code, progress)
        }
        Keyword::Class => declare_class(text, next, symbols, progress),
        Keyword::Set(family) => {
            let kind = CodedStatement::Set(family);
            coded(text, next, place, kind, symbols, code, progress)
        }
        Keyword::Relation(relation) => {
            let kind = CodedStatement::Relation(relation);
            coded(text, next, place, kind, symbols, code, progress)
        }
        Keyword::Transition => {
            coded(
                text,
                next,
                place,
                CodedStatement::Transition,
                symbols,
                code,
                progress,
            )
        }
        Keyword::Constrain => constrain(text, next, symbols, constraints, rows, progress),
        Keyword::Relabel => validatetrans(text, next, symbols, constraints, rows, progress),
    }
}
