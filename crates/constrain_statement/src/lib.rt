// `(constrain (C (P ...)) E)` with its names resolved: the record of body 6 and the rows of body 7 as they will be
// in the table; faults 5, 6 and 7. Its form is known to be good where this is called.
#![tactic(auto)]

ghost use Rattle.std.specs.Prelude.{◌≡◌, ◌||◌, ◌%◌, eqb, IfErr};
ghost use Rattle.bitset.specs.Sets.{bit, from_bits};
ghost use Rattle.policy.specs.Encode.{constraint_bytes};
ghost use Rattle.policy.specs.Words.{Sides};
ghost use Rattle.constraint_writer.specs.ExpressionWrites.{Countable};
ghost use Rattle.constrain_statement.specs.ClassPermissions.{Masks, Scopes};
ghost use Rattle.constrain_statement.specs.ClassNames.{Classes};
ghost use Rattle.constrain_statement.specs.Expressions.{WritesExpression};
ghost use Rattle.constrain_statement.specs.Limits.{IsRefusal, Records, Admits};
ghost use Rattle.constrain_statement.specs.ConstrainWrites.{record_with, WritesConstrain};

use constraint_writer::RowsWritten;
use items::Item;
use lexer::Level;
use policy::{Class, Constraint, Fault, Permission, Row};
use symbols::{NameFamily, Symbol};

// The number of a class that a statement names, and the place after its name.
#[derive(Clone, Copy)]
pub struct NamedClass {
    pub class: usize,
    pub next: usize,
}

// A bit for each permission of a row of them, and the place after the row's close.
#[derive(Clone, Copy)]
struct PermissionMask {
    mask: u32,
    next: usize,
}

// What a constraint is asked of: a class and a bit for each of its permissions; and the place after both.
#[derive(Clone, Copy)]
struct ClassAndPermissions {
    class: usize,
    mask: u32,
    next: usize,
}

// The levels that may lie inside a constraint expression: it is itself in a part of its statement.
const LEVELS: usize = Level::MAX - 2;

// The mask with the bit of a permission, by the number that the symbol table has for it: its class x 32 + its place.
fn with_permission(mask: u32, number: usize) -> u32
    ensures { result ≡ from_bits 32 (λ k. bit mask k || eqb k (number % 32)) }
{
    mask | (1u32 << (number % Permission::MAX))
}

// The permissions of a row of names, of one family, as a mask, if each of them is there. A name that is there again
// changes nothing.
fn permission_mask(text: &[u8], at: usize, symbols: &[u8], family: usize) -> Option<PermissionMask>
    ensures { Masks text.now at symbols.now family result }
{
    let mut i = at;
    let mut mask: u32 = 0;
    loop {
        let item = items::next_item(text, i);
        match item {
            Item::Word {
                start,
                len,
                next,
                ..
            } => {
                let end = start + len;
                let name = &text[start..end];
                let found = scopes::lookup_permission(symbols, family, name);
                let Some(Symbol { number, .. }) = found else {
                    return None;
                };
                mask = with_permission(mask, number);
                i = next;
            }
            Item::Close { next } => return Some(PermissionMask { mask, next }),
            Item::Open { .. } | Item::End => return None,
        }
    }
}

// The class that the word at a place names, if it is declared.
pub fn class_at(text: &[u8], at: usize, symbols: &[u8]) -> Option<NamedClass>
    ensures { Classes text.now at symbols.now result }
{
    let first = items::next_item(text, at);
    let Item::Word {
        start,
        len,
        next,
        ..
    } = first
    else {
        return None;
    };
    let end = start + len;
    let name = &text[start..end];
    let found = scopes::lookup_class(symbols, name);
    let Some(Symbol { number, .. }) = found else {
        return None;
    };
    if Class::MAX <= number {
        return None;
    }
    Some(NamedClass {
        class: number,
        next,
    })
}

// The class and the permissions, after the open parenthesis before them, if they are declared: C (P ...), and the
// close.
fn class_and_permissions(text: &[u8], at: usize, symbols: &[u8]) -> Option<ClassAndPermissions>
    ensures { Scopes text.now at symbols.now result }
{
    let named = class_at(text, at, symbols)?;
    let second = items::next_item(text, named.next);
    let Item::Open { next, .. } = second else {
        return None;
    };
    let family = NameFamily::FIRST_PERMISSIONS + named.class;
    let masked = permission_mask(text, next, symbols, family)?;
    let last = items::next_item(text, masked.next);
    let Item::Close { next } = last else {
        return None;
    };
    Some(ClassAndPermissions {
        class: named.class,
        mask: masked.mask,
        next,
    })
}

// Writes the record of a constraint, if there is room for it: class 2, permission mask 4, first row 2, row count 2.
fn put_record(
    constraints: &mut [u8],
    count: usize,
    scope: ClassAndPermissions,
    first: usize,
    rows: usize,
)
    ensures { Records 10 (constraint_bytes (record_with scope.class scope.mask first rows)) constraints.old constraints.new count }
{
    if constraints.len() / Constraint::BYTES <= count {
        return;
    }
    let at = Constraint::BYTES * count;
    little_endian::put2(constraints, at, scope.class);
    little_endian::put4(constraints, at + Constraint::MASK_AT, scope.mask as usize);
    little_endian::put2(constraints, at + Constraint::FIRST_ROW_AT, first);
    little_endian::put2(constraints, at + Constraint::ROW_COUNT_AT, rows);
}

// Whether the maxima, of statements and of their rows, allow one more after `count` of them, whose rows are written,
// and then whether the stack does: the number of the next row, or the fault.
pub fn limit(
    statements: usize,
    rows: usize,
    count: usize,
    written: RowsWritten,
) -> Result<usize, Fault>
    ensures admits { Admits statements rows count written.row written.need result }
    ensures refuses { IfErr result IsRefusal }
{
    if statements <= count || rows < written.row {
        return Err(Fault::MaximumPassed);
    }
    if Constraint::MAX_STACK < written.need {
        return Err(Fault::StackTooSmall);
    }
    Ok(written.row)
}

// Writes the rows of the expression in the part at a place, from a row on, if the names of the expression are declared.
pub fn write_expression(
    text: &[u8],
    at: usize,
    symbols: &[u8],
    rows: &mut [u8],
    row: usize,
) -> Option<RowsWritten>
    requires { Countable text.now at row }
    ensures { (n : Sides) → WritesExpression n text.now at symbols.now rows.old rows.new row result }
{
    let item = items::next_item(text, at);
    let Item::Open { next, .. } = item else {
        return None;
    };
    constraint_writer::write_constraint(text, next, LEVELS, symbols, rows, row)
}

// Resolves what follows the keyword, writes the rows of the expression from a row on, and the record of that number:
// the number of the row after the statement's rows, or the fault. What has no room in the lent slices is not written;
// those that hold all records and rows always have it. The maxima are asked last: what a refused statement leaves in
// the slices is not read.
pub fn write_constrain(
    text: &[u8],
    at: usize,
    symbols: &[u8],
    constraints: &mut [u8],
    count: usize,
    rows: &mut [u8],
    row: usize,
) -> Result<usize, Fault>
    ensures writes { WritesConstrain text.now at symbols.now constraints.old constraints.new count
        rows.old rows.new row result }
    ensures refuses { IfErr result IsRefusal }
{
    if Row::MAX < row {
        return Err(Fault::MaximumPassed); // no caller begins past the last row
    }
    let first = items::next_item(text, at);
    let Item::Open { next, .. } = first else {
        return Err(Fault::NameUndeclared);
    };
    let Some(scope) = class_and_permissions(text, next, symbols) else {
        return Err(Fault::NameUndeclared);
    };
    let Some(written) = write_expression(text, scope.next, symbols, rows, row) else {
        return Err(Fault::NameUndeclared);
    };
    put_record(constraints, count, scope, row, written.row - row);
    limit(Constraint::MAX, Row::MAX, count, written)
}
