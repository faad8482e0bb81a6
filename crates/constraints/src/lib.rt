// The constraints of a table and its validatetrans statements: rows run on a stack of five, and the first statement
// that fails. Every function answers for every table, sound or not, and for all numbers.
#![tactic(auto)]

ghost use Rattle.std.specs.Prelude.{◌≡◌, ◌≤◌, Bool, List, [], slice_index};
ghost use Rattle.bitset.specs.Sets.{bit};
ghost use Rattle.policy.specs.Image.{width};
ghost use Rattle.policy.specs.Rows.{not_top, and_top, or_top, top, op_test, is_same};
ghost use Rattle.policy.specs.Deciding.{first_failing};
ghost use Rattle.policy.specs.Answers.{family_of, ruling_of};
ghost use Rattle.table_reader.specs.Records.{row_of, constraint_of};
ghost use Rattle.constraints.specs.Stack as stack;
ghost use Rattle.constraints.specs.Stack.{code, bounded_run_row};
ghost use Rattle.constraints.specs.TableConstraints.{bodies_at, bodies_in, relabel_count, relabel_bodies_in, set_start, view_in, rows_hold_in, NextOfClass};
ghost use Rattle.constraints.specs.TableConstraints.{constraints_in, constraint_names, constraint_holds, relabels_in, relabel_names, relabel_holds};

use policy::{
    Change, Constraint, Denial, Family, Operator, Permission, Relabel, Role, Row, Section, Type,
    User,
};
use table_reader::{ConstraintRecord, RowRecord};

// Where the constraints of a table, or its validatetrans statements, start and how many there are; where their rows
// start; where the sets of attributes start, and how many of userattributes and of roleattributes come before the
// others.
#[derive(Clone, Copy)]
pub struct Bodies {
    pub statements: u32,
    pub count: u32,
    pub rows: u32,
    pub sets: u32,
    pub user_attributes: u16,
    pub role_attributes: u16,
}

// So many statements of a section with their rows in another, where the header of a table says that these stand; how
// many userattributes and roleattributes there are, its names say.
fn bodies_at(
    table: &[u8],
    statements: u8,
    count: u32,
    rows: u8,
    user_attributes: u16,
    role_attributes: u16,
) -> Bodies
    ensures { result ≡ bodies_at table.now statements count rows user_attributes role_attributes }
{
    Bodies {
        statements: table_reader::body_start(table, statements),
        count,
        rows: table_reader::body_start(table, rows),
        sets: table_reader::body_start(table, Section::ATTRIBUTE_SETS),
        user_attributes,
        role_attributes,
    }
}

// Where the header of a table says that the constraints stand.
pub fn locate(table: &[u8], user_attributes: u16, role_attributes: u16) -> Bodies
    ensures { result ≡ bodies_in table.now user_attributes role_attributes }
{
    let count = table_reader::body_length(table, Section::CONSTRAINTS) / Constraint::BYTES as u32;
    bodies_at(
        table,
        Section::CONSTRAINTS,
        count,
        Section::ROWS,
        user_attributes,
        role_attributes,
    )
}

// How many validatetrans statements the header of a table says that there are: none where its edition has no section
// for them.
fn relabel_count(table: &[u8]) -> u32
    ensures { result ≡ relabel_count table.now }
{
    let sections = table_reader::sections_of(table_reader::edition(table));
    if sections <= Section::RELABELS {
        return 0;
    }
    table_reader::body_length(table, Section::RELABELS) / Relabel::BYTES as u32
}

// Where the header of a table says that the validatetrans statements stand.
pub fn locate_relabels(table: &[u8], user_attributes: u16, role_attributes: u16) -> Bodies
    ensures { result ≡ relabel_bodies_in table.now user_attributes role_attributes }
{
    bodies_at(
        table,
        Section::RELABELS,
        relabel_count(table),
        Section::RELABEL_ROWS,
        user_attributes,
        role_attributes,
    )
}

// ---- the stack

// A stack of at most five Booleans: the top is bit 0, and a 1 is above the oldest.
#[derive(Clone, Copy)]
struct Stack {
    bits: u8,
}

impl Stack {
    // The least number that holds as many as the stack may.
    const FULL: u8 = 1 << policy::Constraint::MAX_STACK;

    fn empty() -> Self
        ensures { result.bits ≡ code [] }
    {
        Self { bits: 1 }
    }

    fn push(self, b: bool) -> Self
        ensures { (s : List Bool) → self.bits ≡ code s → result.bits ≡ code (stack.push b s) }
    {
        let bits = self.bits;
        if Self::FULL <= bits {
            return self;
        }
        if b {
            Self { bits: bits * 2 + 1 }
        } else {
            Self { bits: bits * 2 }
        }
    }

    fn negate(self) -> Self
        ensures { (s : List Bool) → self.bits ≡ code s → result.bits ≡ code (not_top s) }
    {
        let bits = self.bits;
        if bits < 2 {
            return self;
        }
        if bits % 2 == 0 {
            Self { bits: bits + 1 }
        } else {
            Self { bits: bits - 1 }
        }
    }

    fn conjoin(self) -> Self
        ensures { (s : List Bool) → self.bits ≡ code s → result.bits ≡ code (and_top s) }
    {
        let bits = self.bits;
        if bits < 4 {
            return self;
        }
        if bits % 4 == 3 {
            Self {
                bits: bits / 4 * 2 + 1,
            }
        } else {
            Self { bits: bits / 4 * 2 }
        }
    }

    fn disjoin(self) -> Self
        ensures { (s : List Bool) → self.bits ≡ code s → result.bits ≡ code (or_top s) }
    {
        let bits = self.bits;
        if bits < 4 {
            return self;
        }
        if bits % 4 == 0 {
            Self { bits: bits / 4 * 2 }
        } else {
            Self {
                bits: bits / 4 * 2 + 1,
            }
        }
    }

    // The top; false where the stack is empty.
    fn result(self) -> bool
        ensures { (s : List Bool) → self.bits ≡ code s → result ≡ top s }
    {
        2 <= self.bits && self.bits % 2 == 1
    }
}

// ---- one row

// The number of a component, u1 u2 r1 r2 t1 t2 u3 r3 t3 as 0 to 8.
fn side(sides: &[usize], component: usize) -> usize
    ensures { result ≡ slice_index sides.now component }
{
    if component < sides.len() {
        sides[component]
    } else {
        0
    }
}

// Where the set of an attribute of a family starts.
fn set_start(bodies: Bodies, family: Family, attribute: u16) -> usize
    ensures { result ≡ set_start bodies (family_of family) attribute }
{
    let start = bodies.sets as usize;
    let users = bodies.user_attributes as usize;
    let roles = bodies.role_attributes as usize;
    let number = attribute as usize;
    match family {
        Family::Users => start + User::SET_BYTES * number,
        Family::Roles => start + Role::SET_BYTES * (users + number),
        Family::Types => start + Role::SET_BYTES * (users + roles) + Type::SET_BYTES * number,
    }
}

// How many bytes a set of a family has.
fn set_width(family: Family) -> usize
    ensures { result ≡ width (family_of family) }
{
    match family {
        Family::Users => User::SET_BYTES,
        Family::Roles => Role::SET_BYTES,
        Family::Types => Type::SET_BYTES,
    }
}

// Whether the two that a comparison compares are the same, or the one is in the other.
fn is_same(table: &[u8], bodies: Bodies, row: RowRecord, sides: &[usize]) -> bool
    ensures { result ≡ is_same (view_in table.now bodies sides.now) (row_of row) }
{
    let component = row.component as usize;
    let here = side(sides, component);
    match row.kind {
        Row::TWO_SIDES => here == side(sides, component + 1),
        Row::SIDE_AND_THING => here == row.number as usize,
        _ => {
            let family = table_reader::family_of(row.component);
            let start = set_start(bodies, family, row.number);
            set_rows::contains_at(table, start, set_width(family), here)
        }
    }
}

// What a comparison says.
fn compare(table: &[u8], bodies: Bodies, row: RowRecord, sides: &[usize]) -> bool
    ensures { result ≡ op_test row.operator (is_same (view_in table.now bodies sides.now) (row_of row)) }
{
    let same = is_same(table, bodies, row, sides);
    match row.operator {
        Operator::NEQ | Operator::INCOMP => !same,
        _ => same,
    }
}

// The stack after a row.
fn row_step(table: &[u8], bodies: Bodies, row: RowRecord, sides: &[usize], before: Stack) -> Stack
    ensures { (s : List Bool) → before.bits ≡ code s
        → result.bits ≡ code (bounded_run_row (view_in table.now bodies sides.now) (row_of row) s) }
{
    match row.kind {
        Row::NOT => before.negate(),
        Row::AND => before.conjoin(),
        Row::OR => before.disjoin(),
        _ => before.push(compare(table, bodies, row, sides)),
    }
}

// ---- one statement

// Runs `count` rows from row `first` on, from an empty stack.
fn evaluate(table: &[u8], bodies: Bodies, first: u16, count: u16, sides: &[usize]) -> bool
    ensures { result ≡ rows_hold_in table.now bodies sides.now first count }
{
    let start = first as u32;
    let end = start + count as u32;
    let mut values = Stack::empty();
    for number in start..end {
        let row = table_reader::row_at(table, bodies.rows, number);
        values = row_step(table, bodies, row, sides, values);
    }
    values.result()
}

// Whether a constraint's mask has the permission.
fn has_permission(constraint: ConstraintRecord, permission: usize) -> bool
    ensures { result ≡ bit (constraint_of constraint).mask permission }
{
    permission < Permission::MAX && (constraint.mask >> permission) % 2 == 1
}

// ---- all statements

// The number of the first constraint of the class from a number on, where so many constraints start at `start`; one
// past the last where there is none. This walk passes the constraints of all other classes, so it reads nothing but
// classes.
fn next_of_class(table: &[u8], start: u32, count: u32, class: usize, from: u32) -> u32
    ensures { NextOfClass table.now start count class from result }
{
    for number in from..count {
        if table_reader::constraint_class(table, start, number) as usize == class {
            return number;
        }
    }
    from.max(count)
}

// The first constraint that names the class and the permission and fails for these sides, u1 u2 r1 r2 t1 t2 u3 r3 t3,
// with its number; or granted. With it goes the number consulted: the constraints that name them, up to and including
// the first that fails.
pub fn first_failing(
    table: &[u8],
    bodies: Bodies,
    class: usize,
    permission: usize,
    sides: &[usize],
) -> Change
    ensures { ruling_of result ≡ first_failing 4 (constraint_names class permission) (constraint_holds table.now bodies sides.now) 0 (constraints_in table.now bodies) }
{
    let start = bodies.statements;
    let count = bodies.count;
    let mut consulted = 0;
    let mut next = next_of_class(table, start, count, class, 0);
    while next < count {
        let number = next;
        next = next_of_class(table, start, count, class, number + 1);
        let constraint = table_reader::constraint_at(table, start, number);
        if !has_permission(constraint, permission) {
            continue;
        }
        consulted += 1;
        if !evaluate(table, bodies, constraint.first, constraint.rows, sides) {
            return Change::Failed {
                denial: Denial::ConstraintFails,
                constraint: number as usize,
                consulted,
            };
        }
    }
    Change::Granted { consulted }
}

// The first validatetrans statement of the class that fails for these sides, with its number; or granted. With it goes
// the number asked: those of the class, up to and including the first that fails. A statement's rows follow those of
// the statement before it; the row's number goes round at its end, which no sound table reaches.
pub fn first_failing_relabel(table: &[u8], bodies: Bodies, class: usize, sides: &[usize]) -> Change
    ensures { ruling_of result ≡ first_failing 6 (relabel_names class) (relabel_holds table.now bodies sides.now) 0 (relabels_in table.now bodies) }
{
    let mut asked = 0;
    let mut row = 0u16;
    for number in 0..bodies.count {
        let statement = table_reader::relabel_at(table, bodies.statements, number);
        let first = row;
        row = first.wrapping_add(statement.rows);
        if statement.class as usize != class {
            continue;
        }
        asked += 1;
        if !evaluate(table, bodies, first, statement.rows, sides) {
            return Change::Failed {
                denial: Denial::RelabelFails,
                constraint: number as usize,
                consulted: asked,
            };
        }
    }
    Change::Granted { consulted: asked }
}
