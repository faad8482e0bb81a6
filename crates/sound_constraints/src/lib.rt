// The rows of a table with its constraints and its validatetrans statements: whether they are those that the forms of
// constraints allow, name nothing undeclared, and run the stack of five as they may. Every function answers for every
// table, whatever its bytes are.
#![tactic(auto)]

ghost use Rattle.std.specs.Prelude.{◌≡◌, ℕ, cond, [], ◌+◌, ◌*◌, ltb, get_or, drop, Option, Some, None};
ghost use Rattle.policy.specs.Basics.{each};
ghost use Rattle.policy.specs.Rows.{after};
ghost use Rattle.policy.specs.Sound.{of_comp, pieces, constraint_at, relabel_at};
ghost use Rattle.table_reader.specs.Records.{row_of};
ghost use Rattle.sound_constraints.specs.Totals.{things_of, attributes_of, totals_in};
ghost use Rattle.sound_constraints.specs.SoundRows.{is_bare, compares_sides, names_one, fits_row, fits_mask, kept, rows_fit, AnswersAs, taken_up, rows_asked};
ghost use Rattle.sound_constraints.specs.SoundRows.{asks_constraint, constraints_fit, relabels_fit};

use policy::{Component, Constraint, Family, NameCounts, Operator, Permission, Row};
use table_reader::{ConstraintRecord, RowRecord};

// ---- rows

// How many things of the component's family there are.
fn things_of(counts: NameCounts, component: u8) -> usize
    ensures { result ≡ things_of counts (of_comp component) }
{
    match table_reader::family_of(component) {
        Family::Users => counts.users,
        Family::Roles => counts.roles,
        Family::Types => counts.types,
    }
}

// How many attributes of the component's family there are.
fn attributes_of(counts: NameCounts, component: u8) -> usize
    ensures { result ≡ attributes_of counts (of_comp component) }
{
    match table_reader::family_of(component) {
        Family::Users => counts.user_attributes,
        Family::Roles => counts.role_attributes,
        Family::Types => counts.type_attributes,
    }
}

// Whether a row of kind 0, 1 or 2 has all other fields 0.
fn is_bare(row: RowRecord) -> bool
    ensures { result ≡ is_bare (row_of row) }
{
    row.component == 0 && row.operator == 0 && row.number == 0
}

// Whether a row of kind 3 is good: u1 and t1 with two operators, r1 with five.
fn compares_sides(row: RowRecord) -> bool
    ensures { result ≡ compares_sides (row_of row) }
{
    let operators = match row.component {
        Component::U1 | Component::T1 => Operator::COUNT,
        Component::R1 => Operator::COUNT_OF_ROLES,
        _ => 0,
    };
    row.operator < operators && row.number == 0
}

// Whether a row of kind 4 or 5 is good, where there are so many components, and so many things or attributes are
// declared.
fn names_one(row: RowRecord, components: u8, declared: usize) -> bool
    ensures { result ≡ names_one components (row_of row) declared }
{
    row.component < components && row.operator < Operator::COUNT && (row.number as usize) < declared
}

// Whether a row is one that the forms of constraints allow, and names nothing undeclared.
fn fits_row(row: RowRecord, components: u8, counts: NameCounts) -> bool
    ensures { result ≡ fits_row components (things_of counts) (attributes_of counts) (row_of row) }
{
    match row.kind {
        Row::NOT | Row::AND | Row::OR => is_bare(row),
        Row::TWO_SIDES => compares_sides(row),
        Row::SIDE_AND_THING => names_one(row, components, things_of(counts, row.component)),
        Row::SIDE_AND_ATTRIBUTE => names_one(row, components, attributes_of(counts, row.component)),
        _ => false,
    }
}

// The depth of the stack after a row, where it is between 1 and 5.
fn depth_after(row: RowRecord, depth: u8) -> Option<u8>
    ensures { result ≡ kept (after (row_of row) depth) }
{
    let after = match row.kind {
        Row::NOT => depth,
        Row::AND | Row::OR => depth.checked_sub(1)?,
        _ => depth.checked_add(1)?,
    };
    if after == 0 || Constraint::MAX_STACK < after as usize {
        return None;
    }
    Some(after)
}

// Whether `count` rows from row `first` on are good and run the stack as they may; the rows of 6 bytes start at
// `start`.
fn rows_fit(
    table: &[u8],
    start: u32,
    first: u16,
    count: u16,
    components: u8,
    counts: NameCounts,
) -> bool
    ensures { result ≡ rows_fit (fits_row components (things_of counts) (attributes_of counts)) (pieces count 6 (drop (start + 6 * first) table.now)) 0 }
{
    let mut depth = 0;
    let past = u32::from(first) + u32::from(count);
    for number in u32::from(first)..past {
        let row = table_reader::row_at(table, start, number);
        let place = start as usize + Row::BYTES * (number as usize);
        if byte_slices::byte(table, place + Row::UNUSED_AT) != 0 {
            return false;
        }
        if !fits_row(row, components, counts) {
            return false;
        }
        let Some(next) = depth_after(row, depth) else {
            return false;
        };
        depth = next;
    }
    depth == 1
}

// ---- statements

// Whether so many statements take up so many rows in order, with none left, and these are good. `asked` answers how many
// rows the statement of a number takes up, if it is good by itself and may have this row for its first. The rows of 6
// bytes start at `start`.
fn statements_fit<F: Fn(u32, u16) -> Option<u16>>(
    table: &[u8],
    count: u32,
    start: u32,
    rows: u16,
    components: u8,
    counts: NameCounts,
    asked: F,
) -> bool
    requires { F.IsAlwaysCallable asked }
    ensures { (f : ℕ → ℕ → Option ℕ) → AnswersAs (F.post asked) count rows f
        → result ≡ taken_up f (fits_row components (things_of counts) (attributes_of counts)) 0 count 0 (pieces rows 6 (drop start table.now)) }
{
    let mut taken = 0;
    for number in 0..count {
        let Some(more) = asked(number, taken) else {
            return false;
        };
        if rows - taken < more {
            return false;
        }
        if !rows_fit(table, start, taken, more, components, counts) {
            return false;
        }
        taken += more;
    }
    taken == rows
}

// ---- constraints

// How many permissions a class has, where the numbers are those of all classes.
pub fn permissions_of(permissions: &[usize], class: usize) -> usize
    ensures { result ≡ get_or permissions.now class 0 }
{
    permissions.get(class).copied().unwrap_or(0)
}

// The bits of a permission mask: one for each permission that a class may have.
const MASK_BITS: usize = Permission::MAX;

// Whether a constraint's class is declared, and its mask is not 0 and names only permissions of the class.
fn fits_mask(constraint: ConstraintRecord, counts: NameCounts, permissions: &[usize]) -> bool
    ensures { result ≡ fits_mask counts.classes (λ k. get_or permissions.now k 0) constraint.class constraint.mask }
{
    let declared = permissions_of(permissions, constraint.class as usize);
    (constraint.class as usize) < counts.classes
        && constraint.mask != 0
        && (MASK_BITS <= declared || constraint.mask >> declared == 0)
}

// How many rows the constraint of this number takes up, if it is good by itself and says that this is its first row. The
// constraints of 10 bytes start at `constraints`.
fn constraint_rows(
    table: &[u8],
    constraints: u32,
    number: u32,
    first: u16,
    counts: NameCounts,
    permissions: &[usize],
) -> Option<u16>
    ensures { result ≡ rows_asked (asks_constraint (totals_in counts permissions.now)) (constraint_at (drop (constraints + 10 * number) table.now)) first }
{
    let record = table_reader::constraint_at(table, constraints, number);
    if record.first == first && fits_mask(record, counts, permissions) {
        Some(record.rows)
    } else {
        None
    }
}

// Whether so many constraints take up so many rows in order, with none left, and are good. The constraints of 10
// bytes start at `constraints`, the rows of 6 bytes at `start`; `permissions` holds how many permissions each class
// has.
pub fn constraints_fit(
    table: &[u8],
    constraints: u32,
    count: u32,
    start: u32,
    rows: u16,
    counts: NameCounts,
    permissions: &[usize],
) -> bool
    ensures { result ≡ constraints_fit (totals_in counts permissions.now)
        (each constraint_at (pieces count 10 (drop constraints table.now))) (pieces rows 6 (drop start table.now)) }
{
    statements_fit(
        table,
        count,
        start,
        rows,
        Component::COUNT,
        counts,
        |number, first| constraint_rows(table, constraints, number, first, counts, permissions),
    )
}

// ---- validatetrans statements

// How many rows the validatetrans statement of this number takes up, if it is good by itself. The statements of 4 bytes
// start at `relabels`. They name no permission.
fn relabel_rows(table: &[u8], relabels: u32, number: u32, counts: NameCounts) -> Option<u16>
    ensures { let r = relabel_at (drop (relabels + 4 * number) table.now) in result ≡ cond (ltb r.class counts.classes) (Some r.rows) None }
{
    let record = table_reader::relabel_at(table, relabels, number);
    if (record.class as usize) < counts.classes {
        Some(record.rows)
    } else {
        None
    }
}

// Whether so many validatetrans statements take up so many rows in order, with none left, and are good. The
// statements of 4 bytes start at `relabels`, the rows of 6 bytes at `start`.
pub fn relabels_fit(
    table: &[u8],
    relabels: u32,
    count: u32,
    start: u32,
    rows: u16,
    counts: NameCounts,
) -> bool
    ensures { result ≡ relabels_fit (totals_in counts []) (each relabel_at (pieces count 4 (drop relabels table.now)))
        (pieces rows 6 (drop start table.now)) }
{
    statements_fit(
        table,
        count,
        start,
        rows,
        Component::COUNT_OF_THREE,
        counts,
        |number, _first| relabel_rows(table, relabels, number, counts),
    )
}
