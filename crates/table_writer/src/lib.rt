// Puts a table together: its length, its header, and its bodies one after the other.
#![tactic(auto)]

ghost use Rattle.std.specs.Prelude.{◌≡◌, ◌+◌, ◌*◌, ◌≤◌};
ghost use Rattle.policy.specs.Basics.{le};
ghost use Rattle.table_writer.specs.PutBytes.{Puts, pair};
ghost use Rattle.table_writer.specs.TableSizes.{Few, Spaced, Needs, WritesPairs, WritesLaterPairs, WritesHeader};
ghost use Rattle.table_writer.specs.TableBodies.{WritesRoleRelations, WritesRelations, WritesRules, WritesAttributes, WritesRelabels, WritesTable};

use code_reader::FAMILY_BYTES;
use policy::{Constraint, Relabel, Relation, Role, Row, Section, Table, Transition, Type, User};

// How many of each a table has, and how many bytes its names take.
#[derive(Clone, Copy)]
pub struct Sizes {
    pub names: usize,
    pub users: usize,
    pub roles: usize,
    pub transitions: usize,
    pub constraints: usize,
    pub rows: usize,
    pub user_attributes: usize,
    pub role_attributes: usize,
    pub type_attributes: usize,
    pub relabels: usize,
    pub relabel_rows: usize,
}

// Where the bodies after the first start, and where the last ends. The sets of attributes are one body of three parts.
#[derive(Clone, Copy)]
struct Starts {
    user_roles: usize,
    role_types: usize,
    role_roles: usize,
    transitions: usize,
    constraints: usize,
    rows: usize,
    user_sets: usize,
    role_sets: usize,
    type_sets: usize,
    relabels: usize,
    relabel_rows: usize,
    end: usize,
}

// The edition and the number of sections, two bytes each, as one number.
const EDITION_AND_SECTIONS: usize = Table::EDITION as usize + 65_536 * (Table::SECTIONS as usize);

// No place of a table and no number of its entries comes near this.
const FAR: usize = 100_000_000;

// ---- places

// The place after so many entries of a width that start at a place.
fn past(start: usize, many: usize, width: usize) -> usize
    ensures { start ≤ 100000000 → many ≤ 100000000 → width ≤ 100000000 → result ≡ start + many * width }
{
    if FAR < start {
        return start;
    }
    if FAR < many {
        return start;
    }
    if FAR < width {
        return start;
    }
    start + many * width
}

// Where the bodies of a table of these sizes start.
fn body_starts(sizes: Sizes) -> Starts
    ensures { Few sizes → Spaced sizes result }
{
    let user_roles = past(Table::HEADER_BYTES, sizes.names, 1);
    let role_types = past(user_roles, sizes.users, Role::SET_BYTES);
    let role_roles = past(role_types, sizes.roles, Type::SET_BYTES);
    let transitions = past(role_roles, sizes.roles, Role::SET_BYTES);
    let constraints = past(transitions, sizes.transitions, Transition::BYTES);
    let rows = past(constraints, sizes.constraints, Constraint::BYTES);
    let user_sets = past(rows, sizes.rows, Row::BYTES);
    let role_sets = past(user_sets, sizes.user_attributes, User::SET_BYTES);
    let type_sets = past(role_sets, sizes.role_attributes, Role::SET_BYTES);
    let relabels = past(type_sets, sizes.type_attributes, Type::SET_BYTES);
    let relabel_rows = past(relabels, sizes.relabels, Relabel::BYTES);
    let end = past(relabel_rows, sizes.relabel_rows, Row::BYTES);
    Starts {
        user_roles,
        role_types,
        role_roles,
        transitions,
        constraints,
        rows,
        user_sets,
        role_sets,
        type_sets,
        relabels,
        relabel_rows,
        end,
    }
}

// The length of a table of these sizes.
pub fn needed(sizes: Sizes) -> usize
    ensures { Needs sizes result }
{
    let places = body_starts(sizes);
    places.end
}

// ---- the header

// Writes a number in four bytes, lowest first.
fn put_u32(table: &mut [u8], at: usize, n: usize)
    ensures { Puts (le 4 n) table.old at table.new }
{
    if table.len() < 4 {
        return;
    }
    if table.len() - 4 < at {
        return;
    }
    little_endian::put4(table, at, n);
}

// Writes the offset and the length of a section's body, at the section's place in the header.
fn put_pair(table: &mut [u8], section: u8, start: usize, end: usize)
    ensures { start ≤ end → Puts (pair start end) table.old (4 + 8 * section) table.new }
{
    let at = Table::FIRST_PAIR + Table::PAIR_BYTES * (section as usize);
    if table.len() <= at {
        return;
    }
    if end < start {
        return;
    }
    put_u32(table, at, start);
    put_u32(table, at + 4, end - start);
}

// Writes the pairs of the sections that every edition has.
fn write_pairs(places: Starts, table: &mut [u8])
    ensures { WritesPairs places table.old table.new }
{
    put_pair(
        table,
        Section::NAMES,
        Table::HEADER_BYTES,
        places.user_roles,
    );
    put_pair(
        table,
        Section::USER_ROLES,
        places.user_roles,
        places.role_types,
    );
    put_pair(
        table,
        Section::ROLE_TYPES,
        places.role_types,
        places.role_roles,
    );
    put_pair(
        table,
        Section::ROLE_ROLES,
        places.role_roles,
        places.transitions,
    );
    put_pair(
        table,
        Section::TRANSITIONS,
        places.transitions,
        places.constraints,
    );
    put_pair(table, Section::CONSTRAINTS, places.constraints, places.rows);
    put_pair(table, Section::ROWS, places.rows, places.user_sets);
    put_pair(
        table,
        Section::ATTRIBUTE_SETS,
        places.user_sets,
        places.relabels,
    );
}

// Writes the pairs of the sections that edition 2 has besides.
fn write_later_pairs(places: Starts, table: &mut [u8])
    ensures { WritesLaterPairs places table.old table.new }
{
    put_pair(
        table,
        Section::RELABELS,
        places.relabels,
        places.relabel_rows,
    );
    put_pair(
        table,
        Section::RELABEL_ROWS,
        places.relabel_rows,
        places.end,
    );
}

// Writes all that is before the first body.
fn write_header(places: Starts, table: &mut [u8])
    ensures { WritesHeader places table.old table.new }
{
    put_u32(table, 0, EDITION_AND_SECTIONS);
    write_pairs(places, table);
    write_later_pairs(places, table);
}

// ---- the bodies

// Bodies 3 and 4: the types of each role, and the roles that each role may become.
fn write_role_relations(
    places: Starts,
    sizes: Sizes,
    code: &[u16],
    role_sets: &[u8; FAMILY_BYTES],
    type_sets: &[u8; FAMILY_BYTES],
    table: &mut [u8],
)
    ensures { WritesRoleRelations places sizes code.now role_sets.now type_sets.now table.old table.new }
{
    body_writer::write_relation(
        code,
        Relation::RoleType,
        role_sets,
        type_sets,
        table,
        places.role_types,
        sizes.roles,
        Type::SET_BYTES,
    );
    body_writer::write_relation(
        code,
        Relation::RoleAllow,
        role_sets,
        role_sets,
        table,
        places.role_roles,
        sizes.roles,
        Role::SET_BYTES,
    );
}

// Bodies 1 to 4: the names, and the three relations.
fn write_relations(
    places: Starts,
    sizes: Sizes,
    symbols: &[u8],
    code: &[u16],
    user_sets: &[u8; FAMILY_BYTES],
    role_sets: &[u8; FAMILY_BYTES],
    type_sets: &[u8; FAMILY_BYTES],
    table: &mut [u8],
)
    ensures { WritesRelations places sizes symbols.now code.now user_sets.now role_sets.now type_sets.now
        table.old table.new }
{
    body_writer::copy(symbols, sizes.names, table, Table::HEADER_BYTES);
    body_writer::write_relation(
        code,
        Relation::UserRole,
        user_sets,
        role_sets,
        table,
        places.user_roles,
        sizes.users,
        Role::SET_BYTES,
    );
    write_role_relations(places, sizes, code, role_sets, type_sets, table);
}

// Bodies 5 to 7: transitions, constraints and their rows.
fn write_rules(
    places: Starts,
    sizes: Sizes,
    code: &[u16],
    constraints: &[u8],
    rows: &[u8],
    role_sets: &[u8; FAMILY_BYTES],
    type_sets: &[u8; FAMILY_BYTES],
    table: &mut [u8],
)
    ensures { WritesRules places sizes code.now constraints.now rows.now role_sets.now type_sets.now
        table.old table.new }
{
    body_writer::write_transitions(code, role_sets, type_sets, table, places.transitions);
    let constraint_bytes = past(0, sizes.constraints, Constraint::BYTES);
    body_writer::copy(constraints, constraint_bytes, table, places.constraints);
    let row_bytes = past(0, sizes.rows, Row::BYTES);
    body_writer::copy(rows, row_bytes, table, places.rows);
}

// Body 8: the sets of the attributes of each family.
fn write_attributes(
    places: Starts,
    sizes: Sizes,
    user_sets: &[u8; FAMILY_BYTES],
    role_sets: &[u8; FAMILY_BYTES],
    type_sets: &[u8; FAMILY_BYTES],
    table: &mut [u8],
)
    ensures { WritesAttributes places sizes user_sets.now role_sets.now type_sets.now
        table.old table.new }
{
    body_writer::write_sets(
        user_sets,
        sizes.user_attributes,
        User::SET_BYTES,
        table,
        places.user_sets,
    );
    body_writer::write_sets(
        role_sets,
        sizes.role_attributes,
        Role::SET_BYTES,
        table,
        places.role_sets,
    );
    body_writer::write_sets(
        type_sets,
        sizes.type_attributes,
        Type::SET_BYTES,
        table,
        places.type_sets,
    );
}

// Bodies 9 and 10: the validatetrans statements and their rows. In the memory, which holds constrains too, each starts
// after room for all that there may be of those.
fn write_relabels(places: Starts, sizes: Sizes, constraints: &[u8], rows: &[u8], table: &mut [u8])
    ensures { WritesRelabels places sizes constraints.now rows.now table.old table.new }
{
    let relabel_bytes = past(0, sizes.relabels, Relabel::BYTES);
    let relabels = byte_slices::part(constraints, Constraint::MAX_BODY_BYTES, relabel_bytes);
    body_writer::copy(relabels, relabel_bytes, table, places.relabels);
    let row_bytes = past(0, sizes.relabel_rows, Row::BYTES);
    let relabel_rows = byte_slices::part(rows, Row::MAX_BODY_BYTES, row_bytes);
    body_writer::copy(relabel_rows, row_bytes, table, places.relabel_rows);
}

// Writes the table of these sizes. Names, constraints and rows are copied; the rest is made from the code and the
// final sets.
pub fn write_table(
    sizes: Sizes,
    symbols: &[u8],
    code: &[u16],
    constraints: &[u8],
    rows: &[u8],
    user_sets: &[u8; FAMILY_BYTES],
    role_sets: &[u8; FAMILY_BYTES],
    type_sets: &[u8; FAMILY_BYTES],
    table: &mut [u8],
)
    ensures { WritesTable sizes symbols.now code.now constraints.now rows.now
        user_sets.now role_sets.now type_sets.now table.old table.new }
{
    let places = body_starts(sizes);
    write_header(places, table);
    write_relations(
        places, sizes, symbols, code, user_sets, role_sets, type_sets, table,
    );
    write_rules(
        places,
        sizes,
        code,
        constraints,
        rows,
        role_sets,
        type_sets,
        table,
    );
    write_attributes(places, sizes, user_sets, role_sets, type_sets, table);
    write_relabels(places, sizes, constraints, rows, table);
}
