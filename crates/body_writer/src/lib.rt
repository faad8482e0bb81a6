// The bodies of a table that are made from the code of the statements and the final sets: relations, transitions,
// attribute sets. Each is written straight into the lent table, from a place on.
//
// Every function takes every place and every length. What is promised of the table holds where it has room; past its
// end nothing is written.
#![tactic(auto)]

ghost use Rattle.std.specs.Prelude.{◌≡◌, [], ◌∷◌, ◌<◌, ◌≤◌, eqb, length, take};
ghost use Rattle.bitset.specs.Sets.{set_of};
ghost use Rattle.byte_slices.specs.Parts.{part, put};
ghost use Rattle.bitset.specs.Relations.{granted};
ghost use Rattle.set_code.specs.Evaluation.{value_of};
ghost use Rattle.body_writer.specs.WrittenBytes.{Appended, Copies};
ghost use Rattle.body_writer.specs.Bodies.{WritesRelation, WritesTransition, WritesTransitions, WritesSets};

use code_reader::{CodedTransition, FAMILY_BYTES};
use policy::{Attribute, Relation, Role, Type, User};
use statement_code::Unit;

// ---- bytes

// The first len bytes of src are in the table from a place on.
pub fn copy(src: &[u8], len: usize, table: &mut [u8], at: usize)
    ensures { Copies src.now len table.old at table.new }
{
    set_rows::copy_at(table, at, len, src);
}

// The same, and the answer is the place after them, or the same place where there is no room.
fn append(src: &[u8], len: usize, table: &mut [u8], at: usize) -> usize
    ensures { len ≤ length src.now → Appended (take len src.now) table.old at table.new result }
{
    copy(src, len, table, at);
    if table.len() < at {
        return at;
    }
    if table.len() - at < len {
        return at;
    }
    at + len
}

// Writes a number below 256 as a byte, if the table reaches there, and answers the next place.
fn append_byte(table: &mut [u8], at: usize, number: u16) -> usize
    ensures { number < 256 → Appended (number ∷ []) table.old at table.new result }
{
    if at < table.len() {
        table[at] = (number % 256) as u8;
        return at + 1;
    }
    at
}

// ---- attribute sets

// One family's part of body 8: the sets of so many attributes, in so many bytes each.
pub fn write_sets(sets: &[u8; FAMILY_BYTES], many: usize, width: usize, table: &mut [u8], at: usize)
    ensures { WritesSets sets.now many width table.old at table.new }
{
    let mut to = at;
    for a in 0..many.min(Attribute::MAX) {
        let set = byte_slices::part(sets, Type::SET_BYTES * a, Type::SET_BYTES);
        to = append(set, width, table, to);
    }
}

// ---- relations

// In the body of rows of width bytes that is in the size bytes at a place, the row of one thing gains what a
// reference stands for. A row that starts past the body's end gains nothing, and one that the end cuts gains as far
// as it reaches.
fn grant_row(
    thing: usize,
    to: u16,
    sets: &[u8; FAMILY_BYTES],
    table: &mut [u8],
    at: usize,
    size: usize,
    width: usize,
)
    requires { (thing < 512) × (width ≤ 64) }
    ensures { table.new ≡ put table.old at (granted width (part table.old at size)
        (set_of 64 (λ n. eqb n thing)) (set_of 64 (value_of sets.now to))) }
{
    let body = byte_slices::part(table, at, size).len();
    let start = width * thing;
    if body <= start {
        return;
    }
    let row = at + start;
    let reach = width.min(body - start);
    if to < Unit::ATTRIBUTE {
        set_rows::insert_at(table, row, reach, to as usize);
        return;
    }
    let mut gained = [0u8; Type::SET_BYTES];
    set_code::reference(to, sets, &mut gained);
    set_rows::union_at(table, row, reach, &gained);
}

// The same for each row of a reference. The row of a single thing is found without a walk over all rows; a number
// that no set holds, or rows wider than a set, are left to the walk.
fn grant_line(
    from: u16,
    to: u16,
    from_sets: &[u8; FAMILY_BYTES],
    to_sets: &[u8; FAMILY_BYTES],
    table: &mut [u8],
    at: usize,
    size: usize,
    width: usize,
)
    ensures { table.new ≡ put table.old at (granted width (part table.old at size)
        (set_of 64 (value_of from_sets.now from)) (set_of 64 (value_of to_sets.now to))) }
{
    let thing = from as usize;
    if thing < Type::MAX && width <= Type::SET_BYTES {
        grant_row(thing, to, to_sets, table, at, size, width);
        return;
    }
    let mut rows = [0u8; Type::SET_BYTES];
    set_code::reference(from, from_sets, &mut rows);
    let mut gained = [0u8; Type::SET_BYTES];
    set_code::reference(to, to_sets, &mut gained);
    set_rows::grant_at(table, at, size, &rows, &gained, width);
}

// Body 2, 3 or 4: so many sets, in so many bytes each. A statement of the relation has two operands, so the next one
// starts four units on.
pub fn write_relation(
    code: &[u16],
    relation: Relation,
    from_sets: &[u8; FAMILY_BYTES],
    to_sets: &[u8; FAMILY_BYTES],
    table: &mut [u8],
    at: usize,
    many: usize,
    width: usize,
)
    ensures { WritesRelation code.now relation from_sets.now to_sets.now table.old at many width table.new }
{
    if User::MAX < many {
        return;
    }
    if Type::SET_BYTES < width {
        return;
    }
    let size = width * many;
    bitset::clear_at(table, at, size);
    let tag = Unit::RELATION + statement_code::relation_number(relation);
    let mut place = 0;
    while place < code.len() {
        if code[place] == tag {
            let from = code_reader::unit(code, place, 2);
            let to = code_reader::unit(code, place, 3);
            grant_line(from, to, from_sets, to_sets, table, at, size, width);
            place += 4;
        } else {
            place = code_reader::next_statement(code, place);
        }
    }
}

// ---- transitions

// One entry of body 5. Answers the place after it.
fn write_transition(
    operands: CodedTransition,
    role_sets: &[u8; FAMILY_BYTES],
    type_sets: &[u8; FAMILY_BYTES],
    table: &mut [u8],
    at: usize,
) -> usize
    ensures { WritesTransition operands role_sets.now type_sets.now table.old at table.new result }
{
    let mut roles = [0u8; Type::SET_BYTES];
    set_code::reference(operands.roles, role_sets, &mut roles);
    let mut types = [0u8; Type::SET_BYTES];
    set_code::reference(operands.types, type_sets, &mut types);
    let second = append(&roles, Role::SET_BYTES, table, at);
    let third = append(&types, Type::SET_BYTES, table, second);
    let last = append_byte(table, third, operands.class);
    append_byte(table, last, operands.new)
}

// Body 5, from a place on.
pub fn write_transitions(
    code: &[u16],
    role_sets: &[u8; FAMILY_BYTES],
    type_sets: &[u8; FAMILY_BYTES],
    table: &mut [u8],
    at: usize,
)
    ensures { WritesTransitions code.now role_sets.now type_sets.now table.old at table.new }
{
    let mut to = at;
    let mut place = 0;
    while place < code.len() {
        let next = code_reader::next_statement(code, place);
        if code[place] == Unit::TRANSITION {
            let operands = code_reader::transition(code, place);
            to = write_transition(operands, role_sets, type_sets, table, to);
        }
        place = next;
    }
}
