// The code of the statements, read one statement after the other; and the sets of a family's attributes, to which
// they are added.
//
// A family has at most 64 attributes. What is kept of each is a set of 64 bytes, one after the other, 4,096 bytes for
// a family.
#![tactic(auto)]

ghost use Rattle.std.specs.Prelude.{◌≡◌, ◌+◌, ◌*◌, ◌<◌, length, get_or, drop};
ghost use Rattle.code_reader.specs.Reading.{operands_of, is_relation, step_of};
ghost use Rattle.code_reader.specs.AttributeSets.{added};

use policy::{Attribute, Type};
use statement_code::Unit;

// The bytes of the sets of a family's attributes.
pub const FAMILY_BYTES: usize = Attribute::MAX * Type::SET_BYTES;

// ---- the code

// The code from a place on. Past the end there is none.
pub fn rest(code: &[u16], at: usize) -> &[u16]
    ensures { result.now ≡ drop at code.now }
{
    &code[at.min(code.len())..]
}

// The unit so many after a place, and 0 past the end.
pub fn unit(code: &[u16], at: usize, k: usize) -> u16
    ensures { result ≡ get_or code.now (at + k) 0 }
{
    rest(code, at).get(k).copied().unwrap_or(0)
}

// Where the operands of a statement end: at the next tag, or at the end of the code. Tags are numbered from
// DECLARE_ATTRIBUTE on.
fn statement_end(code: &[u16], from: usize) -> usize
    ensures { result ≡ from + length (operands_of (drop from code.now)) }
{
    let ahead = rest(code, from);
    let operands = ahead
        .iter()
        .position(|unit| Unit::DECLARE_ATTRIBUTE <= *unit)
        .unwrap_or(ahead.len());
    from + operands
}

// Whether a tag is that of a relation.
fn is_relation(tag: u16) -> bool
    ensures { result ≡ is_relation tag }
{
    Unit::RELATION <= tag && tag < Unit::TRANSITION
}

// Where the statement after the one at a place is. A relation has two operands and a transition four, so that
// nothing is looked for after them.
pub fn next_statement(code: &[u16], at: usize) -> usize
    requires { at < length code.now }
    ensures { (result ≡ step_of code.now at) × (at < result) }
{
    let tag = code[at];
    if is_relation(tag) {
        return at + 4;
    }
    if tag == Unit::TRANSITION {
        return at + 6;
    }
    statement_end(code, at + 2)
}

// ---- the sets of a family's attributes

// The set of attribute a gains what another set has. Past the last attribute there is none.
pub fn add_row(rows: &mut [u8; FAMILY_BYTES], a: u16, set: &[u8; Type::SET_BYTES])
    ensures { rows.new ≡ added rows.old a set.now }
{
    let row = a as usize;
    set_rows::union_at(rows, Type::SET_BYTES * row, Type::SET_BYTES, set);
}

// ---- a role transition

// The operands of a role transition: two references, the class and the new role.
#[derive(Clone, Copy)]
pub struct CodedTransition {
    pub roles: u16,
    pub types: u16,
    pub class: u16,
    pub new: u16,
}

// The operands of the transition that is at a place.
pub fn transition(code: &[u16], at: usize) -> CodedTransition
    ensures { (result.roles ≡ get_or code.now (at + 2) 0) × (result.types ≡ get_or code.now (at + 3) 0)
        × (result.class ≡ get_or code.now (at + 4) 0) × (result.new ≡ get_or code.now (at + 5) 0) }
{
    CodedTransition {
        roles: unit(code, at, 2),
        types: unit(code, at, 3),
        class: unit(code, at, 4),
        new: unit(code, at, 5),
    }
}
