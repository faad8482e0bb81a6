// The units of the statement code that the parser writes and the resolver reads, and how one is written; what they
// stand for is in specs/.
#![tactic(auto)]

ghost use Rattle.std.specs.Prelude.{◌≡◌, ◌≤◌};
ghost use Rattle.policy.specs.Answers.{family_of, relation_of};
ghost use Rattle.statement_code.specs.Code.{family_number, relation_number};
ghost use Rattle.statement_code.specs.UnitWrites.{Stored};

use policy::{Family, Relation};

// A unit of the code. (A number: the code is lent memory, in which a unit takes two bytes.)
#[derive(Clone, Copy)]
pub struct Unit(pub u16);

impl Unit {
    // A reference to attribute a is ATTRIBUTE + a; to thing n it is n.
    pub const ATTRIBUTE: u16 = 1_024;

    // The operators of a set expression, and the mark after the last operand.
    pub const ALL: u16 = 2_048;

    pub const NOT: u16 = 2_049;

    pub const AND: u16 = 2_050;

    pub const OR: u16 = 2_051;

    pub const XOR: u16 = 2_052;

    pub const UNION: u16 = 2_053;

    pub const END: u16 = 2_054;

    // The tags of the statements; the family's or relation's number is added to the first three.
    pub const DECLARE_ATTRIBUTE: u16 = 4_096;

    pub const ATTRIBUTE_SET: u16 = 4_099;

    pub const RELATION: u16 = 4_102;

    pub const TRANSITION: u16 = 4_105;
}

// The number of a family, in the symbol table and in tags. It is a function and no `From`: both types of such an impl
// are of crates below this one.
pub fn family_number(family: Family) -> u16
    ensures { (result ≡ family_number (family_of family)) × (result ≤ 2) }
{
    match family {
        Family::Users => 0,
        Family::Roles => 1,
        Family::Types => 2,
    }
}

// The number of a relation, in tags.
pub fn relation_number(relation: Relation) -> u16
    ensures { (result ≡ relation_number (relation_of relation)) × (result ≤ 2) }
{
    match relation {
        Relation::UserRole => 0,
        Relation::RoleType => 1,
        Relation::RoleAllow => 2,
    }
}

// Writes a unit at a place, if the code reaches there, and answers the next place.
pub fn put_unit(code: &mut [u16], at: usize, unit: u16) -> usize
    ensures { Stored code.old at unit code.new result }
{
    if at < code.len() {
        code[at] = unit;
        return at + 1;
    }
    at
}
