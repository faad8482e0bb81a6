// Attribute sets, relations and role transitions with their names resolved, written as statement code: fault 5. The
// form of a statement is known to be good where these functions are called; what is found out here is whether its
// names are declared, and its units are written on the way. There is no answer where a name is not declared before, or
// is of the wrong sort.
#![tactic(auto)]

ghost use Rattle.std.specs.Prelude.{◌≡◌, [], ◌∷◌};
ghost use Rattle.policy.specs.Answers.{family_of, relation_of};
ghost use Rattle.policy.specs.Statements.{from_of, to_of};
ghost use Rattle.policy.specs.Words.{set_k, relation_k, transition_k};
ghost use Rattle.statement_code.specs.Code.{attribute_tag};
ghost use Rattle.statement_writer.specs.NameKinds.{Numbers, Names, WritesNames};
ghost use Rattle.statement_writer.specs.ResolvedUnits.{Stores, WritesStatement};

use items::Item;
use lexer::Level;
use policy::{Family, Relation, Sort};
use set_writer::Written;
use statement_code::Unit;
use symbols::Symbol;

// What a name of a statement may stand for: a thing or an attribute of a family; an attribute of it and no thing; a
// class; a role and no attribute.
#[derive(Clone, Copy)]
enum Kind {
    Reference(Family),
    Attribute(Family),
    Class,
    Role,
}

// ---- names

// The number of what a name names in a sort of the symbol table. What has the name and another sort is missing.
fn number_of(symbols: &[u8], sort: usize, name: &[u8]) -> Option<u16>
    ensures { Numbers symbols.now sort name.now result }
{
    let family = symbols::family_of(sort, 0);
    let found = scopes::lookup(symbols, family, name);
    match found {
        Some(Symbol { sort: s, number }) => {
            if s != sort {
                return None;
            }
            if Unit::ATTRIBUTE as usize <= number {
                return None;
            }
            Some(number as u16)
        }
        None => None,
    }
}

// The unit of what a name names, as a name of a kind.
fn name_unit(kind: Kind, symbols: &[u8], name: &[u8]) -> Option<u16>
    ensures { Names symbols.now kind name.now result }
{
    match kind {
        Kind::Reference(family) => {
            let number = statement_code::family_number(family) as usize;
            set_writer::reference(symbols, number, name)
        }
        Kind::Attribute(family) => {
            let number = statement_code::family_number(family) as usize;
            number_of(symbols, Sort::FIRST_ATTRIBUTE + number, name)
        }
        Kind::Class => number_of(symbols, Sort::CLASS, name),
        Kind::Role => number_of(symbols, Sort::ROLE, name),
    }
}

// Writes the unit of the name at a place.
fn write_name(
    text: &[u8],
    at: usize,
    kind: Kind,
    symbols: &[u8],
    code: &mut [u16],
    to: usize,
) -> Option<Written>
    ensures { WritesNames text.now at (kind ∷ []) symbols.now code.old to code.new result }
{
    let item = items::next_item(text, at);
    let Item::Word {
        start,
        len,
        next,
        ..
    } = item
    else {
        return None;
    };
    let end = start + len;
    let name = &text[start..end];
    let unit = name_unit(kind, symbols, name)?;
    let past = statement_code::put_unit(code, to, unit);
    Some(Written { at: next, to: past })
}

// Writes the units of the two names from a place on.
fn write_pair(
    text: &[u8],
    at: usize,
    first: Kind,
    second: Kind,
    symbols: &[u8],
    code: &mut [u16],
    to: usize,
) -> Option<Written>
    ensures { WritesNames text.now at (first ∷ second ∷ []) symbols.now code.old to code.new result }
{
    let name = write_name(text, at, first, symbols, code, to)?;
    write_name(text, name.at, second, symbols, code, name.to)
}

// ---- statements

// Writes what every statement's code begins with: its tag and its place.
fn write_head(tag: u16, place: u16, code: &mut [u16], to: usize) -> usize
    ensures { Stores code.old to (tag ∷ place ∷ []) code.new result }
{
    let u = statement_code::put_unit(code, to, tag);
    statement_code::put_unit(code, u, place)
}

// Writes the declaration of an attribute: its tag and place. The answer is the place after them.
pub fn write_attribute(family: Family, place: u16, code: &mut [u16], to: usize) -> usize
    ensures { Stores code.old to (attribute_tag (family_of family) ∷ place ∷ []) code.new result }
{
    let tag = Unit::DECLARE_ATTRIBUTE + statement_code::family_number(family);
    write_head(tag, place, code, to)
}

// The family of the first name of a relation.
fn first_family(relation: Relation) -> Family
    ensures { family_of result ≡ from_of (relation_of relation) }
{
    match relation {
        Relation::UserRole => Family::Users,
        Relation::RoleType => Family::Roles,
        Relation::RoleAllow => Family::Roles,
    }
}

// The family of the second name of a relation.
fn second_family(relation: Relation) -> Family
    ensures { family_of result ≡ to_of (relation_of relation) }
{
    match relation {
        Relation::UserRole => Family::Roles,
        Relation::RoleType => Family::Types,
        Relation::RoleAllow => Family::Roles,
    }
}

// Writes `(userrole U R)`, `(roletype R T)` or `(roleallow R R)`, whose names are from a place on.
pub fn write_relation(
    text: &[u8],
    at: usize,
    place: u16,
    relation: Relation,
    symbols: &[u8],
    code: &mut [u16],
    to: usize,
) -> Option<usize>
    ensures { WritesStatement text.now at (relation_k (relation_of relation)) place symbols.now code.old to code.new result }
{
    let tag = Unit::RELATION + statement_code::relation_number(relation);
    let u = write_head(tag, place, code, to);
    let first = Kind::Reference(first_family(relation));
    let second = Kind::Reference(second_family(relation));
    let names = write_pair(text, at, first, second, symbols, code, u)?;
    Some(names.to)
}

// Writes `(roletransition R T C R)`, whose names are from a place on.
pub fn write_transition(
    text: &[u8],
    at: usize,
    place: u16,
    symbols: &[u8],
    code: &mut [u16],
    to: usize,
) -> Option<usize>
    ensures { WritesStatement text.now at transition_k place symbols.now code.old to code.new result }
{
    let u = write_head(Unit::TRANSITION, place, code, to);
    let first = Kind::Reference(Family::Roles);
    let second = Kind::Reference(Family::Types);
    let names = write_pair(text, at, first, second, symbols, code, u)?;
    let others = write_pair(
        text,
        names.at,
        Kind::Class,
        Kind::Role,
        symbols,
        code,
        names.to,
    )?;
    Some(others.to)
}

// Writes `(userattributeset A S)` and the same for roles and types, whose A is the name at a place. The parentheses
// of the statement are level 1 and those of S level 2, so S may hold parts for all levels but two.
pub fn write_attribute_set(
    text: &[u8],
    at: usize,
    place: u16,
    family: Family,
    symbols: &[u8],
    code: &mut [u16],
    to: usize,
) -> Option<usize>
    ensures { WritesStatement text.now at (set_k (family_of family)) place symbols.now code.old to code.new result }
{
    let number = statement_code::family_number(family);
    let u = write_head(Unit::ATTRIBUTE_SET + number, place, code, to);
    let name = write_name(text, at, Kind::Attribute(family), symbols, code, u)?;
    let item = items::next_item(text, name.at);
    let Item::Open { next: inner, .. } = item else {
        return None;
    };
    let levels = Level::MAX - 2;
    let set = set_writer::write_set(text, inner, levels, symbols, number as usize, code, name.to)?;
    Some(set.to)
}
