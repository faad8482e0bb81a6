// Fault 9: the first role transition that clashes with an earlier one.
#![tactic(auto)]

ghost use Rattle.std.specs.Prelude.{◌≡◌, ◌&&◌, [], ◌-◌, ◌*◌, ◌≤◌, ltb, length, drop};
ghost use Rattle.policy.specs.Basics.{any};
ghost use Rattle.policy.specs.Statements as statements;
ghost use Rattle.policy.specs.Statements.{Policy, Transition, transitions};
ghost use Rattle.policy.specs.Faults as faults;
ghost use Rattle.policy.specs.Accepted.{Accepted};
ghost use Rattle.statement_code.specs.Code.{code_of};
ghost use Rattle.set_code.specs.Evaluation.{value_of};
ghost use Rattle.code_reader.specs.Reading.{found_of};
ghost use Rattle.code_reader.specs.AttributeSets.{final_sets};
ghost use Rattle.clashes.specs.Clashes.{shares_of, clashes_of, move_at, Codes, Segment, AllTransitions};

use code_reader::{CodedTransition, FAMILY_BYTES};
use policy::Type;
use statement_code::Unit;

// Where the set of an attribute begins, from the unit that names it.
fn row_of(unit: u16) -> usize
    requires { 1024 ≤ unit }
    ensures { result ≡ 64 * (unit - 1024) }
{
    let attribute = (unit - Unit::ATTRIBUTE) as usize;
    Type::SET_BYTES * attribute
}

// Whether a reference stands for a thing. Past the last type there is none.
fn stands_for(sets: &[u8; FAMILY_BYTES], unit: u16, n: u16) -> bool
    ensures { result ≡ (ltb n 512 && value_of sets.now unit n) }
{
    let thing = n as usize;
    if Type::MAX <= thing {
        return false;
    }
    if unit < Unit::ATTRIBUTE {
        return n == unit;
    }
    set_rows::contains_at(sets, row_of(unit), Type::SET_BYTES, thing)
}

// Whether two references stand for one thing.
fn share(sets: &[u8; FAMILY_BYTES], x: u16, y: u16) -> bool
    ensures { result ≡ shares_of sets.now x y }
{
    if x < Unit::ATTRIBUTE {
        return stands_for(sets, y, x);
    }
    if y < Unit::ATTRIBUTE {
        return stands_for(sets, x, y);
    }
    let second = byte_slices::part(sets, row_of(y), Type::SET_BYTES);
    set_rows::meets_at(sets, row_of(x), Type::SET_BYTES, second)
}

// Whether two transitions share a role, a type and the class, and their new roles differ.
#[tactic(auto, unfolding(crate::specs::Clashes::clashes_of))]
fn clash_between(
    a: CodedTransition,
    b: CodedTransition,
    role_sets: &[u8; FAMILY_BYTES],
    type_sets: &[u8; FAMILY_BYTES],
) -> bool
    ensures { result ≡ clashes_of role_sets.now type_sets.now a b }
{
    a.class == b.class
        && a.new != b.new
        && share(role_sets, a.roles, b.roles)
        && share(type_sets, a.types, b.types)
}

// Whether a transition clashes with the one that is at a place.
fn clashes_at(
    earlier: &[u16],
    at: usize,
    later: CodedTransition,
    role_sets: &[u8; FAMILY_BYTES],
    type_sets: &[u8; FAMILY_BYTES],
) -> bool
    ensures { result ≡ clashes_of role_sets.now type_sets.now later (move_at earlier.now at) }
{
    clash_between(
        later,
        code_reader::transition(earlier, at),
        role_sets,
        type_sets,
    )
}

// Whether a transition clashes with one of the earlier statements, whose code is given.
fn clashes_earlier(
    earlier: &[u16],
    later: CodedTransition,
    role_sets: &[u8; FAMILY_BYTES],
    type_sets: &[u8; FAMILY_BYTES],
) -> bool
    ensures { (p part : Policy) (t : Transition) → Accepted p → Segment p part → earlier.now ≡ code_of part → Codes p t later
        → role_sets.now ≡ final_sets p statements.roles → type_sets.now ≡ final_sets p statements.types
        → result ≡ any (faults.clashes p t) (transitions part) }
{
    let mut at = 0;
    while at < earlier.len() {
        let next = code_reader::next_statement(earlier, at);
        if earlier[at] == Unit::TRANSITION {
            if clashes_at(earlier, at, later, role_sets, type_sets) {
                return true;
            }
        }
        at = next;
    }
    false
}

// The first transition in a part of the code that clashes with an earlier one in it.
fn first_clash(
    code: &[u16],
    role_sets: &[u8; FAMILY_BYTES],
    type_sets: &[u8; FAMILY_BYTES],
) -> Option<usize>
    ensures { (p part : Policy) → Accepted p → Segment p part → code.now ≡ code_of part
        → role_sets.now ≡ final_sets p statements.roles → type_sets.now ≡ final_sets p statements.types
        → found_of result ≡ faults.first_clash p [] (transitions part) }
{
    let mut at = 0;
    while at < code.len() {
        let next = code_reader::next_statement(code, at);
        if code[at] == Unit::TRANSITION {
            if clashes_earlier(
                &code[..at],
                code_reader::transition(code, at),
                role_sets,
                type_sets,
            ) {
                return Some(code_reader::unit(code, at, 1) as usize);
            }
        }
        at = next;
    }
    None
}

// Where the first transition is, or the end of the code.
fn first_transition(code: &[u16]) -> usize
    ensures { (result ≤ length code.now)
        × ((p : Policy) → Accepted p → code.now ≡ code_of p → AllTransitions p (drop result code.now)) }
{
    let mut at = 0;
    while at < code.len() {
        if code[at] == Unit::TRANSITION {
            return at;
        }
        at = code_reader::next_statement(code, at);
    }
    code.len()
}

// Fault 9: the first transition that clashes with an earlier one. The earlier code is read again for each transition,
// so the code before the first is left out.
pub fn clash(
    code: &[u16],
    role_sets: &[u8; FAMILY_BYTES],
    type_sets: &[u8; FAMILY_BYTES],
) -> Option<usize>
    ensures { (p : Policy) → Accepted p → code.now ≡ code_of p
        → role_sets.now ≡ final_sets p statements.roles → type_sets.now ≡ final_sets p statements.types
        → found_of result ≡ faults.clash p }
{
    let first = first_transition(code);
    first_clash(&code[first..], role_sets, type_sets)
}
