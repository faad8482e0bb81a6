// The final set of each attribute of a family, in rounds: in each, attributes stand for their sets of the round before.
#![tactic(auto)]

ghost use Rattle.std.specs.Prelude.{◌≡◌, List, ◌++◌, ℕ, ◌+◌, drop};
ghost use Rattle.bitset.specs.Sets.{set_of, equal};
ghost use Rattle.bitset.specs.Relations.{relation};
ghost use Rattle.policy.specs.Answers.{family_of};
ghost use Rattle.policy.specs.Statements.{Policy, Reference, SetExpr};
ghost use Rattle.policy.specs.Meaning as meaning;
ghost use Rattle.policy.specs.Meaning.{of_s, count_in};
ghost use Rattle.policy.specs.Accepted.{Accepted};
ghost use Rattle.statement_code.specs.Code.{set_code, code_of};
ghost use Rattle.set_code.specs.Evaluation.{sets_in};
ghost use Rattle.statement_code.specs.Numbered.{Numbered};
ghost use Rattle.code_reader.specs.AttributeSets.{added, final_sets};

use code_reader::FAMILY_BYTES;
use policy::{Attribute, Family, Type};
use statement_code::Unit;

// The set of attribute a gains that of the S whose code is at a place, in which attributes stand for their sets of
// before.
fn add_set(
    code: &[u16],
    from: usize,
    a: u16,
    total: usize,
    before: &[u8; FAMILY_BYTES],
    after: &mut [u8; FAMILY_BYTES],
)
    ensures { (s : SetExpr Reference) (rest : List ℕ) → Numbered s → drop from code.now ≡ set_code s ++ rest
        → after.new ≡ added after.old a (set_of 64 (of_s total (sets_in before.now) s)) }
{
    let mut set = [0u8; Type::SET_BYTES];
    set_code::evaluate(code, from, total, before, &mut set);
    code_reader::add_row(after, a, &set);
}

// One round: each attribute of a family becomes the union of the S in its statements, in which attributes stand for
// their sets of before.
pub fn round(
    code: &[u16],
    family: Family,
    total: usize,
    before: &[u8; FAMILY_BYTES],
    after: &mut [u8; FAMILY_BYTES],
)
    ensures { (p : Policy) → Accepted p → code.now ≡ code_of p → total ≡ count_in p (family_of family)
        → after.new ≡ relation 64 64 (meaning.union_of p (family_of family) (sets_in before.now)) }
{
    bitset::clear(after);
    let tag = Unit::ATTRIBUTE_SET + statement_code::family_number(family);
    let mut at = 0;
    while at < code.len() {
        let next = code_reader::next_statement(code, at);
        if code[at] == tag {
            add_set(
                code,
                at + 3,
                code_reader::unit(code, at, 2),
                total,
                before,
                after,
            );
        }
        at = next;
    }
}

// Whether the sets of all attributes are the same.
pub fn same_rows(a: &[u8; FAMILY_BYTES], b: &[u8; FAMILY_BYTES]) -> bool
    ensures { result ≡ equal a.now b.now }
{
    set_operators::equal(a, b)
}

// The final set of each attribute of a family. Rounds go on until one changes nothing, and 64 are always enough.
pub fn final_sets(code: &[u16], family: Family, total: usize, sets: &mut [u8; FAMILY_BYTES])
    ensures { (p : Policy) → Accepted p → code.now ≡ code_of p → total ≡ count_in p (family_of family)
        → sets.new ≡ final_sets p (family_of family) }
{
    bitset::clear(sets);
    let mut next = [0u8; FAMILY_BYTES];
    for _round in 0..Attribute::MAX {
        round(code, family, total, sets, &mut next);
        if same_rows(sets, &next) {
            return;
        }
        *sets = next;
    }
}
