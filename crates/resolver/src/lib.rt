// From the code of the statements alone: the final set of every attribute, and faults 8 and 9 in their order.
#![tactic(auto)]

ghost use Rattle.std.specs.Prelude.{◌≡◌, IfErr};
ghost use Rattle.policy.specs.Answers.{family_of};
ghost use Rattle.policy.specs.Statements as statements;
ghost use Rattle.policy.specs.Statements.{Policy};
ghost use Rattle.policy.specs.Meaning.{count_in};
ghost use Rattle.policy.specs.Faults as faults;
ghost use Rattle.policy.specs.Accepted.{Accepted};
ghost use Rattle.statement_code.specs.Code.{code_of};
ghost use Rattle.code_reader.specs.Reading.{found_of};
ghost use Rattle.code_reader.specs.AttributeSets.{final_sets};
ghost use Rattle.resolver.specs.LaterFaults.{IsRefusal, Resolves};

use code_reader::FAMILY_BYTES;
use policy::{Family, Fault, FaultAt};

// The final set of each attribute of a family, and fault 8 in the family. Where no attribute mentions another, one
// round is all and there is no cycle.
fn resolve_family(
    code: &[u16],
    family: Family,
    total: usize,
    sets: &mut [u8; FAMILY_BYTES],
) -> Option<usize>
    ensures { (p : Policy) → Accepted p → code.now ≡ code_of p → total ≡ count_in p (family_of family)
        → (sets.new ≡ final_sets p (family_of family)) × (found_of result ≡ faults.family_cycle p (family_of family)) }
{
    bitset::clear(sets);
    let mut rows = [0u8; FAMILY_BYTES];
    mentions::mentions(code, family, &mut rows);
    if final_sets::same_rows(&rows, sets) {
        final_sets::round(code, family, total, &rows, sets);
        return None;
    }
    final_sets::final_sets(code, family, total, sets);
    mentions::family_cycle(code, family, &mut rows)
}

// Fills the final sets of the three families, and looks for faults 8 and 9. Each total is how many things of the
// family are declared.
pub fn resolve(
    code: &[u16],
    users: usize,
    roles: usize,
    types: usize,
    user_sets: &mut [u8; FAMILY_BYTES],
    role_sets: &mut [u8; FAMILY_BYTES],
    type_sets: &mut [u8; FAMILY_BYTES],
) -> Result<(), FaultAt>
    ensures resolves { (p : Policy) → Accepted p → code.now ≡ code_of p
        → users ≡ count_in p statements.users → roles ≡ count_in p statements.roles → types ≡ count_in p statements.types
        → Resolves p user_sets.new role_sets.new type_sets.new result }
    ensures refuses { IfErr result (λ found. IsRefusal found.fault) }
{
    let in_users = resolve_family(code, Family::Users, users, user_sets);
    let in_roles = resolve_family(code, Family::Roles, roles, role_sets);
    let in_types = resolve_family(code, Family::Types, types, type_sets);
    if let Some(place) = in_users.or(in_roles).or(in_types) {
        return Err(FaultAt {
            fault: Fault::Cycle,
            place,
        });
    }
    if let Some(place) = clashes::clash(code, role_sets, type_sets) {
        return Err(FaultAt {
            fault: Fault::Clash,
            place,
        });
    }
    Ok(())
}
