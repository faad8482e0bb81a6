// Valid context, change, relabelling and new role, asked of any bytes and in any numbers: 11 where the bytes are no
// sound table, else what the table answers, 12 where a number is not declared. No lent memory is written to.
//
// Each asks first whether the table is sound, which goes over all of it. A caller that found a table to be sound once
// asks `sound_questions` instead.
#![tactic(auto)]

ghost use Rattle.std.specs.Prelude.{◌≡◌, None};
ghost use Rattle.policy.specs.Questions.{valid_on, new_role_on, change_on, relabel_on};
ghost use Rattle.policy.specs.Answers.{validity_of, new_role_of, change_of};
ghost use Rattle.decisions.specs.Asked.{context, question, relabelling};

use decisions::{Context, KnownNames};
use policy::{Change, Fault, NameCounts};

// What the test of a table tells of its names. Those that are treated apart are not looked up: few questions need them.
fn counted_names(counts: NameCounts) -> KnownNames
    ensures { (result.counts ≡ counts) × (result.special ≡ None) }
{
    KnownNames {
        counts,
        special: None,
    }
}

// **Valid context**: whether the role is among the user's, and the type, `kind`, among the role's, or the role is
// named `object_r`.
pub fn valid(table: &[u8], user: usize, role: usize, kind: usize) -> Result<bool, Fault>
    ensures { validity_of result ≡ valid_on table.now (context user role kind) }
{
    let mut permissions = [0usize; policy::Class::MAX];
    let counted = soundness::count(table, &mut permissions);
    let Some(counts) = counted else {
        return Err(Fault::NotSound);
    };
    decisions::valid(table, counted_names(counts), user, role, kind)
}

// **Change**: granted or denied, with the number consulted.
pub fn change(
    table: &[u8],
    source: Context,
    target: Context,
    class: usize,
    permission: usize,
) -> Result<Change, Fault>
    ensures { change_of result ≡ change_on table.now (question source target class permission) }
{
    let mut permissions = [0usize; policy::Class::MAX];
    let counted = soundness::count(table, &mut permissions);
    let Some(counts) = counted else {
        return Err(Fault::NotSound);
    };
    let has = permission < sound_constraints::permissions_of(&permissions, class);
    decisions::change(
        table,
        counted_names(counts),
        has,
        source,
        target,
        class,
        permission,
    )
}

// Whether the process may give something of the class the new context in place of the old one: granted or denied, with
// the number asked.
pub fn relabel(
    table: &[u8],
    class: usize,
    old: Context,
    new: Context,
    process: Context,
) -> Result<Change, Fault>
    ensures { change_of result ≡ relabel_on table.now (relabelling class old new process) }
{
    let mut permissions = [0usize; policy::Class::MAX];
    let counted = soundness::count(table, &mut permissions);
    let Some(counts) = counted else {
        return Err(Fault::NotSound);
    };
    decisions::relabel(table, counted_names(counts), class, old, new, process)
}

// **New role**: that of the first matching transition, else the role given.
pub fn new_role(table: &[u8], role: usize, kind: usize, class: usize) -> Result<usize, Fault>
    ensures { new_role_of result ≡ new_role_on table.now role kind class }
{
    let mut permissions = [0usize; policy::Class::MAX];
    let counted = soundness::count(table, &mut permissions);
    let Some(counts) = counted else {
        return Err(Fault::NotSound);
    };
    decisions::new_role(table, counts, role, kind, class)
}
