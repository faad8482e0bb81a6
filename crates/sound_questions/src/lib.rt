// The questions on a table that was found sound once, with the summary that was made of it then: no test of the table,
// no walk over its names. They give the answers of `questions`, said in each contract; asked of other bytes, or with
// other numbers for a summary, they end, write nothing and answer something.
#![tactic(auto)]

ghost use Rattle.std.specs.Prelude.{◌≡◌};
ghost use Rattle.policy.specs.Questions.{valid_on, new_role_on, change_on, relabel_on};
ghost use Rattle.policy.specs.Answers.{validity_of, new_role_of, change_of};
ghost use Rattle.decisions.specs.Asked.{context, question, relabelling};
ghost use Rattle.table_summary.specs.Summary.{Summarized, counts_from, special_from};

use decisions::{Context, KnownNames};
use policy::{Change, Fault};

// What a summary says of the names.
fn names_of(summary: &[u32; table_summary::NUMBERS]) -> KnownNames
    ensures { (result.counts ≡ counts_from summary.now) × (result.special ≡ special_from summary.now) }
{
    KnownNames {
        counts: table_summary::counts_of(summary),
        special: table_summary::special_of(summary),
    }
}

// **Valid context**: whether the role is among the user's, and the type, `kind`, among the role's, or the role is
// named `object_r`.
pub fn valid(
    table: &[u8],
    summary: &[u32; table_summary::NUMBERS],
    user: usize,
    role: usize,
    kind: usize,
) -> Result<bool, Fault>
    ensures { Summarized table.now summary.now → validity_of result ≡ valid_on table.now (context user role kind) }
{
    decisions::valid(table, names_of(summary), user, role, kind)
}

// **Change**: granted or denied, with the number consulted.
pub fn change(
    table: &[u8],
    summary: &[u32; table_summary::NUMBERS],
    source: Context,
    target: Context,
    class: usize,
    permission: usize,
) -> Result<Change, Fault>
    ensures { Summarized table.now summary.now
        → change_of result ≡ change_on table.now (question source target class permission) }
{
    decisions::change(
        table,
        names_of(summary),
        table_summary::has_permission(summary, class, permission),
        source,
        target,
        class,
        permission,
    )
}

// Whether the process may give something of the class the new context in place of the old one: granted or denied, with
// the number asked.
pub fn relabel(
    table: &[u8],
    summary: &[u32; table_summary::NUMBERS],
    class: usize,
    old: Context,
    new: Context,
    process: Context,
) -> Result<Change, Fault>
    ensures { Summarized table.now summary.now
        → change_of result ≡ relabel_on table.now (relabelling class old new process) }
{
    decisions::relabel(table, names_of(summary), class, old, new, process)
}

// **New role**: that of the first matching transition, else the role given.
pub fn new_role(
    table: &[u8],
    summary: &[u32; table_summary::NUMBERS],
    role: usize,
    kind: usize,
    class: usize,
) -> Result<usize, Fault>
    ensures { Summarized table.now summary.now → new_role_of result ≡ new_role_on table.now role kind class }
{
    decisions::new_role(table, table_summary::counts_of(summary), role, kind, class)
}
