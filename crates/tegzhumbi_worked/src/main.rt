// Compiles a policy, asks of its table, alters the bytes after the table and asks again. The lines are held to those
// that the statements give, worked out by hand (beside each question).
#![tactic(auto)]

use std::io;
use std::io::Write;
use tegzhumbi::{Class, Context, Permission, Role, Type, User};

// How much memory is lent for the table.
const LENT: usize = 1_024;

// Users u v; roles a b c; types s t; classes process (transition fork) and file (read). The attribute x is used
// before its set is given: it stands for a and b. So u has the roles a and b, v has b; a has the types s and t, b has
// t. From a to b a role may change, not back.
fn policy() -> [u8; 514] {
    *b"(class process (transition fork)) (class file (read))
(user u) (user v) (role a) (role b) (role c) (type s) (type t)
(roleattribute x)
(userrole u x) (userrole v b)
(roletype a s) (roletype b t) (roletype x t)
(roleallow a b)
(roleattributeset x (a b))
(roletransition a t process b)
(constrain (file (read)) (eq u1 u2))
(constrain (process (transition)) (or (eq u1 u2) (eq r1 x)))
(constrain (file (read)) (and (neq r2 b) (eq t1 t2)))
(validatetrans file (eq u3 v))
(validatetrans file (or (eq t1 t2) (eq r3 a)))
"
}

fn context(user: u64, role: u64, kind: u64) -> Context {
    Context {
        user: User(user),
        role: Role(role),
        kind: Type(kind),
    }
}

fn change<W: Write>(
    out: &mut W,
    table: &[u8],
    source: Context,
    target: Context,
    class: u64,
    permission: u64,
) -> io::Result<()> {
    let answer = tegzhumbi::change(table, source, target, Class(class), Permission(permission));
    answer_show::show_change(out, answer)
}

// Class file, permission read: the constraints 0 and 2.
fn files<W: Write>(out: &mut W, table: &[u8]) -> io::Result<()> {
    // u a s to u a t: constraint 0 holds, in constraint 2 the types differ
    change(out, table, context(0, 0, 0), context(0, 0, 1), 1, 0)?;
    // u a t to itself: both hold
    change(out, table, context(0, 0, 1), context(0, 0, 1), 1, 0)?;
    // u a t to v b t: constraint 0 fails
    change(out, table, context(0, 0, 1), context(1, 1, 1), 1, 0)?;
    // v has not the role a
    change(out, table, context(1, 0, 1), context(1, 1, 1), 1, 0)?;
    // u has not the role c
    change(out, table, context(0, 0, 0), context(0, 2, 1), 1, 0)
}

// Class process: permission transition asks for the role, and constraint 1; fork asks neither.
fn processes<W: Write>(out: &mut W, table: &[u8]) -> io::Result<()> {
    // from b to a no role may change
    change(out, table, context(0, 1, 1), context(0, 0, 1), 0, 0)?;
    // from a to b one may, and the users are the same
    change(out, table, context(0, 0, 1), context(0, 1, 1), 0, 0)?;
    // fork, from b to a
    change(out, table, context(0, 1, 1), context(0, 0, 1), 0, 1)?;
    // process has no third permission
    change(out, table, context(0, 0, 1), context(0, 1, 1), 0, 2)
}

fn relabel<W: Write>(
    out: &mut W,
    table: &[u8],
    class: u64,
    old: Context,
    new: Context,
    process: Context,
) -> io::Result<()> {
    answer_show::show_change(
        out,
        tegzhumbi::relabel(table, Class(class), old, new, process),
    )
}

// Files are relabelled by processes of user v, and their type changes only by a process in role a.
fn relabels<W: Write>(out: &mut W, table: &[u8]) -> io::Result<()> {
    let uas = context(0, 0, 0);
    let uat = context(0, 0, 1);
    let ubt = context(0, 1, 1);
    let vat = context(1, 0, 1);
    let vbt = context(1, 1, 1);
    // the process is v's, and the types are the same
    relabel(out, table, 1, uat, ubt, vbt)?;
    // the types differ, and the process is not in role a
    relabel(out, table, 1, uas, uat, vbt)?;
    // the process is not v's
    relabel(out, table, 1, uas, uat, uat)?;
    // v has not the role a: as the process, as the new context, as the old one
    relabel(out, table, 1, uas, uat, vat)?;
    relabel(out, table, 1, uas, vat, vat)?;
    relabel(out, table, 1, vat, vat, vat)?;
    // nothing is said of processes, and there is no third class
    relabel(out, table, 0, uas, uat, uat)?;
    relabel(out, table, 2, uas, uat, uat)
}

// The other questions.
fn others<W: Write>(out: &mut W, table: &[u8]) -> io::Result<()> {
    // in role a with type t a new process is proposed b; in role c it stays c
    answer_show::show_new_role(out, tegzhumbi::new_role(table, Role(0), Type(1), Class(0)))?;
    answer_show::show_new_role(out, tegzhumbi::new_role(table, Role(2), Type(1), Class(0)))?;
    // u b t is valid, v b s is not, since b has not the type s
    answer_show::show_validity(out, tegzhumbi::valid(table, context(0, 1, 1)))?;
    answer_show::show_validity(out, tegzhumbi::valid(table, context(1, 1, 0)))?;
    // role 1 is b; after the set of x come the two validatetrans statements, 4 bytes each, and their four rows
    answer_show::show_name(out, tegzhumbi::name_of(table, 1, 1))?;
    answer_show::show_place(out, tegzhumbi::entry_place(table, 8, 0))?;
    answer_show::show_place(out, tegzhumbi::entry_place(table, 9, 1))?;
    answer_show::show_place(out, tegzhumbi::entry_place(table, 10, 3))
}

fn ask<W: Write>(out: &mut W, table: &[u8]) -> io::Result<()> {
    files(out, table)?;
    processes(out, table)?;
    relabels(out, table)?;
    others(out, table)
}

fn main(rt: HostRuntime) -> io::Result<()> {
    let mut out = rt.stdout();
    let text = policy();
    let mut table = [0x5au8; LENT];
    let compiled = tegzhumbi::compile(&text, &mut table);
    answer_show::show_compiling(&mut out, compiled)?;
    ask(&mut out, &table)?;
    // the table has 647 bytes; what is after it does not matter
    table[647] = 255;
    table[LENT - 1] = 0;
    ask(&mut out, &table)?;
    // there is no edition 3
    table[0] = 3;
    files(&mut out, &table)?;
    out.flush()
}
