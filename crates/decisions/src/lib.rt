// Four questions on a table whose names are counted: valid context, new role, change, relabelling. All numbers are
// answered: 12 where one is not declared, tried before anything else. Every function takes every table and all counts.
// The inner ones say what the bytes of any table say, but for the constraints and the validatetrans statements, which
// speak of sound tables; that on a sound table, with its own counts, all this is what its image says, the four
// questions promise.
#![tactic(auto)]

ghost use Rattle.std.specs.Prelude.{◌≡◌, List, ℕ, ◌≤◌, ◌<◌, ◌&&◌, eqb, ltb, drop};
ghost use Rattle.policy.specs.Sound.{transition_at};
ghost use Rattle.policy.specs.Deciding.{contexts_of, relabel_contexts, first_failing, role_may};
ghost use Rattle.policy.specs.Answers.{validity_of, ruling_of, change_of, new_role_of};
ghost use Rattle.policy.specs.Questions.{matches, first_transition, entry_names, entry_holds, rows_hold, valid_on, new_role_on, change_on, relabel_on};
ghost use Rattle.table_laws.specs.SoundTable.{Sound};
ghost use Rattle.decisions.specs.Asked.{context, context_of, question, relabelling};
ghost use Rattle.decisions.specs.TableAnswers.{set_has, declares_context, declares_contexts, is_given_in, is_valid_by, transitions_in};
ghost use Rattle.decisions.specs.TableAnswers.{declares_question, declares_relabelling, context_denial_by, sides_of_three};
ghost use Rattle.decisions.specs.KnownNames.{Counts, Knows};
ghost use Rattle.table_names.specs.TableNames.{counts_in, is_found_name, permission_in, asks_role_by};

use policy::{
    Attribute, Change, Component, Denial, Fault, NameCounts, Role, Section, Transition, Type,
};
use table_names::SpecialNumbers;

// A context by its numbers. `kind` is the type: the language has another use for that word.
#[derive(Clone, Copy)]
pub struct Context {
    pub user: usize,
    pub role: usize,
    pub kind: usize,
}

// What is known of the names of a table: how many there are of each sort, and the numbers of those that are treated
// apart, if they were looked up.
#[derive(Clone, Copy)]
pub struct KnownNames {
    pub counts: NameCounts,
    pub special: Option<SpecialNumbers>,
}

// Whether a context's numbers are declared.
#[tactic(auto, unfolding(crate::specs::TableAnswers::declares_context))]
fn declares_context(counts: NameCounts, asked: Context) -> bool
    ensures { result ≡ declares_context counts (context_of asked) }
{
    asked.user < counts.users && asked.role < counts.roles && asked.kind < counts.types
}

// ---- valid context

// No sound table has so many sets in a body; below it no place overflows.
const SET_LIMIT: usize = 65_536;

// Whether the set of this number, among the sets of `width` bytes of a body, has a number.
#[tactic(auto, unfolding(crate::specs::TableAnswers::set_has))]
fn set_has(table: &[u8], body: u8, width: u16, set: usize, number: usize) -> bool
    ensures { result ≡ set_has table.now body width set number }
{
    if SET_LIMIT <= set {
        return false;
    }
    let start = table_reader::body_start(table, body) as usize;
    set_rows::contains_at(table, start + width as usize * set, width as usize, number)
}

// Whether the role is among the user's, and the type among the role's.
#[tactic(auto, unfolding(crate::specs::TableAnswers::is_given_in))]
fn is_given(table: &[u8], asked: Context) -> bool
    ensures { result ≡ is_given_in table.now (context_of asked) }
{
    set_has(
        table,
        Section::USER_ROLES,
        Role::SET_BYTES as u16,
        asked.user,
        asked.role,
    ) && set_has(
        table,
        Section::ROLE_TYPES,
        Type::SET_BYTES as u16,
        asked.role,
        asked.kind,
    )
}

// Whether a context is valid. The name comes last, since it may be found by a walk.
#[tactic(auto, unfolding(crate::specs::TableAnswers::is_valid_by))]
fn is_valid(table: &[u8], special: Option<SpecialNumbers>, asked: Context) -> bool
    ensures { result ≡ is_valid_by table.now special (context_of asked) }
{
    is_given(table, asked) || table_names::is_object(table, special, asked.role)
}

// **Valid context**: whether the role is among the user's, and the type, `kind`, among the role's, or the role is
// `object_r`.
pub fn valid(
    table: &[u8],
    names: KnownNames,
    user: usize,
    role: usize,
    kind: usize,
) -> Result<bool, Fault>
    ensures { Knows table.now names.counts names.special → validity_of result ≡ valid_on table.now (context user role kind) }
{
    let asked = Context { user, role, kind };
    if !declares_context(names.counts, asked) {
        return Err(Fault::NumberUndeclared);
    }
    Ok(is_valid(table, names.special, asked))
}

// ---- new role

// Whether the transition at a place is for the role, the type and the class. The place is so low that none after it
// overflows.
fn matches_at(table: &[u8], at: usize, role: usize, kind: usize, class: usize) -> bool
    requires { at ≤ 1099511627776 }
    ensures { result ≡ matches role kind class (transition_at (drop at table.now)) }
{
    set_rows::contains_at(table, at, Role::SET_BYTES, role)
        && set_rows::contains_at(table, at + Transition::TYPES_AT, Type::SET_BYTES, kind)
        && byte_slices::byte(table, at + Transition::CLASS_AT) as usize == class
}

// The new role of the first transition that matches; else the role given.
fn first_transition(table: &[u8], role: usize, kind: usize, class: usize) -> usize
    ensures { result ≡ first_transition role kind class (transitions_in table.now) }
{
    let start = table_reader::body_start(table, Section::TRANSITIONS) as usize;
    let count = table_reader::body_length(table, Section::TRANSITIONS) / Transition::BYTES as u32;
    for number in 0..count {
        let at = start + Transition::BYTES * (number as usize);
        if matches_at(table, at, role, kind, class) {
            return byte_slices::byte(table, at + Transition::NEW_ROLE_AT) as usize;
        }
    }
    role
}

// Whether the numbers of a role, a type and a class are declared.
fn declares_transition(counts: NameCounts, role: usize, kind: usize, class: usize) -> bool
    ensures { result ≡ (ltb role counts.roles && ltb kind counts.types && ltb class counts.classes) }
{
    role < counts.roles && kind < counts.types && class < counts.classes
}

// **New role**: that of the first transition for the role, the type and the class, else the role given. It is a
// proposal; the change is still asked.
pub fn new_role(
    table: &[u8],
    counts: NameCounts,
    role: usize,
    kind: usize,
    class: usize,
) -> Result<usize, Fault>
    ensures { Counts table.now counts → new_role_of result ≡ new_role_on table.now role kind class }
{
    if !declares_transition(counts, role, kind, class) {
        return Err(Fault::NumberUndeclared);
    }
    Ok(first_transition(table, role, kind, class))
}

// ---- the two contexts of a change, or the old and the new one of a relabelling

// Whether the numbers of both are declared.
#[tactic(auto, unfolding(crate::specs::TableAnswers::declares_contexts))]
fn declares_contexts(counts: NameCounts, source: Context, target: Context) -> bool
    ensures { result ≡ declares_contexts counts (context_of source) (context_of target) }
{
    declares_context(counts, source) && declares_context(counts, target)
}

// The denial of the first of the two that is not valid, if one is not.
fn context_denial(
    table: &[u8],
    special: Option<SpecialNumbers>,
    source: Context,
    target: Context,
) -> Option<Denial>
    ensures { result ≡ context_denial_by table.now special (context_of source) (context_of target) }
{
    if !is_valid(table, special, source) {
        return Some(Denial::SourceNotValid);
    }
    if !is_valid(table, special, target) {
        return Some(Denial::TargetNotValid);
    }
    None
}

// ---- what statements are asked of

// How many components three contexts have.
const COMPONENTS: usize = Component::COUNT_OF_THREE as usize;

// The numbers of three contexts in the order in which a table's rows name them, u1 u2 r1 r2 t1 t2 u3 r3 t3.
fn sides_of(source: Context, target: Context, process: Context) -> [usize; COMPONENTS]
    ensures { result ≡ sides_of_three (context_of source) (context_of target) (context_of process) }
{
    [
        source.user,
        target.user,
        source.role,
        target.role,
        source.kind,
        target.kind,
        process.user,
        process.role,
        process.kind,
    ]
}

// A number of attributes. A sound table has no more than may be declared, so that it fits.
fn attribute_count(attributes: usize) -> u16
    ensures { attributes ≤ 64 → result ≡ attributes }
{
    if Attribute::MAX < attributes {
        return 0;
    }
    attributes as u16
}

// ---- change: the numbers of a question

// Whether all numbers of a question are declared, where it is known of a declared class whether it has the permission.
#[tactic(auto, unfolding(crate::specs::TableAnswers::declares_question))]
fn declares_question(
    counts: NameCounts,
    has: bool,
    source: Context,
    target: Context,
    class: usize,
) -> bool
    ensures { (t : List ℕ) (permission : ℕ) → (class < counts.classes → has ≡ is_found_name (permission_in t class permission))
        → result ≡ declares_question t counts (question source target class permission) }
{
    declares_contexts(counts, source, target) && class < counts.classes && has
}

// ---- change: the role

// Whether the role stays, or may become the other, or nothing asks for it. The names come last, since they may be found
// by a walk.
fn role_may(
    table: &[u8],
    special: Option<SpecialNumbers>,
    source: usize,
    target: usize,
    class: usize,
    permission: usize,
) -> bool
    ensures { result ≡ role_may (asks_role_by table.now special class permission) source target (set_has table.now 3 16 source target) }
{
    source == target
        || set_has(
            table,
            Section::ROLE_ROLES,
            Role::SET_BYTES as u16,
            source,
            target,
        )
        || !table_names::asks_role(table, special, class, permission)
}

// ---- change: the constraints

// What the constraints answer, where the table is sound. A change has no third side; the process that changes is the
// source.
fn ask_constraints(
    table: &[u8],
    counts: NameCounts,
    source: Context,
    target: Context,
    class: usize,
    permission: usize,
) -> Change
    ensures { (s : Sound table.now) → counts ≡ counts_in table.now
        → ruling_of result ≡ first_failing 4 (entry_names class permission) (entry_holds s.image (contexts_of (question source target class permission))) 0 s.image.constraints }
{
    let sides = sides_of(source, target, source);
    let users = attribute_count(counts.user_attributes);
    let roles = attribute_count(counts.role_attributes);
    let bodies = constraints::locate(table, users, roles);
    constraints::first_failing(table, bodies, class, permission, &sides)
}

// **Change**, where it is known whether the class, if it is declared, has the permission: denials 1 to 3 in their
// order, then the constraints, with the number consulted.
pub fn change(
    table: &[u8],
    names: KnownNames,
    has: bool,
    source: Context,
    target: Context,
    class: usize,
    permission: usize,
) -> Result<Change, Fault>
    ensures { Knows table.now names.counts names.special → (class < names.counts.classes → has ≡ is_found_name (permission_in table.now class permission))
        → change_of result ≡ change_on table.now (question source target class permission) }
{
    let counts = names.counts;
    let special = names.special;
    if !declares_question(counts, has, source, target, class) {
        return Err(Fault::NumberUndeclared);
    }
    if let Some(denial) = context_denial(table, special, source, target) {
        return Ok(Change::Denied(denial));
    }
    if !role_may(table, special, source.role, target.role, class, permission) {
        return Ok(Change::Denied(Denial::RoleMayNotChange));
    }
    Ok(ask_constraints(table, counts, source, target, class, permission))
}

// ---- relabelling

// Whether all numbers of a relabelling are declared.
#[tactic(auto, unfolding(crate::specs::TableAnswers::declares_relabelling))]
fn declares_relabelling(
    counts: NameCounts,
    class: usize,
    old: Context,
    new: Context,
    process: Context,
) -> bool
    ensures { result ≡ declares_relabelling counts (relabelling class old new process) }
{
    declares_contexts(counts, old, new)
        && declares_context(counts, process)
        && class < counts.classes
}

// What the validatetrans statements answer, where the table is sound.
fn ask_relabels(
    table: &[u8],
    counts: NameCounts,
    class: usize,
    old: Context,
    new: Context,
    process: Context,
) -> Change
    ensures { (s : Sound table.now) → counts ≡ counts_in table.now
        → ruling_of result ≡ first_failing 6 (λ x. eqb x.class class) (λ x. rows_hold s.image (relabel_contexts (relabelling class old new process)) x.rows) 0 s.image.relabels }
{
    let sides = sides_of(old, new, process);
    let users = attribute_count(counts.user_attributes);
    let roles = attribute_count(counts.role_attributes);
    let bodies = constraints::locate_relabels(table, users, roles);
    constraints::first_failing_relabel(table, bodies, class, &sides)
}

// Whether something of the class may be given the new context in place of the old one by the process: denials 1, 2 and
// 5 in their order, then the validatetrans statements of the class, with the number asked. The role may become any
// other: no role allow is asked.
pub fn relabel(
    table: &[u8],
    names: KnownNames,
    class: usize,
    old: Context,
    new: Context,
    process: Context,
) -> Result<Change, Fault>
    ensures { Knows table.now names.counts names.special → change_of result ≡ relabel_on table.now (relabelling class old new process) }
{
    let counts = names.counts;
    let special = names.special;
    if !declares_relabelling(counts, class, old, new, process) {
        return Err(Fault::NumberUndeclared);
    }
    if let Some(denial) = context_denial(table, special, old, new) {
        return Ok(Change::Denied(denial));
    }
    if !is_valid(table, special, process) {
        return Ok(Change::Denied(Denial::ProcessNotValid));
    }
    Ok(ask_relabels(table, counts, class, old, new, process))
}
