// The library: a policy's text is compiled into a table, and questions are answered from a table alone.
//
// Memory is the caller's. `compile` writes the table to the start of the slice that it is lent, and nothing else; the
// questions write nothing. No table is longer than 186,068 bytes. Every function takes every text, all bytes as a
// table and all numbers. A promise (`ensures`) equates the answer, refusals included, and each lent byte afterwards
// with a definition of `policy/specs`.
//
// A server compiles once and keeps the first `length` bytes:
//
//     let mut memory = [0u8; 65_536];
//     let compiled = tegzhumbi::compile(text, &mut memory);
//     // Ok(length): memory[..length] is the table;
//     // or Err(refusal), with its fault, place and line
//     let source = Context { user: User(0), role: Role(0), kind: Type(0) };
//     let answer = tegzhumbi::change(&memory, source, source, Class(0), Permission(0));
//     // Ok(Change::Granted { consulted }), or a denial, or a refusal: Fault::NotSound or Fault::NumberUndeclared
//
// Each question tests the table first. A server that tests it once keeps its summary (`table_summary::summarize`) and
// asks with that (`sound_questions`).
#![tactic(auto)]

ghost use Rattle.std.specs.Prelude.{◌≡◌};
ghost use Rattle.policy.specs.Outcome.{of_text};
ghost use Rattle.policy.specs.Questions.{valid_on, new_role_on, change_on, relabel_on, name_on, entry_on};
ghost use Rattle.policy.specs.Answers.{validity_of, new_role_of, change_of, place_of};
ghost use Rattle.compiler.specs.Promise.{Compiles};
ghost use Rattle.decisions.specs.Asked as decisions;
ghost use Rattle.soundness.specs.IsSound.{is_sound};
ghost use Rattle.table_parts.specs.ShownPart.{shown_part};
ghost use Rattle.tegzhumbi.specs.Asked.{context_of, question, relabelling};
ghost use Rattle.tegzhumbi.specs.DecisionByText.{Decides};

pub use byte_slices::Span;
pub use policy::{Change, Class, Denial, Fault, Permission, Refusal, Role, Type, User};

// A context by its numbers; `kind` is the type's.
#[derive(Clone, Copy)]
pub struct Context {
    pub user: User,
    pub role: Role,
    pub kind: Type,
}

// Compiles a text into a table at the start of the lent memory. It is accepted exactly when document 01 names no
// fault in the text and the memory is long enough; the table is byte for byte the one that is defined from the
// statements, and what stood after it is kept. A refusal has the fault, 1 to 10, and the place that document 01
// fixes, and the line of its place (0 for 10, whose place is a length), and leaves the memory as it was. And demand 3
// (`answers`): asked of the written table, whatever is after it later, every change and every relabelling is answered
// as the statements answer it.
pub fn compile(text: &[u8], table: &mut [u8]) -> Result<usize, Refusal>
    ensures { Compiles (of_text text.now) table.old table.new result }
{
    compiler::compile(text, table)
}

// Whether the bytes are a sound table, with anything after it. The questions ask this first, and refuse with 11.
//
//     tegzhumbi::is_sound(&memory)      // true, once compile has accepted; tegzhumbi::is_sound(b"") is false
pub fn is_sound(table: &[u8]) -> bool
    ensures { result ≡ is_sound table.now }
{
    soundness::sound(table)
}

fn asked(context: Context) -> decisions::Context
    ensures { decisions.context_of result ≡ context_of context }
{
    decisions::Context {
        user: context.user.0 as usize,
        role: context.role.0 as usize,
        kind: context.kind.0 as usize,
    }
}

// Valid context: whether the role is among the user's, and the type among the role's, or the role is named `object_r`.
//
//     tegzhumbi::valid(&table, Context { user: User(0), role: Role(2), kind: Type(5) })
//     // Ok(true), Ok(false) or the refusal
pub fn valid(table: &[u8], context: Context) -> Result<bool, Fault>
    ensures { validity_of result ≡ valid_on table.now (context_of context) }
{
    let c = asked(context);
    questions::valid(table, c.user, c.role, c.kind)
}

// Change: whether the source may do to the target, or become by it, what the permission names, by its place in the
// class. Denials in order: 1 the source is not valid, 2 the target is not, 3 the role may not change so, 4 the
// constraint that fails first. With the answer goes the number of constraints consulted.
//
//     tegzhumbi::change(&table, source, target, Class(0), Permission(2))
//     // Ok(Granted { consulted: 3 }), Ok(Failed { denial: ConstraintFails, constraint: 7, consulted: 2 }), ..
pub fn change(
    table: &[u8],
    source: Context,
    target: Context,
    class: Class,
    permission: Permission,
) -> Result<Change, Fault>
    ensures { change_of result ≡ change_on table.now (question source target class permission) }
{
    questions::change(
        table,
        asked(source),
        asked(target),
        class.0 as usize,
        permission.0 as usize,
    )
}

// Relabelling: whether the process may relabel a file of the class from the old context to the new one. Denials in
// order: 1 the old context is not valid, 2 the new one is not, 5 the process is not, 6 the validatetrans statement
// that fails first, by its number among all of them. With the answer goes the number of statements consulted.
//
//     tegzhumbi::relabel(&table, Class(1), old, new, process)
//     // Ok(Granted { consulted: 3 }), Ok(Denied(ProcessNotValid)),
//     // Ok(Failed { denial: RelabelFails, constraint: 1, consulted: 2 }), ..
pub fn relabel(
    table: &[u8],
    class: Class,
    old: Context,
    new: Context,
    process: Context,
) -> Result<Change, Fault>
    ensures { change_of result ≡ relabel_on table.now (relabelling class old new process) }
{
    questions::relabel(
        table,
        class.0 as usize,
        asked(old),
        asked(new),
        asked(process),
    )
}

// New role: that of the first transition of the role, the type and the class, else the role given. It is a proposal;
// the change is still asked.
//
//     tegzhumbi::new_role(&table, Role(1), Type(4), Class(0))   // Ok(3)
pub fn new_role(table: &[u8], role: Role, kind: Type, class: Class) -> Result<usize, Fault>
    ensures { new_role_of result ≡ new_role_on table.now role.0 kind.0 class.0 }
{
    questions::new_role(table, role.0 as usize, kind.0 as usize, class.0 as usize)
}

// Name of a sort and number: the part of the lent table that holds it, an empty part where there is none (where that
// points is free). Sorts: 0 user, 1 role, 2 type, 3 to 5 their attributes, 6 class, 7 permission, whose number is
// class x 32 + its place.
//
//     tegzhumbi::name_of(&table, 1, 0)   // the bytes of the first role's name, within the table
pub fn name_of(table: &[u8], sort: usize, number: usize) -> &[u8]
    ensures { result.now ≡ shown_part (name_on table.now sort number) table.now }
{
    table_parts::name(table, sort, number)
}

// The same by its place and length, or the refusal.
//
//     tegzhumbi::name_place(&table, 1, 0)   // Ok(Span { start: 88, length: 5 }), or Err(NumberUndeclared)
pub fn name_place(table: &[u8], sort: usize, number: usize) -> Result<Span, Fault>
    ensures { place_of result ≡ name_on table.now sort number }
{
    table_parts::name_place(table, sort, number)
}

// Entry of a body from 2 on (to 8 in a table of edition 1, to 10 in one of edition 2) and its place there, from 0: the
// part of the lent table that holds it, an empty part where there is none.
//
//     tegzhumbi::entry(&table, 2, 0)   // the 16 bytes of the first user's roles
pub fn entry(table: &[u8], body: usize, place: usize) -> &[u8]
    ensures { result.now ≡ shown_part (entry_on table.now body place) table.now }
{
    table_parts::entry(table, body, place)
}

// The same by its place and length, or the refusal.
//
//     tegzhumbi::entry_place(&table, 11, 0)   // Err(NumberUndeclared): there is no body 11
pub fn entry_place(table: &[u8], body: usize, place: usize) -> Result<Span, Fault>
    ensures { place_of result ≡ entry_on table.now body place }
{
    table_parts::entry_place(table, body, place)
}

// What compiling a text and asking its table comes to: the text's refusal, or the answer to the change. (A Result in a
// Result would be no plainer: the refusal of the text and that of the question would both be an Err.)
#[derive(Clone, Copy)]
pub enum Decision {
    Refused(Refusal),
    Answered(Result<Change, Fault>),
}

// Compiles a text and asks a change of its table, in one step: the answer is what the statements of the text answer,
// and its promise speaks of the text and the question alone.
//
//     tegzhumbi::decide(text, &mut memory, source, target, Class(0), Permission(0))
//     // Answered(Ok(Granted { consulted: 1 }))
pub fn decide(
    text: &[u8],
    table: &mut [u8],
    source: Context,
    target: Context,
    class: Class,
    permission: Permission,
) -> Decision
    ensures { Decides (of_text text.now) table.old table.new (question source target class permission) result }
{
    let compiled = compile(text, table);
    match compiled {
        Ok(_) => Decision::Answered(change(table, source, target, class, permission)),
        Err(refusal) => Decision::Refused(refusal),
    }
}
