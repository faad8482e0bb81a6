// The library for other languages: each function takes bytes and numbers, and gives its answer as a struct of
// numbers. include/tegzhumbi.h declares them for C.
#![tactic(auto)]

ghost use Rattle.std.specs.Prelude.{◌≡◌, true};
ghost use Rattle.policy.specs.Outcome.{of_text};
ghost use Rattle.policy.specs.Questions.{valid_on, new_role_on, change_on, relabel_on, name_on, entry_on};
ghost use Rattle.policy.specs.Sound.{image_in};
ghost use Rattle.soundness.specs.IsSound.{is_sound};
ghost use Rattle.table_summary.specs.Summary.{Summarized, summary_after};
ghost use Rattle.decisions.specs.Asked.{context, context_of};
ghost use Rattle.tegzhumbi_c.specs.Compiles.{Compiles};
ghost use Rattle.answer_numbers.specs.Numbers.{asking, relabelling, sound_number, valid_numbers, change_numbers, new_role_numbers, part_numbers};

use answer_numbers::{Answer, Compiled, Part};
use decisions::Context;

// Compiles a text: its table is at the start of the lent memory, or a refusal 1 to 10 is answered and the lent memory
// is as it was.
#[unsafe(no_mangle)]
pub extern "C" fn tegzhumbi_compile(text: &[u8], table: &mut [u8]) -> Compiled
    ensures { Compiles (of_text text.now) table.old table.new result }
{
    answer_numbers::compiled_numbers(compiler::compile(text, table))
}

// Whether the bytes are a sound table: 1, else 0.
#[unsafe(no_mangle)]
pub extern "C" fn tegzhumbi_sound(table: &[u8]) -> u32
    ensures { result ≡ sound_number (is_sound table.now) }
{
    if soundness::sound(table) {
        return 1;
    }
    0
}

// **Valid context**: whether the role is among the user's, and the type, `kind`, among the role's, or the role is
// named `object_r`.
#[unsafe(no_mangle)]
pub extern "C" fn tegzhumbi_valid(table: &[u8], user: u64, role: u64, kind: u64) -> Answer
    ensures { result ≡ valid_numbers (valid_on table.now (context user role kind)) }
{
    answer_numbers::valid_numbers(questions::valid(
        table,
        user as usize,
        role as usize,
        kind as usize,
    ))
}

// A context by the numbers of its user, its role and its type.
fn context_of(user: u64, role: u64, kind: u64) -> Context
    ensures { context_of result ≡ context user role kind }
{
    Context {
        user: user as usize,
        role: role as usize,
        kind: kind as usize,
    }
}

// **Change**: granted or denied, with the number consulted.
#[unsafe(no_mangle)]
pub extern "C" fn tegzhumbi_change(
    table: &[u8],
    source_user: u64,
    source_role: u64,
    source_type: u64,
    target_user: u64,
    target_role: u64,
    target_type: u64,
    class_number: u64,
    permission: u64,
) -> Answer
    ensures { result ≡ change_numbers (change_on table.now
        (asking (context source_user source_role source_type) (context target_user target_role target_type) class_number permission)) }
{
    let source = context_of(source_user, source_role, source_type);
    let target = context_of(target_user, target_role, target_type);
    answer_numbers::change_numbers(questions::change(
        table,
        source,
        target,
        class_number as usize,
        permission as usize,
    ))
}

// Relabelling: whether the process may relabel a file from the old context to the new one; granted or denied, with the
// number consulted.
#[unsafe(no_mangle)]
pub extern "C" fn tegzhumbi_relabel(
    table: &[u8],
    class_number: u64,
    old_user: u64,
    old_role: u64,
    old_type: u64,
    new_user: u64,
    new_role: u64,
    new_type: u64,
    process_user: u64,
    process_role: u64,
    process_type: u64,
) -> Answer
    ensures { result ≡ change_numbers (relabel_on table.now (relabelling class_number (context old_user old_role old_type)
        (context new_user new_role new_type) (context process_user process_role process_type))) }
{
    let old = context_of(old_user, old_role, old_type);
    let new = context_of(new_user, new_role, new_type);
    let process = context_of(process_user, process_role, process_type);
    answer_numbers::change_numbers(questions::relabel(
        table,
        class_number as usize,
        old,
        new,
        process,
    ))
}

// **New role**: that of the first matching transition, else the role given.
#[unsafe(no_mangle)]
pub extern "C" fn tegzhumbi_new_role(
    table: &[u8],
    role: u64,
    kind: u64,
    class_number: u64,
) -> Answer
    ensures { result ≡ new_role_numbers (new_role_on table.now role kind class_number) }
{
    answer_numbers::new_role_numbers(questions::new_role(
        table,
        role as usize,
        kind as usize,
        class_number as usize,
    ))
}

// **Name of** a sort and number: the part of the table that holds it.
#[unsafe(no_mangle)]
pub extern "C" fn tegzhumbi_name(table: &[u8], sort: u64, number: u64) -> Part
    ensures { result ≡ part_numbers (name_on table.now sort number) }
{
    answer_numbers::part_numbers(table_parts::name_place(table, sort as usize, number as usize))
}

// **Entry** of a body from 2 on and its place there: the part of the table that holds it.
#[unsafe(no_mangle)]
pub extern "C" fn tegzhumbi_entry(table: &[u8], body: u64, place: u64) -> Part
    ensures { result ≡ part_numbers (entry_on table.now body place) }
{
    answer_numbers::part_numbers(table_parts::entry_place(table, body as usize, place as usize))
}

// ---- the questions on a table that was tested once

// Whether the bytes are a sound table: 1, and the lent numbers are its summary; else 0, and they are as they were. The
// questions below are asked with that summary, of that table.
#[unsafe(no_mangle)]
pub extern "C" fn tegzhumbi_summarize(
    table: &[u8],
    summary: &mut [u32; table_summary::NUMBERS],
) -> u32
    ensures { (result ≡ sound_number (is_sound table.now)) × (summary.new ≡ summary_after (image_in table.now) summary.old) }
{
    if table_summary::summarize(table, summary) {
        return 1;
    }
    0
}

// **Valid context**, as tegzhumbi_valid answers it, without the test of the table.
#[unsafe(no_mangle)]
pub extern "C" fn tegzhumbi_sound_valid(
    table: &[u8],
    summary: &[u32; table_summary::NUMBERS],
    user: u64,
    role: u64,
    kind: u64,
) -> Answer
    ensures { Summarized table.now summary.now → result ≡ valid_numbers (valid_on table.now (context user role kind)) }
{
    answer_numbers::valid_numbers(sound_questions::valid(
        table,
        summary,
        user as usize,
        role as usize,
        kind as usize,
    ))
}

// **Change**, as tegzhumbi_change answers it, without the test of the table.
#[unsafe(no_mangle)]
pub extern "C" fn tegzhumbi_sound_change(
    table: &[u8],
    summary: &[u32; table_summary::NUMBERS],
    source_user: u64,
    source_role: u64,
    source_type: u64,
    target_user: u64,
    target_role: u64,
    target_type: u64,
    class_number: u64,
    permission: u64,
) -> Answer
    ensures { Summarized table.now summary.now → result ≡ change_numbers (change_on table.now
        (asking (context source_user source_role source_type) (context target_user target_role target_type) class_number permission)) }
{
    let source = context_of(source_user, source_role, source_type);
    let target = context_of(target_user, target_role, target_type);
    answer_numbers::change_numbers(sound_questions::change(
        table,
        summary,
        source,
        target,
        class_number as usize,
        permission as usize,
    ))
}

// Relabelling, as tegzhumbi_relabel answers it, without the test of the table.
#[unsafe(no_mangle)]
pub extern "C" fn tegzhumbi_sound_relabel(
    table: &[u8],
    summary: &[u32; table_summary::NUMBERS],
    class_number: u64,
    old_user: u64,
    old_role: u64,
    old_type: u64,
    new_user: u64,
    new_role: u64,
    new_type: u64,
    process_user: u64,
    process_role: u64,
    process_type: u64,
) -> Answer
    ensures { Summarized table.now summary.now → result ≡ change_numbers (relabel_on table.now (relabelling class_number
        (context old_user old_role old_type) (context new_user new_role new_type) (context process_user process_role process_type))) }
{
    let old = context_of(old_user, old_role, old_type);
    let new = context_of(new_user, new_role, new_type);
    let process = context_of(process_user, process_role, process_type);
    answer_numbers::change_numbers(sound_questions::relabel(
        table,
        summary,
        class_number as usize,
        old,
        new,
        process,
    ))
}

// **New role**, as tegzhumbi_new_role answers it, without the test of the table.
#[unsafe(no_mangle)]
pub extern "C" fn tegzhumbi_sound_new_role(
    table: &[u8],
    summary: &[u32; table_summary::NUMBERS],
    role: u64,
    kind: u64,
    class_number: u64,
) -> Answer
    ensures { Summarized table.now summary.now → result ≡ new_role_numbers (new_role_on table.now role kind class_number) }
{
    answer_numbers::new_role_numbers(sound_questions::new_role(
        table,
        summary,
        role as usize,
        kind as usize,
        class_number as usize,
    ))
}

// **Name of** a sort and number, as tegzhumbi_name answers it, without the test of the table.
#[unsafe(no_mangle)]
pub extern "C" fn tegzhumbi_sound_name(table: &[u8], sort: u64, number: u64) -> Part
    ensures { is_sound table.now ≡ true → result ≡ part_numbers (name_on table.now sort number) }
{
    answer_numbers::part_numbers(table_parts::name_place_in_sound(
        table,
        sort as usize,
        number as usize,
    ))
}

// **Entry** of a body from 2 on and its place there, as tegzhumbi_entry answers it, without the test of the table.
#[unsafe(no_mangle)]
pub extern "C" fn tegzhumbi_sound_entry(table: &[u8], body: u64, place: u64) -> Part
    ensures { is_sound table.now ≡ true → result ≡ part_numbers (entry_on table.now body place) }
{
    answer_numbers::part_numbers(table_parts::entry_place_in_sound(
        table,
        body as usize,
        place as usize,
    ))
}
