// The lines of the printed roll, written one after the other into lent memory: those of a sound table, or the line of
// a refusal.
#![tactic(auto)]

ghost use Rattle.std.specs.Prelude.{◌≡◌, true, ◌+◌, ◌*◌, ◌≤◌, ◌<◌, length};
ghost use Rattle.policy.specs.Questions.{entry_on};
ghost use Rattle.policy.specs.Answers.{refusal_by};
ghost use Rattle.policy.specs.Outcome.{refusal_at};
ghost use Rattle.policy.specs.Roll.{roll_line, labelled, refusal};
ghost use Rattle.soundness.specs.IsSound.{is_sound};
ghost use Rattle.table_parts.specs.ShownPart.{shown_part};
ghost use Rattle.text_writer.specs.WrittenText.{Appends};
ghost use Rattle.roll_lines.specs.LineWrites.{acceptance, Printable, PutsLines, PutsRoll};

use policy::{Numbered, Refusal, Sort};

// ---- one line

// Writes the line of a thing: its sort, its name, what its set is of, and how many members the set has.
fn put_line(out: &mut [u8], at: usize, kind: &[u8], name: &[u8], of: &[u8], set: &[u8]) -> usize
    requires { (at + (length kind.now + (length name.now + (length of.now + 21))) ≤ length out.old) × (8 * length set.now < 18446744073709551616) }
    ensures { Appends out.old at (roll_line kind.now name.now of.now set.now) out.new result }
{
    let members = bitset::count(set);
    let past_kind = text_writer::put_bytes(out, at, kind);
    let past_name = text_writer::put_bytes(out, past_kind, name);
    let past_of = text_writer::put_bytes(out, past_name, of);
    let end = text_writer::put_decimal(out, past_of, members);
    text_writer::put_bytes(out, end, b"\n")
}

// Writes a word and a number after it.
fn put_labelled(out: &mut [u8], at: usize, label: &[u8], number: usize) -> usize
    requires { at + (length label.now + 20) ≤ length out.old }
    ensures { Appends out.old at (labelled label.now number) out.new result × (result ≤ at + (length label.now + 20)) }
{
    let start = text_writer::put_bytes(out, at, label);
    text_writer::put_decimal(out, start, number)
}

// Writes the line of a refusal by its number, its place and its line.
pub fn put_refusal_numbers(out: &mut [u8], number: usize, place: usize, line: usize) -> usize
    requires { 79 ≤ length out.old }
    ensures { Appends out.old 0 (refusal (refusal_at number place line)) out.new result }
{
    let past_number = put_labelled(out, 0, b"refused ", number);
    let past_place = put_labelled(out, past_number, b" at ", place);
    let past_line = put_labelled(out, past_place, b" line ", line);
    text_writer::put_bytes(out, past_line, b"\n")
}

// Writes the line of a refusal.
pub fn put_refusal<F: Numbered>(out: &mut [u8], refused: Refusal<F>) -> usize
    requires { 79 ≤ length out.old }
    ensures { Appends out.old 0 (refusal (refusal_by F.number_of refused)) out.new result }
{
    put_refusal_numbers(out, refused.fault.number(), refused.place, refused.line)
}

// Writes the first line of the roll of an accepted text.
fn put_acceptance(out: &mut [u8], bytes: usize) -> usize
    requires { 36 ≤ length out.old }
    ensures { Appends out.old 0 (acceptance bytes) out.new result }
{
    let start = text_writer::put_bytes(out, 0, b"accepted ");
    let end = text_writer::put_decimal(out, start, bytes);
    text_writer::put_bytes(out, end, b" bytes\n")
}

// ---- the lines of a sort

// The set at a place of a body of a sound table.
fn set_at(table: &[u8], body: usize, number: usize) -> &[u8]
    requires { is_sound table.now ≡ true }
    ensures { result.now ≡ shown_part (entry_on table.now body number) table.now }
{
    let place = table_parts::entry_place_in_sound(table, body, number);
    table_parts::part_at(table, place)
}

// Writes a line for each user or each role, by number, up to the first number that nothing has.
fn put_lines(
    table: &[u8],
    sort: usize,
    body: usize,
    kind: &[u8],
    of: &[u8],
    out: &mut [u8],
    at: usize,
) -> usize
    requires { Printable table.now sort kind.now of.now out.old at }
    ensures { PutsLines table.now sort body kind.now of.now out.old at out.new result }
{
    let mut end = at;
    let mut number = 0;
    while let Ok(place) = table_parts::name_place_in_sound(table, sort, number) {
        let name = byte_slices::part(table, place.start, place.length);
        let set = set_at(table, body, number);
        end = put_line(out, end, kind, name, of, set);
        number += 1;
    }
    end
}

// ---- the roll

// The bodies of the sets of users and roles, by the numbers that entry takes, which count from 1.
const USER_ROLES: usize = policy::Section::USER_ROLES as usize + 1;

const ROLE_TYPES: usize = policy::Section::ROLE_TYPES as usize + 1;

// Writes the roll of a sound table that has so many bytes: users first, then roles.
pub fn put_roll(table: &[u8], bytes: usize, out: &mut [u8]) -> usize
    requires { (is_sound table.now ≡ true) × (length table.now ≤ 65536) × (24868 ≤ length out.old) }
    ensures { PutsRoll table.now bytes out.old out.new result }
{
    let users = put_acceptance(out, bytes);
    let roles = put_lines(
        table,
        Sort::USER,
        USER_ROLES,
        b"user ",
        b" roles ",
        out,
        users,
    );
    put_lines(
        table,
        Sort::ROLE,
        ROLE_TYPES,
        b"role ",
        b" types ",
        out,
        roles,
    )
}
