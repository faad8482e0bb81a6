// The questions name of and entry: where a name or an entry is in a table, and the part of the lent table itself. The
// functions whose names end in `in_sound` are for a caller that found the table to be sound; of other bytes they answer
// something. The others answer for every table, 11 before 12.
#![tactic(auto)]

ghost use Rattle.std.specs.Prelude.{◌≡◌, true, false, [], ◌∷◌, ◌+◌, ◌/◌, ◌<◌, IfErr, OnOk, OnErr};
ghost use Rattle.policy.specs.Answers.{place_of};
ghost use Rattle.policy.specs.declared.Fault.TheVariants.{NotSound};
ghost use Rattle.policy.specs.Questions.{records_of, record_from, name_on, entry_on};
ghost use Rattle.table_reader.specs.Records.{start_in, length_in};
ghost use Rattle.soundness.specs.IsSound.{is_sound};
ghost use Rattle.table_parts.specs.RecordWidths.{width_of};
ghost use Rattle.table_parts.specs.ShownPart.{shown_part};

use byte_slices::Span;
use policy::{Attribute, Constraint, Fault, Relabel, Role, Row, Section, Transition, Type, User};

// ---- names

// Where the name of a sort and number is in a sound table.
pub fn name_place_in_sound(table: &[u8], sort: usize, number: usize) -> Result<Span, Fault>
    ensures { is_sound table.now ≡ true → place_of result ≡ name_on table.now sort number }
{
    let found = table_names::name_place(table, sort, number);
    match found {
        Some(name) => Ok(name),
        None => Err(Fault::NumberUndeclared),
    }
}

// ---- entries of bodies whose records have one width

// The record at a place among so many of one width, the first of which starts at `start`.
fn record_place(start: usize, count: usize, width: usize, place: usize) -> Result<Span, Fault>
    requires { (start < 8589934592) × (count < 4294967296) × (width < 256) }
    ensures { place_of result ≡ record_from place start (records_of count width ∷ []) }
{
    if count <= place {
        return Err(Fault::NumberUndeclared);
    }
    Ok(Span {
        start: start + place * width,
        length: width,
    })
}

// The record at a place of a body, counted from 0, that is records of one width.
fn run_place(table: &[u8], body: u8, width: usize, place: usize) -> Result<Span, Fault>
    requires { (0 < width) × (width < 256) }
    ensures { place_of result ≡ record_from place (start_in table.now body) (records_of (length_in table.now body / width) width ∷ []) }
{
    let start = table_reader::body_start(table, body) as usize;
    let bytes = table_reader::body_length(table, body) as usize;
    record_place(start, bytes / width, width, place)
}

// ---- entries of body 8

// The set at a place among those of userattributes, then roleattributes, then typeattributes, the first of which
// starts at `start`.
fn set_place(
    start: usize,
    users: usize,
    roles: usize,
    types: usize,
    place: usize,
) -> Result<Span, Fault>
    requires { (start < 4294967296) × (users < 65536) × (roles < 65536) × (types < 65536) }
    ensures { place_of result ≡ record_from place start (records_of users 16 ∷ records_of roles 16 ∷ records_of types 64 ∷ []) }
{
    if place < users {
        return record_place(start, users, User::SET_BYTES, place);
    }
    let second = start + users * User::SET_BYTES;
    let later = place - users;
    if later < roles {
        return record_place(second, roles, Role::SET_BYTES, later);
    }
    record_place(
        second + roles * Role::SET_BYTES,
        types,
        Type::SET_BYTES,
        later - roles,
    )
}

// The set of an attribute at a place of body 8 of a sound table. Such a table has no more attributes than may be
// declared.
fn attribute_place(table: &[u8], place: usize) -> Result<Span, Fault>
    ensures { is_sound table.now ≡ true → place_of result ≡ entry_on table.now 8 place }
{
    let counts = table_names::count_names(table);
    let start = table_reader::body_start(table, Section::ATTRIBUTE_SETS) as usize;
    set_place(
        start,
        counts.user_attributes.min(Attribute::MAX),
        counts.role_attributes.min(Attribute::MAX),
        counts.type_attributes.min(Attribute::MAX),
        place,
    )
}

// ---- entries

// How many bytes each record of a section has; 0 where they have no one width, and where there is no such section.
fn record_bytes(section: u8) -> usize
    ensures { result ≡ width_of section }
{
    match section {
        Section::USER_ROLES => Role::SET_BYTES,
        Section::ROLE_TYPES => Type::SET_BYTES,
        Section::ROLE_ROLES => Role::SET_BYTES,
        Section::TRANSITIONS => Transition::BYTES,
        Section::CONSTRAINTS => Constraint::BYTES,
        Section::ROWS => Row::BYTES,
        Section::RELABELS => Relabel::BYTES,
        Section::RELABEL_ROWS => Row::BYTES,
        _ => 0,
    }
}

// The body of the names, which name of serves and entry does not. A body's number is its section's, counted from 1.
const NAMES: usize = Section::NAMES as usize + 1;

// Where the entry of a body from 2 on and its place there is in a sound table. Where the table's edition has no such
// section, there is no such body.
pub fn entry_place_in_sound(table: &[u8], body: usize, place: usize) -> Result<Span, Fault>
    ensures { is_sound table.now ≡ true → place_of result ≡ entry_on table.now body place }
{
    let sections = table_reader::sections_of(table_reader::edition(table)) as usize;
    if body <= NAMES || sections < body {
        return Err(Fault::NumberUndeclared);
    }
    let section = (body - 1) as u8;
    if section == Section::ATTRIBUTE_SETS {
        return attribute_place(table, place);
    }
    run_place(table, section, record_bytes(section), place)
}

// ---- every table

// That the table is sound; else the refusal.
fn require_sound(table: &[u8]) -> Result<(), Fault>
    ensures ok { OnOk result (is_sound table.now ≡ true) }
    ensures unsound { IfErr result (λ f. f ≡ NotSound) }
    ensures err { OnErr result (is_sound table.now ≡ false) }
{
    if soundness::sound(table) {
        Ok(())
    } else {
        Err(Fault::NotSound)
    }
}

// Where the name of a sort and number is.
pub fn name_place(table: &[u8], sort: usize, number: usize) -> Result<Span, Fault>
    ensures { place_of result ≡ name_on table.now sort number }
{
    require_sound(table)?;
    name_place_in_sound(table, sort, number)
}

// Where the entry of a body from 2 on and its place there is.
pub fn entry_place(table: &[u8], body: usize, place: usize) -> Result<Span, Fault>
    ensures { place_of result ≡ entry_on table.now body place }
{
    require_sound(table)?;
    entry_place_in_sound(table, body, place)
}

// The part of the table at a place; on refusal an empty one. Where an empty part points is free: here it is the front
// of the table.
pub fn part_at(table: &[u8], place: Result<Span, Fault>) -> &[u8]
    ensures { result.now ≡ shown_part (place_of place) table.now }
{
    match place {
        Ok(span) => byte_slices::part(table, span.start, span.length),
        Err(_) => byte_slices::part(table, 0, 0),
    }
}

// The name of a sort and number; an empty part on refusal.
pub fn name(table: &[u8], sort: usize, number: usize) -> &[u8]
    ensures { result.now ≡ shown_part (name_on table.now sort number) table.now }
{
    part_at(table, name_place(table, sort, number))
}

// The entry of a body from 2 on and its place there; an empty part on refusal.
pub fn entry(table: &[u8], body: usize, place: usize) -> &[u8]
    ensures { result.now ≡ shown_part (entry_on table.now body place) table.now }
{
    part_at(table, entry_place(table, body, place))
}
