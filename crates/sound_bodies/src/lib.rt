// Whether the bodies of a table stand where its header says, and whether those after the first are sound for what the
// names of body 1 declare. Every function answers for every table, whatever its bytes are.
#![tactic(auto)]

ghost use Rattle.std.specs.Prelude.{◌≡◌, [], ◌+◌, ◌*◌, ◌<◌, length, take, drop};
ghost use Rattle.bitset.specs.Sets.{within};
ghost use Rattle.byte_slices.specs.Parts.{part};
ghost use Rattle.policy.specs.Sound.{bodies_in, transition_at};
ghost use Rattle.sound_constraints.specs.Totals.{things_of, attributes_of, totals_in};
ghost use Rattle.sound_constraints.specs.SoundRows.{is_some};
ghost use Rattle.sound_bodies.specs.FewSets.{Few};
ghost use Rattle.sound_bodies.specs.SoundBodies.{header_bytes, follow, sets_within, sets_sound, relations_sound};
ghost use Rattle.sound_bodies.specs.SoundBodies.{run_of, fits_transition, transitions_fit, transitions_sound};
ghost use Rattle.sound_bodies.specs.SoundBodies.{constraints_sound, attributes_sound, relabels_sound, bodies_sound};

use policy::{Constraint, NameCounts, Relabel, Role, Row, Section, Table, Transition, Type, User};

// ---- the layout

// Where a header says how many sections there are.
const SECTIONS_AT: usize = 2;

// Where the first body starts, after a header with so many pairs.
fn first_body(sections: u8) -> usize
    ensures { result ≡ header_bytes sections }
{
    Table::FIRST_PAIR + Table::PAIR_BYTES * (sections as usize)
}

// Whether each of so many bodies starts where the one before it ends, and the last ends within the table.
fn bodies_follow(table: &[u8], sections: u8) -> bool
    ensures { result ≡ follow sections (header_bytes sections) (length table.now) (drop 4 table.now) }
{
    let mut end = first_body(sections);
    for body in 0..sections {
        if table_reader::body_start(table, body) as usize != end {
            return false;
        }
        end += table_reader::body_length(table, body) as usize;
    }
    end <= table.len()
}

// Whether the table has a header of an edition that there is, and the bodies of this edition one after the other.
// Where they stand, the header says.
#[tactic(auto, using(crate::proofs::LayoutTest::laid_out))]
pub fn is_laid_out(table: &[u8]) -> bool
    ensures { result ≡ is_some (bodies_in table.now) }
{
    let sections = table_reader::sections_of(table_reader::edition(table));
    sections != 0
        && first_body(sections) <= table.len()
        && table_reader::u16_at(table, SECTIONS_AT) == sections as u16
        && bodies_follow(table, sections)
}

// ---- sets

// Whether the set in the `width` bytes at a place has no number at or above total. The bytes whose numbers are all
// below it are not looked at.
fn is_within_at(table: &[u8], place: usize, width: usize, total: usize) -> bool
    requires { place + width < 18446744073709551616 }
    ensures { result ≡ within total (part table.now place width) }
{
    let filled = total / 8;
    width <= filled || set_rows::is_within_at(table, place + filled, width - filled, total % 8)
}

// Whether so many sets of `width` bytes from `start` on have no number at or above total. The start is so low that no
// place overflows.
fn sets_within(table: &[u8], start: usize, count: usize, width: usize, total: usize) -> bool
    requires { (start < 1099511627776) × (count < 65536) × (width < 65536) }
    ensures { result ≡ sets_within count width total (drop start table.now) }
{
    for number in 0..count {
        if !is_within_at(table, start + number * width, width, total) {
            return false;
        }
    }
    true
}

// Whether a body, counted from 0, is so many sets of `width` bytes that have no number at or above total.
fn sets_sound(table: &[u8], body: u8, count: usize, width: usize, total: usize) -> bool
    requires { (count < 65536) × (width < 65536) }
    ensures { result ≡ sets_sound body count width total table.now }
{
    table_reader::body_length(table, body) as usize == count * width
        && sets_within(
            table,
            table_reader::body_start(table, body) as usize,
            count,
            width,
            total,
        )
}

// Whether the bodies 2 to 4 are sound.
fn relations_sound(table: &[u8], counts: NameCounts) -> bool
    requires { Few counts }
    ensures { result ≡ relations_sound (things_of counts) table.now }
{
    sets_sound(
        table,
        Section::USER_ROLES,
        counts.users,
        Role::SET_BYTES,
        counts.roles,
    ) && sets_sound(
        table,
        Section::ROLE_TYPES,
        counts.roles,
        Type::SET_BYTES,
        counts.types,
    ) && sets_sound(
        table,
        Section::ROLE_ROLES,
        counts.roles,
        Role::SET_BYTES,
        counts.roles,
    )
}

// ---- records

// Records of one width, one after the other: where the first starts, and how many there are.
#[derive(Clone, Copy)]
struct Run {
    start: u32,
    count: u32,
}

// The records of `width` bytes that a body, counted from 0, is, if there are not more than so many and no byte is left.
fn records_of(table: &[u8], body: u8, width: u32, most: u32) -> Option<Run>
    requires { 0 < width }
    ensures { result ≡ run_of body width most table.now }
{
    let length = table_reader::body_length(table, body);
    let count = length / width;
    if length != count * width || most < count {
        return None;
    }
    Some(Run {
        start: table_reader::body_start(table, body),
        count,
    })
}

// ---- transitions

// Whether the transition of this number, where the transitions of 82 bytes start at `start`, names nothing undeclared.
fn fits_transition(table: &[u8], start: u32, number: u32, counts: NameCounts) -> bool
    ensures { result ≡ fits_transition (things_of counts) counts.classes (transition_at (take 82 (drop (start + 82 * number) table.now))) }
{
    let at = start as usize + Transition::BYTES * (number as usize);
    is_within_at(table, at, Role::SET_BYTES, counts.roles)
        && is_within_at(
            table,
            at + Transition::TYPES_AT,
            Type::SET_BYTES,
            counts.types,
        )
        && (byte_slices::byte(table, at + Transition::CLASS_AT) as usize) < counts.classes
        && (byte_slices::byte(table, at + Transition::NEW_ROLE_AT) as usize) < counts.roles
}

// Whether so many transitions from `start` on name nothing undeclared.
fn transitions_fit(table: &[u8], start: u32, count: u32, counts: NameCounts) -> bool
    ensures { result ≡ transitions_fit (things_of counts) counts.classes count (drop start table.now) }
{
    for number in 0..count {
        if !fits_transition(table, start, number, counts) {
            return false;
        }
    }
    true
}

// Whether body 5 is sound.
fn transitions_sound(table: &[u8], counts: NameCounts) -> bool
    ensures { result ≡ transitions_sound (things_of counts) counts.classes table.now }
{
    let Some(transitions) = records_of(
        table,
        Section::TRANSITIONS,
        Transition::BYTES as u32,
        Transition::MAX as u32,
    ) else {
        return false;
    };
    transitions_fit(table, transitions.start, transitions.count, counts)
}

// ---- constraints

// Whether the bodies 6 and 7 are sound.
fn constraints_sound(table: &[u8], counts: NameCounts, permissions: &[usize]) -> bool
    ensures { result ≡ constraints_sound (totals_in counts permissions.now) table.now }
{
    let Some(constraints) = records_of(
        table,
        Section::CONSTRAINTS,
        Constraint::BYTES as u32,
        Constraint::MAX as u32,
    ) else {
        return false;
    };
    let Some(rows) = records_of(table, Section::ROWS, Row::BYTES as u32, Row::MAX as u32) else {
        return false;
    };
    sound_constraints::constraints_fit(
        table,
        constraints.start,
        constraints.count,
        rows.start,
        rows.count as u16,
        counts,
        permissions,
    )
}

// ---- validatetrans statements

// Whether the bodies 9 and 10 are sound. A table of an edition that does not have them has no such statements.
fn relabels_sound(table: &[u8], counts: NameCounts) -> bool
    ensures { result ≡ relabels_sound (totals_in counts []) table.now }
{
    if table_reader::sections_of(table_reader::edition(table)) <= Section::RELABELS {
        return true;
    }
    let Some(relabels) = records_of(
        table,
        Section::RELABELS,
        Relabel::BYTES as u32,
        Relabel::MAX as u32,
    ) else {
        return false;
    };
    let Some(rows) = records_of(
        table,
        Section::RELABEL_ROWS,
        Row::BYTES as u32,
        Relabel::MAX_ROWS as u32,
    ) else {
        return false;
    };
    sound_constraints::relabels_fit(
        table,
        relabels.start,
        relabels.count,
        rows.start,
        rows.count as u16,
        counts,
    )
}

// ---- attributes, and all

// Whether body 8 is sound.
fn attributes_sound(table: &[u8], counts: NameCounts) -> bool
    requires { Few counts }
    ensures { result ≡ attributes_sound (things_of counts) (attributes_of counts) table.now }
{
    let users = User::SET_BYTES * counts.user_attributes;
    let roles = Role::SET_BYTES * counts.role_attributes;
    let types = Type::SET_BYTES * counts.type_attributes;
    let start = table_reader::body_start(table, Section::ATTRIBUTE_SETS) as usize;
    table_reader::body_length(table, Section::ATTRIBUTE_SETS) as usize == users + roles + types
        && sets_within(
            table,
            start,
            counts.user_attributes,
            User::SET_BYTES,
            counts.users,
        )
        && sets_within(
            table,
            start + users,
            counts.role_attributes,
            Role::SET_BYTES,
            counts.roles,
        )
        && sets_within(
            table,
            start + users + roles,
            counts.type_attributes,
            Type::SET_BYTES,
            counts.types,
        )
}

// Whether the bodies after the first are sound, where it declares so many things of each sort and `permissions` holds
// how many permissions each class has.
#[tactic(auto, unfolding(crate::specs::SoundBodies::bodies_sound))]
pub fn bodies_sound(table: &[u8], counts: NameCounts, permissions: &[usize]) -> bool
    requires { Few counts }
    ensures { result ≡ bodies_sound (totals_in counts permissions.now) table.now }
{
    if !relations_sound(table, counts) {
        return false;
    }
    transitions_sound(table, counts)
        && constraints_sound(table, counts, permissions)
        && attributes_sound(table, counts)
        && relabels_sound(table, counts)
}
