// Numbers and records in the bytes of a table, little endian. Every function answers for every table and every place:
// past the end all bytes read 0.
#![tactic(auto)]

ghost use Rattle.std.specs.Prelude.{◌≡◌, ◌+◌, ◌*◌, take, drop};
ghost use Rattle.policy.specs.Basics.{unle};
ghost use Rattle.policy.specs.Answers.{family_of};
ghost use Rattle.policy.specs.Encode.{sections_of};
ghost use Rattle.policy.specs.Sound.{of_comp, constraint_at, relabel_at, edition_in};
ghost use Rattle.table_reader.specs.Records.{row_at, row_of, constraint_of, relabel_of, start_in, length_in};

use policy::{Component, Constraint, Family, Relabel, Row, Table};

// A constraint of body 6: its class, its permission mask, its first row and how many rows it has.
#[derive(Clone, Copy)]
pub struct ConstraintRecord {
    pub class: u16,
    pub mask: u32,
    pub first: u16,
    pub rows: u16,
}

// A statement of body 9: its class, and how many rows of body 10 it takes up after those before it.
#[derive(Clone, Copy)]
pub struct RelabelRecord {
    pub class: u16,
    pub rows: u16,
}

// A row of body 7 or 10.
#[derive(Clone, Copy)]
pub struct RowRecord {
    pub kind: u8,
    pub component: u8,
    pub operator: u8,
    pub number: u16,
}

// The number in the two bytes at a place.
pub fn u16_at(table: &[u8], at: usize) -> u16
    ensures { result ≡ unle (take 2 (drop at table.now)) }
{
    if table.len().saturating_sub(at) < 2 {
        return byte_slices::byte(table, at) as u16;
    }
    little_endian::get2(table, at) as u16
}

// The number in the four bytes at a place.
pub fn u32_at(table: &[u8], at: usize) -> u32
    ensures { result ≡ unle (take 4 (drop at table.now)) }
{
    if table.len().saturating_sub(at) < 4 {
        return little_endian::number(byte_slices::part(table, at, 4)) as u32;
    }
    little_endian::get4(table, at) as u32
}

// The class of the constraint of this number, where the constraints of 10 bytes start at `start`. A walk asks for it
// before the other fields.
pub fn constraint_class(table: &[u8], start: u32, number: u32) -> u16
    ensures { result ≡ (constraint_at (drop (start + 10 * number) table.now)).class }
{
    u16_at(
        table,
        start as usize + Constraint::BYTES * (number as usize),
    )
}

// The constraint of this number, where the constraints of 10 bytes start at `start`.
pub fn constraint_at(table: &[u8], start: u32, number: u32) -> ConstraintRecord
    ensures { constraint_of result ≡ constraint_at (drop (start + 10 * number) table.now) }
{
    let at = start as usize + Constraint::BYTES * (number as usize);
    ConstraintRecord {
        class: u16_at(table, at),
        mask: u32_at(table, at + Constraint::MASK_AT),
        first: u16_at(table, at + Constraint::FIRST_ROW_AT),
        rows: u16_at(table, at + Constraint::ROW_COUNT_AT),
    }
}

// The statement of body 9 of this number, where the statements of 4 bytes start at `start`.
pub fn relabel_at(table: &[u8], start: u32, number: u32) -> RelabelRecord
    ensures { relabel_of result ≡ relabel_at (drop (start + 4 * number) table.now) }
{
    let at = start as usize + Relabel::BYTES * (number as usize);
    RelabelRecord {
        class: u16_at(table, at),
        rows: u16_at(table, at + Relabel::ROW_COUNT_AT),
    }
}

// The row of this number, where the rows of 6 bytes start at `start`.
pub fn row_at(table: &[u8], start: u32, number: u32) -> RowRecord
    ensures { row_of result ≡ row_at (drop (start + 6 * number) table.now) }
{
    let at = start as usize + Row::BYTES * (number as usize);
    RowRecord {
        kind: byte_slices::byte(table, at),
        component: byte_slices::byte(table, at + Row::COMPONENT_AT),
        operator: byte_slices::byte(table, at + Row::OPERATOR_AT),
        number: u16_at(table, at + Row::NUMBER_AT),
    }
}

// The family of a row's component. Tests in order, since a `match` makes a question on many rows 2 % longer.
pub fn family_of(component: u8) -> Family
    ensures { family_of result ≡ of_comp component }
{
    if component < Component::R1 {
        return Family::Users;
    }
    if component < Component::T1 {
        return Family::Roles;
    }
    if component < Component::U3 {
        return Family::Types;
    }
    if component < Component::R3 {
        return Family::Users;
    }
    if component < Component::T3 {
        return Family::Roles;
    }
    Family::Types
}

// The edition that a table says it is of.
pub fn edition(table: &[u8]) -> u16
    ensures { result ≡ edition_in table.now }
{
    u16_at(table, 0)
}

// How many sections the tables of an edition have; 0 where there is no such edition.
pub fn sections_of(edition: u16) -> u8
    ensures { result ≡ sections_of edition }
{
    match edition {
        1 => 8,
        2 => Table::SECTIONS,
        _ => 0,
    }
}

// Where a body starts, as the header says; bodies are counted from 0.
pub fn body_start(table: &[u8], body: u8) -> u32
    ensures { result ≡ start_in table.now body }
{
    u32_at(
        table,
        Table::FIRST_PAIR + Table::PAIR_BYTES * (body as usize),
    )
}

// How many bytes a body has, as the header says.
pub fn body_length(table: &[u8], body: u8) -> u32
    ensures { result ≡ length_in table.now body }
{
    u32_at(
        table,
        Table::FIRST_LENGTH + Table::PAIR_BYTES * (body as usize),
    )
}
