// Every answer as a struct of numbers, for other languages.
//
// Each function says of numbers that fit into four bytes what it gives; `tegzhumbi_c` proves that those of every answer
// of the library do.
#![tactic(auto)]

ghost use Rattle.std.specs.Prelude.{◌≡◌, ◌<◌};
ghost use Rattle.policy.specs.Answers.{compiling_by, validity_by, new_role_by, change_by, place_by};
ghost use Rattle.answer_numbers.specs.Numbers.{compiled_of, answer_of, part_of, compiled_numbers, valid_numbers, change_numbers, new_role_numbers, part_numbers, CompiledFits, Fits, PartFits};

use byte_slices::Span;
use policy::{Change, Numbered, Refusal};

// What compiling a text answers: the number 0, the length of its table and the line 0; or a refusal's number, place
// and line.
#[repr(C)]
#[derive(Clone, Copy)]
pub struct Compiled {
    pub number: u32,
    pub place: u32,
    pub line: u32,
}

// What a question about a table answers. Outcome 0: granted, or valid; 1: denied, or not valid; 2: refused. `number`
// is that of the denial or the refusal, or the new role; `constraint` that of the statement that fails, for denials 4
// and 6; `consulted` says how many statements were asked.
#[repr(C)]
#[derive(Clone, Copy)]
pub struct Answer {
    pub outcome: u32,
    pub number: u32,
    pub constraint: u32,
    pub consulted: u32,
}

// Where a part of a table starts and how long it is, with the number 0; or a refusal's number.
#[repr(C)]
#[derive(Clone, Copy)]
pub struct Part {
    pub number: u32,
    pub start: u32,
    pub length: u32,
}

// The greatest number that four bytes hold.
const FOUR_BYTES_MAX: usize = 4_294_967_295;

// A number in four bytes, where it fits; else the greatest that they hold.
pub fn four_bytes(number: usize) -> u32
    ensures { number < 4294967296 → result ≡ number }
{
    if FOUR_BYTES_MAX < number {
        return FOUR_BYTES_MAX as u32;
    }
    number as u32
}

// The outcomes of a question.
const GRANTED: u32 = 0;

const DENIED: u32 = 1;

const REFUSED: u32 = 2;

// A refusal of a text by its number, its place and its line.
pub fn refused_text_numbers(refusal: usize, place: usize, line: usize) -> Compiled
    ensures { CompiledFits (compiled_of refusal place line) → result ≡ compiled_of refusal place line }
{
    Compiled {
        number: four_bytes(refusal),
        place: four_bytes(place),
        line: four_bytes(line),
    }
}

pub fn compiled_numbers<F: Numbered>(answer: Result<usize, Refusal<F>>) -> Compiled
    ensures { CompiledFits (compiled_numbers (compiling_by F.number_of answer)) → result ≡ compiled_numbers (compiling_by F.number_of answer) }
{
    match answer {
        Ok(length) => Compiled {
            number: 0,
            place: four_bytes(length),
            line: 0,
        },
        Err(refusal) => {
            refused_text_numbers(refusal.fault.number(), refusal.place, refusal.line)
        }
    }
}

// A refusal of a question by its number.
pub fn refusal_numbers(number: usize) -> Answer
    ensures { number < 4294967296 → result ≡ answer_of 2 number 0 0 }
{
    Answer {
        outcome: REFUSED,
        number: four_bytes(number),
        constraint: 0,
        consulted: 0,
    }
}

// A denial by its number, with that of the statement that fails and how many were asked.
pub fn denial_numbers(number: usize, constraint: usize, consulted: usize) -> Answer
    ensures { Fits (answer_of 1 number constraint consulted) → result ≡ answer_of 1 number constraint consulted }
{
    Answer {
        outcome: DENIED,
        number: four_bytes(number),
        constraint: four_bytes(constraint),
        consulted: four_bytes(consulted),
    }
}

pub fn valid_numbers<F: Numbered>(answer: Result<bool, F>) -> Answer
    ensures { Fits (valid_numbers (validity_by F.number_of answer)) → result ≡ valid_numbers (validity_by F.number_of answer) }
{
    match answer {
        Ok(true) => Answer {
            outcome: GRANTED,
            number: 0,
            constraint: 0,
            consulted: 0,
        },
        Ok(false) => Answer {
            outcome: DENIED,
            number: 0,
            constraint: 0,
            consulted: 0,
        },
        Err(fault) => refusal_numbers(fault.number()),
    }
}

pub fn change_numbers<D: Numbered, F: Numbered>(answer: Result<Change<D>, F>) -> Answer
    ensures { Fits (change_numbers (change_by D.number_of F.number_of answer)) → result ≡ change_numbers (change_by D.number_of F.number_of answer) }
{
    match answer {
        Ok(Change::Granted { consulted }) => Answer {
            outcome: GRANTED,
            number: 0,
            constraint: 0,
            consulted: four_bytes(consulted),
        },
        Ok(Change::Denied(denial)) => denial_numbers(denial.number(), 0, 0),
        Ok(
            Change::Failed {
                denial,
                constraint,
                consulted,
            },
        ) => denial_numbers(denial.number(), constraint, consulted),
        Err(fault) => refusal_numbers(fault.number()),
    }
}

pub fn new_role_numbers<F: Numbered>(answer: Result<usize, F>) -> Answer
    ensures { Fits (new_role_numbers (new_role_by F.number_of answer)) → result ≡ new_role_numbers (new_role_by F.number_of answer) }
{
    match answer {
        Ok(number) => Answer {
            outcome: GRANTED,
            number: four_bytes(number),
            constraint: 0,
            consulted: 0,
        },
        Err(fault) => refusal_numbers(fault.number()),
    }
}

// A refusal of a name or an entry by its number.
pub fn refused_part_numbers(number: usize) -> Part
    ensures { number < 4294967296 → result ≡ part_of number 0 0 }
{
    Part {
        number: four_bytes(number),
        start: 0,
        length: 0,
    }
}

pub fn part_numbers<F: Numbered>(place: Result<Span, F>) -> Part
    ensures { PartFits (part_numbers (place_by F.number_of place)) → result ≡ part_numbers (place_by F.number_of place) }
{
    match place {
        Ok(Span { start, length }) => Part {
            number: 0,
            start: four_bytes(start),
            length: four_bytes(length),
        },
        Err(fault) => refused_part_numbers(fault.number()),
    }
}
