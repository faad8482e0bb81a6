// Asks the questions of a corpus on standard input, each in two ways, and writes a line for each answer: of any bytes,
// and of a table that was tested once, with its summary. A case is the length of a table, 4 bytes, little endian, the
// table, the number of its questions, 4 bytes, and for each question its kind and eight numbers, or ten for a
// relabelling, 8 bytes each. The corpus ends with the input, or with a case that is cut short or longer than the memory
// here.
#![tactic(auto)]

use decisions::Context;
use policy::{Change, Fault};
use std::io;
use std::io::{Read, Write};

// The greatest length of a case's table: more than the longest table has.
const CASE_MAX: usize = 262_144;

// The most numbers that a question has: its kind, and what it asks. Only a relabelling has so many.
const NUMBERS: usize = 11;

// The kind of a question that has as many numbers, and how many the others have.
const RELABEL: usize = 5;

const OTHER_NUMBERS: usize = 9;

// A question, by what it asks.
#[derive(Clone, Copy)]
enum Question {
    Valid(Context),
    Change {
        source: Context,
        target: Context,
        class: usize,
        permission: usize,
    },
    NewRole {
        role: usize,
        kind: usize,
        class: usize,
    },
    Name {
        sort: usize,
        number: usize,
    },
    Entry {
        body: usize,
        place: usize,
    },
    Relabel {
        class: usize,
        old: Context,
        new: Context,
        process: Context,
    },
}

// Reads the numbers of a question; answers whether there was one.
fn read_numbers<R: Read>(input: &mut R, numbers: &mut [usize; NUMBERS]) -> io::Result<bool> {
    for i in 0..NUMBERS {
        if i == OTHER_NUMBERS && numbers[0] != RELABEL {
            return Ok(true);
        }
        let Some(n) = corpus::number(input)? else {
            return Ok(false);
        };
        numbers[i] = n;
    }
    Ok(true)
}

fn context(user: usize, role: usize, kind: usize) -> Context {
    Context { user, role, kind }
}

// The question that has these numbers, if there is such a kind.
fn question_of(numbers: &[usize; NUMBERS]) -> Option<Question> {
    let [kind, a, b, c, d, e, f, g, h, i, j] = *numbers;
    match kind {
        0 => Some(Question::Valid(context(a, b, c))),
        1 => Some(Question::Change {
            source: context(a, b, c),
            target: context(d, e, f),
            class: g,
            permission: h,
        }),
        2 => Some(Question::NewRole {
            role: a,
            kind: b,
            class: c,
        }),
        3 => Some(Question::Name { sort: a, number: b }),
        4 => Some(Question::Entry { body: a, place: b }),
        RELABEL => Some(Question::Relabel {
            class: a,
            old: context(b, c, d),
            new: context(e, f, g),
            process: context(h, i, j),
        }),
        _ => None,
    }
}

// Asks a question of any bytes and shows the answer.
fn ask<W: Write>(out: &mut W, table: &[u8], question: Question) -> io::Result<()> {
    match question {
        Question::Valid(c) => {
            answer_show::show_validity(out, questions::valid(table, c.user, c.role, c.kind))
        }
        Question::Change {
            source,
            target,
            class,
            permission,
        } => answer_show::show_change(
            out,
            questions::change(table, source, target, class, permission),
        ),
        Question::NewRole { role, kind, class } => {
            answer_show::show_new_role(out, questions::new_role(table, role, kind, class))
        }
        Question::Name { sort, number } => {
            answer_show::show_place(out, table_parts::name_place(table, sort, number))
        }
        Question::Entry { body, place } => {
            answer_show::show_place(out, table_parts::entry_place(table, body, place))
        }
        Question::Relabel {
            class,
            old,
            new,
            process,
        } => answer_show::show_change(out, questions::relabel(table, class, old, new, process)),
    }
}

// Asks a question of a table that was tested once, and shows the answer.
fn ask_tested<W: Write>(
    out: &mut W,
    table: &[u8],
    summary: &[u32; table_summary::NUMBERS],
    question: Question,
) -> io::Result<()> {
    match question {
        Question::Valid(c) => answer_show::show_validity(
            out,
            sound_questions::valid(table, summary, c.user, c.role, c.kind),
        ),
        Question::Change {
            source,
            target,
            class,
            permission,
        } => answer_show::show_change(
            out,
            sound_questions::change(table, summary, source, target, class, permission),
        ),
        Question::NewRole { role, kind, class } => answer_show::show_new_role(
            out,
            sound_questions::new_role(table, summary, role, kind, class),
        ),
        Question::Name { sort, number } => {
            answer_show::show_place(out, table_parts::name_place_in_sound(table, sort, number))
        }
        Question::Entry { body, place } => {
            answer_show::show_place(out, table_parts::entry_place_in_sound(table, body, place))
        }
        Question::Relabel {
            class,
            old,
            new,
            process,
        } => answer_show::show_change(
            out,
            sound_questions::relabel(table, summary, class, old, new, process),
        ),
    }
}

// Reads the questions after a table, asks each in both ways and shows the answers; answers whether there were as many.
fn ask_all<R: Read, W: Write>(input: &mut R, out: &mut W, table: &[u8]) -> io::Result<bool> {
    let Some(count) = corpus::length(input)? else {
        return Ok(false);
    };
    let mut summary = [0u32; table_summary::NUMBERS];
    let sound = table_summary::summarize(table, &mut summary);
    let mut numbers = [0usize; NUMBERS];
    for _ in 0..count {
        if !read_numbers(input, &mut numbers)? {
            return Ok(false);
        }
        let Some(question) = question_of(&numbers) else {
            return Ok(false);
        };
        ask(out, table, question)?;
        if sound {
            ask_tested(out, table, &summary, question)?;
        } else {
            let refused: Result<Change, Fault> = Err(Fault::NotSound);
            answer_show::show_change(out, refused)?;
        }
    }
    Ok(true)
}

fn main(rt: HostRuntime) -> io::Result<()> {
    let mut memory = [0u8; CASE_MAX];
    corpus::each_case(
        &mut rt.stdin(),
        &mut rt.stdout(),
        &mut memory,
        |input, out, table| ask_all(input, out, table),
    )
}
