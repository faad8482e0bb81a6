// The lines that a program writes for answers: of compile, of the questions.
#![tactic(auto)]

use byte_slices::Span;
use policy::{Change, Numbered, Refusal};
use std::io;
use std::io::Write;

// The line of a question that is refused: `refused 12`.
fn show_fault<W: Write, F: Numbered>(out: &mut W, fault: F) -> io::Result<()> {
    writeln!(out, "refused {}", fault.number())
}

// `refused 5 at 8 line 1`, without the line's end.
fn refusal_words<W: Write, F: Numbered>(out: &mut W, refusal: Refusal<F>) -> io::Result<()> {
    let number = refusal.fault.number();
    let place = refusal.place;
    let line = refusal.line;
    write!(out, "refused {number} at {place} line {line}")
}

pub fn show_refusal<W: Write, F: Numbered>(out: &mut W, refusal: Refusal<F>) -> io::Result<()> {
    refusal_words(out, refusal)?;
    writeln!(out)
}

// `accepted 280`, or the words of a refusal, without the line's end.
fn compiled<W: Write, F: Numbered>(
    out: &mut W,
    answer: Result<usize, Refusal<F>>,
) -> io::Result<()> {
    match answer {
        Ok(length) => write!(out, "accepted {length}"),
        Err(refusal) => refusal_words(out, refusal),
    }
}

pub fn show_compiling<W: Write, F: Numbered>(
    out: &mut W,
    answer: Result<usize, Refusal<F>>,
) -> io::Result<()> {
    compiled(out, answer)?;
    writeln!(out)
}

// The same, and a checksum after it.
pub fn show_compiling_and<W: Write, F: Numbered>(
    out: &mut W,
    answer: Result<usize, Refusal<F>>,
    checksum: usize,
) -> io::Result<()> {
    compiled(out, answer)?;
    writeln!(out, " {checksum}")
}

pub fn show_validity<W: Write, F: Numbered>(
    out: &mut W,
    answer: Result<bool, F>,
) -> io::Result<()> {
    match answer {
        Ok(true) => writeln!(out, "valid"),
        Ok(false) => writeln!(out, "not valid"),
        Err(fault) => show_fault(out, fault),
    }
}

// The number of a denial, of the statement that fails, and of those consulted.
fn denied<W: Write, D: Numbered>(
    out: &mut W,
    denial: D,
    constraint: usize,
    consulted: usize,
) -> io::Result<()> {
    let number = denial.number();
    writeln!(
        out,
        "denied {number} constraint {constraint} consulted {consulted}"
    )
}

fn ruled<W: Write, D: Numbered>(out: &mut W, change: Change<D>) -> io::Result<()> {
    match change {
        Change::Granted { consulted } => writeln!(out, "granted consulted {consulted}"),
        Change::Denied(denial) => denied(out, denial, 0, 0),
        Change::Failed {
            denial,
            constraint,
            consulted,
        } => denied(out, denial, constraint, consulted),
    }
}

pub fn show_change<W: Write, D: Numbered, F: Numbered>(
    out: &mut W,
    answer: Result<Change<D>, F>,
) -> io::Result<()> {
    match answer {
        Ok(change) => ruled(out, change),
        Err(fault) => show_fault(out, fault),
    }
}

pub fn show_new_role<W: Write, F: Numbered>(
    out: &mut W,
    answer: Result<usize, F>,
) -> io::Result<()> {
    match answer {
        Ok(number) => writeln!(out, "role {number}"),
        Err(fault) => show_fault(out, fault),
    }
}

pub fn show_place<W: Write, F: Numbered>(out: &mut W, answer: Result<Span, F>) -> io::Result<()> {
    match answer {
        Ok(Span { start, length }) => writeln!(out, "part {start} {length}"),
        Err(fault) => show_fault(out, fault),
    }
}

// A name is bytes, which need not be text, so it is written as it stands.
pub fn show_name<W: Write>(out: &mut W, name: &[u8]) -> io::Result<()> {
    write!(out, "name ")?;
    out.write_all(name)?;
    writeln!(out)
}
