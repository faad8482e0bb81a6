// `(validatetrans C E)` with its names resolved: the record of body 9 and the rows of body 10 as they will be in the
// table; faults 5, 6 and 7. Its form is known to be good where this is called.
#![tactic(auto)]

ghost use Rattle.std.specs.Prelude.{IfErr};
ghost use Rattle.policy.specs.Encode.{relabel_bytes};
ghost use Rattle.constrain_statement.specs.Limits.{IsRefusal, Records};
ghost use Rattle.relabel_statement.specs.RelabelWrites.{record_with, WritesRelabel};

use policy::{Fault, Relabel};

// Writes the record of a statement, if there is room for it: class 2, row count 2.
fn put_record(relabels: &mut [u8], count: usize, class: usize, rows: usize)
    ensures { Records 4 (relabel_bytes (record_with class rows)) relabels.old relabels.new count }
{
    if relabels.len() / Relabel::BYTES <= count {
        return;
    }
    let at = Relabel::BYTES * count;
    little_endian::put2(relabels, at, class);
    little_endian::put2(relabels, at + Relabel::ROW_COUNT_AT, rows);
}

// Resolves what follows the keyword, writes the rows of the expression from a row on, and the record of that number:
// the number of the row after the statement's rows, or the fault. What has no room in the lent slices is not written;
// those that hold all records and rows always have it. The maxima are asked last: what a refused statement leaves in
// the slices is not read.
pub fn write_relabel(
    text: &[u8],
    at: usize,
    symbols: &[u8],
    relabels: &mut [u8],
    count: usize,
    rows: &mut [u8],
    row: usize,
) -> Result<usize, Fault>
    ensures writes { WritesRelabel text.now at symbols.now relabels.old relabels.new count
        rows.old rows.new row result }
    ensures refuses { IfErr result IsRefusal }
{
    if Relabel::MAX_ROWS < row {
        return Err(Fault::MaximumPassed);
    }
    let Some(named) = constrain_statement::class_at(text, at, symbols) else {
        return Err(Fault::NameUndeclared);
    };
    let Some(written) = constrain_statement::write_expression(text, named.next, symbols, rows, row)
    else {
        return Err(Fault::NameUndeclared);
    };
    put_record(relabels, count, named.class, written.row - row);
    constrain_statement::limit(Relabel::MAX, Relabel::MAX_ROWS, count, written)
}
