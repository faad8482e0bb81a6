// What the long comparison asks from outside: the library's answers as numbers.
#![tactic(auto)]

ghost use Rattle.std.specs.Prelude.{◌≡◌, Err};
ghost use Rattle.lexer.specs.Scan.{scan, verdict_of};
ghost use Rattle.comparison.specs.Numbers.{number_of, place_of};

use lexer::{ScanFault, Text};

// A fault by its number and place; both are 0 where there is none.
#[repr(C)]
#[derive(Clone, Copy)]
pub struct Fault {
    pub number: u64,
    pub place: u64,
}

// A fault of the scan by its number and place.
fn numbers_of(fault: ScanFault) -> Fault
    ensures { (result.number ≡ number_of (verdict_of (Err fault)))
        × (result.place ≡ place_of (verdict_of (Err fault))) }
{
    match fault {
        ScanFault::TooLong => Fault {
            number: policy::Fault::TextTooLong.number() as u64,
            place: Text::MAX as u64,
        },
        ScanFault::Wrong(place) => Fault {
            number: policy::Fault::WrongByte.number() as u64,
            place: place as u64,
        },
    }
}

// Faults 1 and 2 of a text.
#[unsafe(no_mangle)]
pub extern "C" fn tegzhumbi_scan(text: &[u8]) -> Fault
    ensures { (result.number ≡ number_of (verdict_of (scan text.now)))
        × (result.place ≡ place_of (verdict_of (scan text.now))) }
{
    match lexer::scan(text) {
        Ok(()) => Fault {
            number: 0,
            place: 0,
        },
        Err(fault) => numbers_of(fault),
    }
}
