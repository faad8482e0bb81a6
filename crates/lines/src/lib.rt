// Lines of a text, for people who look at a page.
#![tactic(auto)]

ghost use Rattle.std.specs.Prelude.{◌≡◌, cond, leb};
ghost use Rattle.policy.specs.Outcome.{line_at};

use lexer::Text;

const LINE_FEED: u8 = 10;

// The line of a place: 1 plus the LF bytes before it. A place past the longest text has line 0. A sum over the bytes:
// by `filter` and `count` a text of line feeds with a fault at its end took four tenths longer to be refused.
pub fn line_of(text: &[u8], place: usize) -> usize
    ensures { result ≡ cond (leb place 65535) (line_at text.now place) 0 }
{
    if Text::MAX < place {
        return 0;
    }
    let before = byte_slices::part(text, 0, place);
    let mut line = 1;
    for byte in before {
        line += usize::from(*byte == LINE_FEED);
    }
    line
}
