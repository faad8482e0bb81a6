// The forms of the statements and blocks: fault 3.
#![tactic(auto)]

ghost use Rattle.std.specs.Prelude.{◌≡◌, ℕ, ◌-◌};
ghost use Rattle.lexer.specs.Forms.{frames_at, trim};
ghost use Rattle.lexer.specs.Scan.{max_level};
ghost use Rattle.policy.specs.Words.{keyword_of};
ghost use Rattle.policy.specs.Grammar.{written};
ghost use Rattle.words.specs.Numbers.{word_of};
ghost use Rattle.items.specs.Looks.{item_at};
ghost use Rattle.items.specs.Reads.{is_some, Reads};
ghost use Rattle.grammar.specs.Shapes.{starts_block, HeaderIs, keyword_in, named, content_of, only_part, name_and_part, class_and_constraint, by_keyword};

use byte_slices::Span;
use items::{Item, Wanted};
use lexer::Level;
use policy::{Family, Relation, Sides};
use words::{NameKind, Word};

// What a statement is by its first word: it declares a thing, an attribute or a class, fills an attribute, relates
// two names, is a role transition, a constraint or a rule for relabelling.
#[derive(Clone, Copy)]
pub enum Keyword {
    Thing(Family),
    Attribute(Family),
    Class,
    Set(Family),
    Relation(Relation),
    Transition,
    Constrain,
    Relabel,
}

// What a part of a statement holds.
#[derive(Clone, Copy)]
enum Content {
    Permissions,
    Set,
    Constraint(Sides),
}

// The keyword of a number, or None for a word that is no keyword.
#[tactic(auto, unfolding(crate::proofs::Keywords::computing))]
pub fn keyword_of(number: usize) -> Option<Keyword>
    ensures { keyword_of (word_of number) ≡ keyword_in result }
{
    match number {
        Word::USER => Some(Keyword::Thing(Family::Users)),
        Word::ROLE => Some(Keyword::Thing(Family::Roles)),
        Word::TYPE => Some(Keyword::Thing(Family::Types)),
        Word::USERATTRIBUTE => Some(Keyword::Attribute(Family::Users)),
        Word::ROLEATTRIBUTE => Some(Keyword::Attribute(Family::Roles)),
        Word::TYPEATTRIBUTE => Some(Keyword::Attribute(Family::Types)),
        Word::CLASS => Some(Keyword::Class),
        Word::USERATTRIBUTESET => Some(Keyword::Set(Family::Users)),
        Word::ROLEATTRIBUTESET => Some(Keyword::Set(Family::Roles)),
        Word::TYPEATTRIBUTESET => Some(Keyword::Set(Family::Types)),
        Word::USERROLE => Some(Keyword::Relation(Relation::UserRole)),
        Word::ROLETYPE => Some(Keyword::Relation(Relation::RoleType)),
        Word::ROLEALLOW => Some(Keyword::Relation(Relation::RoleAllow)),
        Word::ROLETRANSITION => Some(Keyword::Transition),
        Word::CONSTRAIN => Some(Keyword::Constrain),
        Word::VALIDATETRANS => Some(Keyword::Relabel),
        _ => None,
    }
}

// What a part holds, to its close.
fn content_form(text: &[u8], at: usize, content: Content, levels: usize) -> Option<usize>
    ensures { Reads text.now at (content_of content (trim (frames_at text.now at).here levels)) result }
{
    match content {
        Content::Permissions => items::names_form(text, at, NameKind::Part, Wanted::OneOrMore),
        Content::Set => set_grammar::set_form(text, at, levels),
        Content::Constraint(sides) => {
            constraint_grammar::constraint_form(text, at, levels, sides)
        }
    }
}

// One part, and the close.
fn only_part(text: &[u8], at: usize, content: Content, levels: usize) -> Option<usize>
    ensures { Reads text.now at (only_part content (trim (frames_at text.now at).here levels)) result }
{
    let Item::Open { next, .. } = items::next_item(text, at) else {
        return None;
    };
    if levels == 0 {
        return None;
    }
    let past = content_form(text, next, content, levels - 1)?;
    items::close_form(text, past)
}

// A name of a kind, one part, and the close.
fn name_and_part(
    text: &[u8],
    at: usize,
    kind: NameKind,
    content: Content,
    levels: usize,
) -> Option<usize>
    ensures { Reads text.now at (name_and_part kind content (trim (frames_at text.now at).here levels)) result }
{
    let Item::Word {
        start,
        len,
        next,
        ..
    } = items::next_item(text, at)
    else {
        return None;
    };
    if !words::is_name(kind, text, start, len) {
        return None;
    }
    only_part(text, next, content, levels)
}

// A class with permissions in one part, a constraint expression in the next, and the close.
fn constrain_form(text: &[u8], at: usize, levels: usize) -> Option<usize>
    ensures { Reads text.now at (class_and_constraint (trim (frames_at text.now at).here levels)) result }
{
    let Item::Open { next, .. } = items::next_item(text, at) else {
        return None;
    };
    if levels == 0 {
        return None;
    }
    let past = name_and_part(text, next, NameKind::Name, Content::Permissions, levels - 1)?;
    only_part(text, past, Content::Constraint(Sides::Two), levels)
}

// What follows a keyword: so many names; a name and permissions; a name and a set expression; a class with permissions
// and a constraint expression; a class and a constraint expression.
fn keyword_form(text: &[u8], at: usize, keyword: Keyword, levels: usize) -> Option<usize>
    ensures { Reads text.now at (by_keyword (named keyword) (trim (frames_at text.now at).here levels)) result }
{
    match keyword {
        Keyword::Thing(_) | Keyword::Attribute(_) => {
            items::names_form(text, at, NameKind::Part, Wanted::Exactly(1))
        }
        Keyword::Class => name_and_part(text, at, NameKind::Part, Content::Permissions, levels),
        Keyword::Set(_) => name_and_part(text, at, NameKind::Name, Content::Set, levels),
        Keyword::Relation(_) => items::names_form(text, at, NameKind::Name, Wanted::Exactly(2)),
        Keyword::Transition => items::names_form(text, at, NameKind::Name, Wanted::Exactly(4)),
        Keyword::Constrain => constrain_form(text, at, levels),
        Keyword::Relabel => {
            let content = Content::Constraint(Sides::Three);
            name_and_part(text, at, NameKind::Name, content, levels)
        }
    }
}

// What the parentheses of a statement hold, by the first item after the open one: the place past the close, or None
// where the statement is of no form.
pub fn statement_form(text: &[u8], first: Item) -> Option<usize>
    ensures { (at : ℕ) → first ≡ item_at text.now at
        → Reads text.now at (is_some (written (trim (frames_at text.now at).here (max_level - 1)))) result }
{
    let Item::Word { number, next, .. } = first else {
        return None;
    };
    let keyword = keyword_of(number)?;
    keyword_form(text, next, keyword, Level::MAX - 1)
}

// Whether the first item after an open parenthesis says that it opens a block.
pub fn starts_block(first: Item) -> bool
    ensures { result ≡ starts_block first }
{
    matches!(
        first,
        Item::Word {
            number: Word::BLOCK,
            ..
        }
    )
}

// What follows the word `block`: a name of one part, then parts alone, whatever they hold, and the close. Answers
// where the name is, or None where the block is of no form.
pub fn block_form(text: &[u8], at: usize) -> Option<Span>
    ensures { HeaderIs text.now at result }
{
    let Item::Word {
        start,
        len,
        next,
        ..
    } = items::next_item(text, at)
    else {
        return None;
    };
    if !words::is_name(NameKind::Part, text, start, len) {
        return None;
    }
    items::parts_form(text, next)?;
    Some(Span { start, length: len })
}
