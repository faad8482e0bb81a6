// What all crates share: the numbers of things with their maxima, the families and sorts of names, the numbers that
// are in a table, and the answers. What the documents say of them is in specs/.
#![tactic(auto)]

ghost use Rattle.std.specs.Prelude.{◌≡◌, ℕ};
ghost use Rattle.policy.specs.Answers.{fault_number, denial_number, placed};

use lexer::{ScanFault, Text};

// The number of a user, from 0 in text order.
#[derive(Clone, Copy)]
pub struct User(pub u64);

impl User {
    // The most users that a text may declare.
    pub const MAX: usize = 128;

    // The bytes of a set of users.
    pub const SET_BYTES: usize = 16;
}

// The number of a role.
#[derive(Clone, Copy)]
pub struct Role(pub u64);

impl Role {
    pub const MAX: usize = 128;

    pub const SET_BYTES: usize = 16;
}

// The number of a type.
#[derive(Clone, Copy)]
pub struct Type(pub u64);

impl Type {
    pub const MAX: usize = 512;

    pub const SET_BYTES: usize = 64;
}

// The number of an attribute in its family.
#[derive(Clone, Copy)]
pub struct Attribute(pub u64);

impl Attribute {
    // The most attributes of one family.
    pub const MAX: usize = 64;
}

// The number of a class.
#[derive(Clone, Copy)]
pub struct Class(pub u64);

impl Class {
    pub const MAX: usize = 32;
}

// The place of a permission in its class.
#[derive(Clone, Copy)]
pub struct Permission(pub u64);

impl Permission {
    // The most permissions of one class.
    pub const MAX: usize = 32;
}

// The number of a role transition.
#[derive(Clone, Copy)]
pub struct Transition(pub u64);

impl Transition {
    pub const MAX: usize = 128;

    // The bytes of a transition in a table: a set of roles, a set of types, the class and the new role.
    pub const BYTES: usize = Role::SET_BYTES + Type::SET_BYTES + 2;

    // Where they are in it; the roles come first.
    pub const TYPES_AT: usize = Role::SET_BYTES;

    pub const CLASS_AT: usize = Role::SET_BYTES + Type::SET_BYTES;

    pub const NEW_ROLE_AT: usize = Role::SET_BYTES + Type::SET_BYTES + 1;
}

// The number of a constraint.
#[derive(Clone, Copy)]
pub struct Constraint(pub u64);

impl Constraint {
    pub const MAX: usize = 128;

    // The most values on the stack that a constraint's rows are run on.
    pub const MAX_STACK: usize = 5;

    // The bytes of a constraint in a table: its class, its permission mask, its first row and how many rows it has.
    pub const BYTES: usize = 10;

    // Where they are in it; the class comes first.
    pub const MASK_AT: usize = 2;

    pub const FIRST_ROW_AT: usize = 6;

    pub const ROW_COUNT_AT: usize = 8;

    // The bytes of body 6 where it has as many as there may be.
    pub const MAX_BODY_BYTES: usize = Constraint::MAX * Constraint::BYTES;
}

// The number of a validatetrans statement, which says when a file may be relabelled.
#[derive(Clone, Copy)]
pub struct Relabel(pub u64);

impl Relabel {
    pub const MAX: usize = 64;

    // The most rows of all of them.
    pub const MAX_ROWS: usize = 1_024;

    // The bytes of one in a table: its class, and how many rows it has.
    pub const BYTES: usize = 4;

    // Where they are in it; the class comes first.
    pub const ROW_COUNT_AT: usize = 2;

    // The bytes of bodies 9 and 10 where they have as many, and as many rows, as there may be.
    pub const MAX_BODY_BYTES: usize = Relabel::MAX * Relabel::BYTES;

    pub const MAX_ROWS_BODY_BYTES: usize = Relabel::MAX_ROWS * Row::BYTES;
}

// The number of a constraint row, over all constraints.
#[derive(Clone, Copy)]
pub struct Row(pub u64);

impl Row {
    pub const MAX: usize = 2_048;

    // The bytes of a row in a table: its kind, a component, an operator, one that is not used, and a number.
    pub const BYTES: usize = 6;

    // Where they are in it; the kind comes first.
    pub const COMPONENT_AT: usize = 1;

    pub const OPERATOR_AT: usize = 2;

    pub const UNUSED_AT: usize = 3;

    pub const NUMBER_AT: usize = 4;

    // The bytes of body 7 where it has as many as there may be.
    pub const MAX_BODY_BYTES: usize = Row::MAX * Row::BYTES;

    // The kinds: three operators on the stack, and three comparisons. (Numbers, as are components and operators below:
    // any byte may stand in a table, and an enum would need a case for all that are none.)
    pub const NOT: u8 = 0;

    pub const AND: u8 = 1;

    pub const OR: u8 = 2;

    pub const TWO_SIDES: u8 = 3;

    pub const SIDE_AND_THING: u8 = 4;

    pub const SIDE_AND_ATTRIBUTE: u8 = 5;
}

// A component of a context, as a row has it.
#[derive(Clone, Copy)]
pub struct Component;

impl Component {
    pub const U1: u8 = 0;

    pub const U2: u8 = 1;

    pub const R1: u8 = 2;

    pub const R2: u8 = 3;

    pub const T1: u8 = 4;

    pub const T2: u8 = 5;

    pub const U3: u8 = 6;

    pub const R3: u8 = 7;

    pub const T3: u8 = 8;

    // How many there are of two sides, and of three.
    pub const COUNT: u8 = 6;

    pub const COUNT_OF_THREE: u8 = 9;
}

// The operator of a comparison, as a row has it.
#[derive(Clone, Copy)]
pub struct Operator;

impl Operator {
    pub const EQ: u8 = 0;

    pub const NEQ: u8 = 1;

    pub const DOM: u8 = 2;

    pub const DOMBY: u8 = 3;

    pub const INCOMP: u8 = 4;

    // How many two roles can be compared by, and how many all others: eq and neq.
    pub const COUNT_OF_ROLES: u8 = 5;

    pub const COUNT: u8 = 2;
}

// A block: how deep blocks may nest.
#[derive(Clone, Copy)]
pub struct Block;

impl Block {
    pub const MAX_DEPTH: usize = 8;
}

// A full name, which is the names of the blocks around it and its own: how many parts it may have.
#[derive(Clone, Copy)]
pub struct FullName;

impl FullName {
    pub const MAX_PARTS: usize = Block::MAX_DEPTH + 1;
}

// What a name is declared as, by the number that is in a table. (Numbers, since any number may be asked for, and is
// answered: `name_of` of the library takes each.)
#[derive(Clone, Copy)]
pub struct Sort;

impl Sort {
    pub const USER: usize = 0;

    pub const ROLE: usize = 1;

    pub const TYPE: usize = 2;

    // From here to the classes: the attributes of users, roles and types.
    pub const FIRST_ATTRIBUTE: usize = 3;

    pub const USER_ATTRIBUTE: usize = 3;

    pub const ROLE_ATTRIBUTE: usize = 4;

    pub const TYPE_ATTRIBUTE: usize = 5;

    pub const CLASS: usize = 6;

    pub const PERMISSION: usize = 7;

    // How many sorts there are.
    pub const COUNT: usize = 8;
}

// How many names of each sort there are; those of permissions are counted by class.
#[derive(Clone, Copy)]
pub struct NameCounts {
    pub users: usize,
    pub roles: usize,
    pub types: usize,
    pub user_attributes: usize,
    pub role_attributes: usize,
    pub type_attributes: usize,
    pub classes: usize,
}

// A table: the edition that is written, how many sections it has, and the bytes of its header: the edition and the
// number of sections, and for each section its offset and its length.
#[derive(Clone, Copy)]
pub struct Table;

impl Table {
    pub const EDITION: u16 = 2;

    pub const SECTIONS: u8 = 10;

    // Where the pairs of offset and length start, where the first length is, and the bytes of each pair.
    pub const FIRST_PAIR: usize = 4;

    pub const FIRST_LENGTH: usize = Table::FIRST_PAIR + 4;

    pub const PAIR_BYTES: usize = 8;

    pub const HEADER_BYTES: usize = Table::FIRST_PAIR
        + Table::PAIR_BYTES * (Table::SECTIONS as usize);
}

// An entry of the names: the sort, the number, the length of the name, and the name.
#[derive(Clone, Copy)]
pub struct NameEntry;

impl NameEntry {
    pub const NUMBER_AT: usize = 1;

    pub const LENGTH_AT: usize = 3;

    // The bytes before the name.
    pub const HEAD_BYTES: usize = 4;
}

// The sections of a table, counted from 0: body 1 is the first one's bytes.
#[derive(Clone, Copy)]
pub struct Section;

impl Section {
    pub const NAMES: u8 = 0;

    pub const USER_ROLES: u8 = 1;

    pub const ROLE_TYPES: u8 = 2;

    // The roles that each role may become.
    pub const ROLE_ROLES: u8 = 3;

    pub const TRANSITIONS: u8 = 4;

    pub const CONSTRAINTS: u8 = 5;

    pub const ROWS: u8 = 6;

    pub const ATTRIBUTE_SETS: u8 = 7;

    // The validatetrans statements, and their rows.
    pub const RELABELS: u8 = 8;

    pub const RELABEL_ROWS: u8 = 9;
}

// Users with userattributes, roles with roleattributes, types with typeattributes.
#[derive(Clone, Copy)]
pub enum Family {
    Users,
    Roles,
    Types,
}

// Which sides a constraint expression may name: the two of a change, or the three of a relabelling.
#[derive(Clone, Copy)]
pub enum Sides {
    Two,
    Three,
}

// What gives roles to users, types to roles, and to roles the roles that they may become.
#[derive(Clone, Copy)]
pub enum Relation {
    UserRole,
    RoleType,
    RoleAllow,
}

// Why a text is refused, or a question about a table.
#[derive(Clone, Copy, PartialEq, Eq)]
pub enum Fault {
    TextTooLong,
    WrongByte,
    NoForm,
    DeclaredAgain,
    NameUndeclared,
    MaximumPassed,
    StackTooSmall,
    Cycle,
    Clash,
    MemoryTooShort,
    NotSound,
    NumberUndeclared,
}

impl Fault {
    // The number that the refusal has: 1 to 10 for texts, 11 and 12 for questions.
    pub fn number(self) -> usize
        ensures { result ≡ fault_number self }
    {
        match self {
            Fault::TextTooLong => 1,
            Fault::WrongByte => 2,
            Fault::NoForm => 3,
            Fault::DeclaredAgain => 4,
            Fault::NameUndeclared => 5,
            Fault::MaximumPassed => 6,
            Fault::StackTooSmall => 7,
            Fault::Cycle => 8,
            Fault::Clash => 9,
            Fault::MemoryTooShort => 10,
            Fault::NotSound => 11,
            Fault::NumberUndeclared => 12,
        }
    }
}

// A fault of a text, and its place.
#[derive(Clone, Copy)]
pub struct FaultAt {
    pub fault: Fault,
    pub place: usize,
}

impl From<ScanFault> for FaultAt {
    ghost from_gives = { λ f e. e ≡ placed f };

    fn from(fault: ScanFault) -> FaultAt {
        match fault {
            ScanFault::TooLong => FaultAt {
                fault: Fault::TextTooLong,
                place: Text::MAX,
            },
            ScanFault::Wrong(place) => FaultAt {
                fault: Fault::WrongByte,
                place,
            },
        }
    }
}

// A refusal of a text: its fault, its place, and the line of a place in the text, else 0. A text's fault is one of the
// first ten; `F` is another type where it is known by its number alone.
#[derive(Clone, Copy)]
pub struct Refusal<F = Fault> {
    pub fault: F,
    pub place: usize,
    pub line: usize,
}

// Why a change or a relabelling is denied. Of a relabelling the source is the old context and the target the new one.
#[derive(Clone, Copy, PartialEq, Eq)]
pub enum Denial {
    SourceNotValid,
    TargetNotValid,
    RoleMayNotChange,
    ConstraintFails,
    ProcessNotValid,
    RelabelFails,
}

impl Denial {
    // The number that the denial has.
    pub fn number(self) -> usize
        ensures { result ≡ denial_number self }
    {
        match self {
            Denial::SourceNotValid => 1,
            Denial::TargetNotValid => 2,
            Denial::RoleMayNotChange => 3,
            Denial::ConstraintFails => 4,
            Denial::ProcessNotValid => 5,
            Denial::RelabelFails => 6,
        }
    }
}

// What has a number: a fault, a denial, or a number itself. Whoever hands out or prints an answer's numbers asks no more
// of what the answer is refused or denied by.
pub trait Numbered: Copy {
    ghost number_of: { Self → ℕ };

    // The number that it has.
    fn number(self) -> usize
        ensures { result ≡ number_of self };
}

impl Numbered for Fault {
    ghost number_of = { fault_number };

    fn number(self) -> usize {
        // the type's own function, not this one again
        Fault::number(self)
    }
}

impl Numbered for Denial {
    ghost number_of = { denial_number };

    fn number(self) -> usize {
        // the type's own function, not this one again
        Denial::number(self)
    }
}

impl Numbered for usize {
    ghost number_of = { λ n. n };

    fn number(self) -> usize {
        self
    }
}

// What a change, or a relabelling, comes to: granted; denied before any statement is asked; or denied by the statement
// that fails, a constraint or a validatetrans statement, with its number. `consulted` counts the statements that were
// asked; where it is missing it is 0. `D` is another type where the denial is known by its number alone.
#[derive(Clone, Copy)]
pub enum Change<D = Denial> {
    Granted {
        consulted: usize,
    },
    Denied(D),
    Failed {
        denial: D,
        constraint: usize,
        consulted: usize,
    },
}
