// The packet types: one constant table, with the service classes, links and payload rules of each (PKT-TABLE).
#![tactic(auto)]

ghost use Rattle.std.specs.Prelude.{◌≡◌};
ghost use Rattle.packet_types.specs.Types.{type_row, has_class_d, has_link, unwanted_data, numbered_zero};
ghost use Rattle.packet_types.specs.Types.{in_class_d, opens, opening_fault, not_class_d};

// The types by their numbers, TYPE-1 to TYPE-4 and TYPE-251 to TYPE-255.
pub const AU1: u8 = 1;

pub const AU2: u8 = 2;

pub const DATA_PACKET: u8 = 3;

pub const RELEASE_PACKET: u8 = 4;

const TURN_TO_REDUNDANT: u8 = 251;

const TURN_TO_NORMAL: u8 = 253;

const LIFE_OF_IDLE: u8 = 254;

const LIFE_OF_ACTIVE: u8 = 255;

// AU-1: where the caller's id and the called id stand, and how many bytes each has.
pub const CALLER_AT: usize = 0;

pub const CALLED_AT: usize = 4;

pub const ID_SIZE: usize = 4;

// AU-1: the class of class D, and where the class stands behind two ids.
pub const CLASS_D: u8 = 0x03;

const AU1_CLASS_AT: u8 = 8;

// AU-1, AU-2: what the user data begins with.
const AU1_LEAST: u8 = 9;

const AU2_LEAST: u8 = 4;

// The columns that are looked up. Where a column asks yes or no, 1 is yes and 0 is no; the place of the class in the user data is
// 0 where the type names none.
const KIND: usize = 0;

const IN_CLASS_D: usize = 2;

const ON_NORMAL: usize = 3;

const ON_REDUNDANT: usize = 4;

const LEAST: usize = 5;

const USER_DATA: usize = 6;

const NUMBERED_ZERO: usize = 7;

const CLASS_AT: usize = 8;

const CLASS: usize = 9;

// PKT-TABLE: the packet types, a row to each.
// Stays: rows of numbers, 1 and 0 for yes and no: 01 asks for a constant table of numbers (FORM-6).
const TYPES: [[u8; 10]; 8] = [
    // type; class A, class D; normal link, redundant link; least user data, may have user data, numbered 0, place of the class,
    // class
    [AU1, 1, 1, 1, 1, AU1_LEAST, 1, 1, AU1_CLASS_AT, CLASS_D],
    [AU2, 1, 1, 1, 1, AU2_LEAST, 1, 1, 0, 0],
    [DATA_PACKET, 1, 1, 1, 1, 0, 1, 0, 0, 0],
    [RELEASE_PACKET, 1, 1, 1, 1, 0, 1, 0, 0, 0],
    [TURN_TO_REDUNDANT, 1, 0, 0, 1, 0, 1, 0, 0, 0],
    [TURN_TO_NORMAL, 1, 0, 1, 0, 0, 1, 0, 0, 0],
    [LIFE_OF_IDLE, 1, 0, 1, 1, 0, 0, 0, 0, 0],
    [LIFE_OF_ACTIVE, 1, 0, 1, 1, 0, 0, 0, 0, 0],
];

// The row of a type, zeros for a type that the table does not have.
// Stays: a loop over every row, the last first, and no `find`: with no way out before the end the compiler takes the cells as
// constants, and builds the table for no packet.
fn type_row(kind: u8) -> [u8; 10]
    ensures { result ≡ type_row kind }
{
    let mut found = [0; 10];
    for row in TYPES.iter().rev() {
        if row[KIND] == kind {
            found = *row;
        }
    }
    found
}

// PKT-TABLE: the column of class D.
fn has_class_d(row: [u8; 10]) -> bool
    ensures { result ≡ has_class_d row }
{
    row[IN_CLASS_D] == 1
}

// PKT-TABLE: the column of the link.
fn has_link(normal: bool, row: [u8; 10]) -> bool
    ensures { result ≡ has_link normal row }
{
    let cell = if normal {
        row[ON_NORMAL]
    } else {
        row[ON_REDUNDANT]
    };
    cell == 1
}

// PKT-TABLE: user data where the type has none.
fn unwanted_data(row: [u8; 10], data: &[u8]) -> bool
    ensures { result ≡ unwanted_data row «data».now }
{
    row[USER_DATA] == 0 && !data.is_empty()
}

// TYPE-1, TYPE-2: the column of the types numbered 0.
fn numbered_zero(row: [u8; 10]) -> bool
    ensures { result ≡ numbered_zero row }
{
    row[NUMBERED_ZERO] == 1
}

// PKT-TABLE: whether class D has a type.
pub fn in_class_d(kind: u8) -> bool
    ensures { result ≡ in_class_d kind }
{
    has_class_d(type_row(kind))
}

// TYPE-1, TYPE-2: AU1 or AU2, the packets that open.
pub fn opens(kind: u8) -> bool
    ensures { result ≡ opens kind }
{
    numbered_zero(type_row(kind))
}

// PKT-311, LINK-309: a fault in number, length or class of an AU1 or AU2.
pub fn opening_fault(kind: u8, number: u16, data: &[u8]) -> bool
    ensures { result ≡ opening_fault kind number «data».now }
{
    let row = type_row(kind);
    number != 0
        || data.len() < usize::from(row[LEAST])
        || row[CLASS_AT] != 0
            && field::number_at::<u8>(data, usize::from(row[CLASS_AT])) != row[CLASS]
}

// PKT-311: no packet of class D. The table is asked for the link and for user data too; it has every type in class D on both
// links and with user data.
pub fn not_class_d(normal: bool, number: u16, kind: u8, data: &[u8]) -> bool
    ensures { result ≡ not_class_d number kind «data».now }
{
    let row = type_row(kind);
    !has_class_d(row)
        || !has_link(normal, row)
        || unwanted_data(row, data)
        || numbered_zero(row) && opening_fault(kind, number, data)
}
