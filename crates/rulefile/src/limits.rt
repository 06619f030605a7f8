// The limits of the format. Every other file names them.
use sheets::WIDTH;

// How many bytes a file can have.
pub const MOST_BYTES: usize = 32_768;

// The least length that a record can say: that of its kind, with no body.
pub const LEAST_LENGTH: u32 = 2;

// The greatest length that a record can say.
pub const MOST_LENGTH: u32 = 1_024;

// How many records of one kind a file can have; wishes of both kinds count as one.
pub const MOST_OF_KIND: usize = 256;

// The greatest count of marks.
pub const MOST_MARKS: u8 = WIDTH;

// How many constraints the body of a rule can have.
pub const MOST_CONSTRAINTS: u8 = 8;

// How many elements a constraint can have.
pub const MOST_ELEMENTS: u8 = 32;

// How many literals a clause can have.
pub const MOST_CLAUSE_LITERALS: u8 = 32;

// How many literals a wish can have.
pub const MOST_WISH_LITERALS: u8 = 16;

// The greatest level of a wish; levels are numbered from 1.
pub const TOP_LEVEL: u8 = 8;

// The greatest weight of a wish. The least is as far below 0.
pub const MOST_WEIGHT: i16 = 10_000;

// Stands for no high bound.
pub const NO_HIGH: u32 = 4_294_967_295;

// The greatest code of an act; they are numbered from 1.
pub const MOST_CODE: u8 = 4;

// Is added to a mark for "not".
pub const NOT: u8 = 128;

// How many bytes a sheet field has.
pub const SHEET_BYTES: usize = 8;
