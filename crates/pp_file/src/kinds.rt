// The bytes that a program file is told apart by.

/// The first four bytes of every file.
pub(crate) const MARK: [u8; 4] = [0x7f, 0x4c, 0x4c, 0x50];
/// The version, behind the mark.
pub(crate) const VERSION: u8 = 1;

/// No finish rule.
pub(crate) const NO_FINISH: u8 = 0;
/// A finish rule follows.
pub(crate) const FINISH: u8 = 1;

/// A host code without a value.
pub(crate) const MATCH: u8 = 0;
/// A host code with a value.
pub(crate) const VALUE: u8 = 1;

/// Bytes are compared as they are.
pub(crate) const SAME: u8 = 0;
/// A to Z are compared as a to z.
pub(crate) const LOWER: u8 = 1;

/// The byte isn't taken.
pub(crate) const LOOKS: u8 = 0;
/// The byte is taken.
pub(crate) const TAKES: u8 = 1;
/// The number that the move carries follows.
pub(crate) const CARRIES: u8 = 2;

pub(crate) const BRANCH: u8 = 0;

pub(crate) const CALL: u8 = 1;

pub(crate) const STORE: u8 = 2;

pub(crate) const LOAD: u8 = 3;

pub(crate) const UPDATE: u8 = 4;

pub(crate) const EQUAL: u8 = 5;

pub(crate) const AND: u8 = 6;

pub(crate) const OR: u8 = 7;

pub(crate) const TEST: u8 = 8;

pub(crate) const MUL_ADD: u8 = 9;

pub(crate) const CONSUME: u8 = 10;

pub(crate) const SPAN_OPEN: u8 = 11;

pub(crate) const SPAN_CLOSE: u8 = 12;

pub(crate) const PAUSE: u8 = 13;

pub(crate) const FAIL: u8 = 14;
