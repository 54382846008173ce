//! What calls answer beside the numbers of refusals and faults.

/// The handle holds no resource.
pub const CLOSED: i32 = -1;

/// The number is no value of the variable's type.
pub const NO_VALUE: i32 = -2;

/// There is nothing with this number or name.
pub const UNKNOWN: i32 = -3;

/// Memory was refused, and nothing was done.
pub const NO_MEMORY: i32 = -4;

/// It is no line of a script with one command at most.
pub const NO_LINE: i32 = -5;

/// The caller's array is too short, and nothing was done.
pub const TOO_SHORT: i32 = -6;

/// The text is no condition of the program instance, and nothing was done.
pub const NO_EXPRESSION: i32 = -7;
