//! How much a plant may have at most (our choice).

/// The most tasks.
pub const TASKS: usize = 16;

/// The most program instances.
pub const INSTANCES: usize = 64;

/// The most variables of the image: the globals, and the locals of all instances.
pub const VARIABLES: usize = 4096;

/// The most steps of a program type.
pub const STEPS: usize = 1024;

/// The most transitions of a program type.
pub const TRANSITIONS: usize = 2048;

/// The most associations of steps with actions of a program type.
pub const ASSOCIATIONS: usize = 4096;
