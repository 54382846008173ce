//! The words that all crates share: names, values and their types, numbers of what is numbered, counted work, and the
//! writing of bytes (IEC 61131-3:2003, 2.1 to 2.4).
//!
//! - `case`: whether two words are one but for the case of their letters.
//! - `class`: what a byte may begin; `run`: the longest run of bytes of one alphabet.
//! - `delimiter`, `keyword`: the delimiters, and the reserved words.
//! - `ids`: numbers of variables, tasks, program instances, transitions, actions and associations.
//! - `instants`: the time between instants.
//! - `items`: a list that contracts compare by its elements.
//! - `laws`: what holds of the definitions themselves.
//! - `limits`: how much a plant may have at most.
//! - `location`: where a variable lies.
//! - `name`: names.
//! - `qualifier`: the qualifiers that have a time.
//! - `references`: what names a variable or a step by number.
//! - `ticks`: counted work.
//! - `time_value`: values of type TIME; `unit`: the units of durations.
//! - `value`: values; `var_type`: the types of variables.
//! - `write_fault`: writing that stops where the writer fails.
#![tactic(auto)]

pub mod case;
pub mod class;
pub mod delimiter;
pub mod ids;
pub mod instants;
pub mod items;
pub mod keyword;
pub mod laws;
pub mod limits;
pub mod location;
pub mod name;
pub mod qualifier;
pub mod references;
pub mod run;
pub mod ticks;
pub mod time_value;
pub mod unit;
pub mod value;
pub mod var_type;
pub mod write_fault;
