// The table, a constant for each code.

pub mod executables;
pub mod inputs;
pub mod limits;
pub mod names;
pub mod reading;
pub mod runs;
pub mod secrecy;
pub mod types;
