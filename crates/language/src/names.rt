// Symbol tables: names in the order in which they were first seen, each with what it stands for.
// Of two declarations of a name the first keeps it. Stands on `indexmap`.

mod table;

pub use table::Names;
