// Work as a sum over the source: what each node of a procedure costs at most, with the bodies that it calls counted
// where they are called. The laws here say that it is the work of the body with numbered variables, part by part, and
// that the parts make the whole.

mod laws;

pub use laws::{cost_is_that_of_the_body, parts_make_the_work, work_is_that_of_the_body};
