// Names of C's library, as C17 reserves them, in the order of its headers.

mod arithmetic;
mod macros;
mod programs;
mod texts;

pub(crate) use arithmetic::is_number_name;
pub(crate) use macros::is_macro_name;
pub(crate) use programs::{is_system_name, is_thread_name};
pub(crate) use texts::is_text_name;
