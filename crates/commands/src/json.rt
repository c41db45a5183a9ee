// Answers in JSON: what is done with a request, and why it is not, each as one object on one line of standard output.

mod answers;
mod faults;
mod performing;
mod subject;

pub use performing::perform_in_json;
