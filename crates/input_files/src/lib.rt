// What comes of files other than images: of a source that is read from a stream (`stream_build`), of code that another
// compiler made (`wrapping`), and of a file of harts (`harts_file`). Each promises what comes of the bytes that it is
// given, or what is wrong with them first. It stands on `hepurita`, on `harts` and on `streams`.
#![tactic(auto)]

pub mod harts_file;
pub mod stream_build;
pub mod wrapping;
