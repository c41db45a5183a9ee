use hepurita::RunFault;
use image::ImageFault;
use language::Rule;
use thiserror::Error;

/// Which call gave no answer, and why.
#[derive(Debug, Drop, Error)]
pub enum RequestsFault {
    #[error("build: {0}: {1}")]
    Build(Rule, &'static str),
    #[error("read: {0}")]
    Read(ImageFault),
    #[error("arguments: M1: memory")]
    Arguments,
    /// With how many observations were kept before.
    #[error("execute: {0} after {1} observations")]
    Execute(RunFault, usize),
    /// With how many bytes were taken before.
    #[error("put_all: M1: memory after {0} bytes")]
    Put(usize),
}
