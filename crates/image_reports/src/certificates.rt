// Certificates: one run of an image for all arguments that have the given values, so that what an observer sees is
// shown to be one list whatever the secrets are, of any image, whoever made its code.
//
// What is known of the loaded image (`specs/certificates/KnownImage.antt`) covers the state that each such list of
// arguments is loaded to; so the answer of `certify` (`specs/certificates/Certified.antt`) is a promise on all of them,
// which the laws say (`certificates/laws.rt`). It stands on the certified runs of `certified_runs`, and loads as
// `hepurita` does.

mod certifying;
mod faults;
mod laws;
mod loading;
mod reading;

pub use certified_runs::{CertifiedEnd as Certificate, Shifts};
pub use certifying::{certify, certify_telling};
pub use laws::{
    certificates_hold, certifications_agree, known_images_cover,
    pairs_and_listings_are_as_certified,
};
pub(crate) use loading::argument_bytes;
pub use loading::{Loaded, load_given};
pub use reading::read_given;
