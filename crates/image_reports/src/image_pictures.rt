// Pictures of an image's runs: a page of HTML on which steps run to the right and addresses upwards.
//
// It promises that the page is the picture of the runs that `run`, `pair` and `certify` make of the image on these
// arguments (`Drawn.antt` of `specs/image_pictures`), and which lines of progress go out (`Telling.antt` there). Images
// are loaded as by `hepurita` and `certificates`, and `run_reports::pictures` draws.

mod drawing;

pub use drawing::{Caption, picture_of_given, picture_of_pair};
