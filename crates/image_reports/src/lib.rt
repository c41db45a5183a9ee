// What is said of an image, of its runs and of its source: whether all secrets show the same (`certificates`), and why
// they may not (`certificate_explanations`), where two runs part (`pair_explanations`), pictures of runs
// (`image_pictures`), vectors tried (`vectors`), and costs as lines (`statistics`, `image_statistics`,
// `source_statistics`), with places in several files (`source_places`). Each promises exactly what it says, by the
// image, its runs or the passes. It stands on `hepurita`, `listing`, `certified_runs` and `run_reports`.
#![tactic(auto)]

pub mod certificate_explanations;
pub mod certificates;
pub mod image_pictures;
pub mod image_statistics;
pub mod pair_explanations;
pub mod source_places;
pub mod source_statistics;
pub mod statistics;
pub mod vectors;
