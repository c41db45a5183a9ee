// Where two runs of an image part: the lines that explain the first entry at which what an observer sees of them
// differs.
//
// They show the last word that both runs come to, what it reads in each of them, and what each shows then
// (`specs/pair_explanations/Explained.antt`). Both runs are made again, and nothing of them is kept but the lines. The
// place is found by `run_reports::run_places`; images are loaded as `hepurita` does, and entries and words printed as
// `listing` does.

mod explaining;
mod lines;

pub use explaining::explain_difference;
