// Pictures of runs: a page on which steps run to the right and addresses upwards, with two runs over each other.
//
// It promises that each cell holds exactly what the runs show in it (`Marks.antt` and `Grid.antt` of `specs/pictures`),
// and that the page is the text of these cells, with
// what each holds, and of what was asked for (`Page.antt` there). It stands on `rv_machine`, which makes the steps.

mod areas;
mod cells;
mod constants;
mod grid;
mod hover;
mod layers;
mod marks;
mod page;
mod painting;
mod parting;
mod picturing;
mod titles;

pub use cells::Area;
pub use picturing::{Drawing, PairOfRuns, picture};
