// Why a certificate says that an entry may differ: the lines that name the registers which are unknown there.
//
// They show for each register that the instruction reads and that is unknown which load made it so, and the argument
// that this load is of (`specs/certificate_explanations`). The certified run is made again by `run_reports::origins`,
// and nothing of it is kept but the lines.

mod explaining;
mod lines;
mod places;

pub use explaining::explain_certificate;
