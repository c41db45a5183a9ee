// Calls of the libraries that no command makes: a recorder and memories of a caller's own, streams that falter,
// meanings within budgets, the function of an image that no source has, and commands on files whose contents are known.
// They stand here, above the crates that they call, so that none of those is proved a second time for its tests.
#![tactic(auto)]

#[cfg(test)]
mod counted_streams;
#[cfg(test)]
mod faltering_streams;
#[cfg(test)]
mod largest_frame;
#[cfg(test)]
mod machines;
#[cfg(test)]
mod meanings;
#[cfg(test)]
mod one_file;
