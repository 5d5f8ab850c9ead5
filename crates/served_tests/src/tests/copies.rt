//! Copies of logs: restarts, batches, formats and other tables. A test is a list of steps over
//! one database, each with its expected answer.
mod causes;
mod formats;
mod kept;
mod refused;
mod reports;
mod restored;
mod samples;
mod steps;
mod stops;
mod walks;
