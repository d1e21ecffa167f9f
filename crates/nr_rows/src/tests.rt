//! Runs of the top call, and classes that are made.
mod checks;
mod limits;
mod links;
mod made;
mod many;
mod printing;
mod programs;
mod refusals;
mod run;
mod runs;
mod scene;
mod throws;
mod values;
mod written;
