//! Runs of each command, over desks in memory and over real files.

mod acyclic;
mod checks;
mod faults;
mod heard;
mod judgements;
mod large;
mod naming;
mod normalizing;
mod outside;
mod real_files;
mod refusals;
mod runs;
mod samples;
mod soft;
mod translations;
