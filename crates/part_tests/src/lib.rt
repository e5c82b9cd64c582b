//! Tests of stores, completions, cycles and maps: what no clause says.
#![tactic(auto)]

#[cfg(test)]
mod completions;
#[cfg(test)]
mod cycles;
#[cfg(test)]
mod maps;
#[cfg(test)]
mod stores;
