//! Texts and what is read of them: programs, formulas, maps, answers and sets of atoms; and what is written of them.
#![tactic(auto)]

#[cfg(test)]
mod tests;
