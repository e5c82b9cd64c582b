//! Whole runs of the top call: words and texts in; the outcome, what is made, said and complained out.
#![tactic(auto)]

#[cfg(test)]
mod tests;
