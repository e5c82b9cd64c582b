//! Translators from ground answer set programs to clauses, and back.
#![tactic(auto)]

use asp_base::{HostDesk, Words};
use asp_tools::run;
use std::alloc::Global;
use std::env;
use std::process::ExitCode;

/// The words of the command line could not be had.
const NO_WORDS: u8 = 9;

/// There is no memory to list the words.
const NO_MEMORY: u8 = 8;

fn main(rt: HostRuntime) -> ExitCode {
    let alloc = rt.alloc();
    match words_of(&rt, alloc) {
        Ok(words) => {
            let mut desk = HostDesk::new(rt);
            ExitCode::from(run(alloc, &words, &mut desk).status())
        }
        Err(status) => ExitCode::from(status),
    }
}

/// The words after the program's own name.
fn words_of(rt: &HostRuntime, alloc: Global) -> Result<Words, u8> {
    let Ok(args) = env::args(rt) else {
        return Err(NO_WORDS);
    };
    let mut words = Words::new(alloc);
    for word in args.skip(1) {
        if words.push(word.as_str()).is_err() {
            return Err(NO_MEMORY);
        }
    }
    Ok(words)
}
