//! Reads the rules texts that are named as arguments, and prints the size of each set or the first
//! fault of the text.
#![tactic(auto)]

use frz_rules::{RulesError, read_rules, set_size};
use std::alloc::Global;
use std::{env, fs, io};

fn describe(rt: &impl Print, alloc: Global, name: &str, text: &[u8]) -> io::Result<()> {
    match read_rules(alloc, text) {
        Ok(rules) => println!(rt; "{name}: {} numbers", set_size(&rules)),
        Err(RulesError::Bad(fault)) => println!(rt;
            "{name}: line {}, {:?}",
            fault.line, fault.cause
        ),
        Err(RulesError::NoMemory) => println!(rt; "{name}: no memory"),
    }
}

fn main(rt: HostRuntime) -> io::Result<()> {
    for name in env::args(&rt)?.skip(1) {
        let text = fs::read(&rt, name.as_str())?;
        describe(&rt, rt.alloc(), name.as_str(), text.as_slice())?;
    }
    Ok(())
}
