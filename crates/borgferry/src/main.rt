//! The program: its words and its environment.
//!
//! `main` makes the devices and calls `ferry_top::run`, or `ferry_run_restore::restore` for that command, which does it and prints its lines; the program
//! ends with the number of the status. What a folder or a terminal gives is known to no contract: the devices tell nothing, list
//! numbers that increase, and count their faults.
#![tactic(auto)]

mod advice;
mod after;
mod before;
mod command;
mod fault;
mod lines;
mod naming;
mod numbers;
mod other_files;
mod places;
mod refusal;
mod restoring;
mod secrets;
mod settings;
mod side;
mod start;
mod target;
mod timestamp;
mod tree;
mod withheld;

use ferry_real::Terminals;
use std::io::IsTerminal;
use std::process::ExitCode;

fn main(rt: HostRuntime) -> ExitCode {
    let terminals = Terminals {
        output: rt.stdout().is_terminal(),
        error: rt.stderr().is_terminal(),
    };
    ExitCode::from(start::start(&rt, terminals))
}
