//! The commands of borgferry over devices in memory, as a script says.
//!
//! Standard input is the script, a line for each thing to do, with the files that it names beside the program. What each line did is printed below
//! it. README.md has the words. A line that isn't one ends the program with status 1.
#![tactic(auto)]

mod case;
mod devices;
mod each;
mod ran;
mod script;
mod stop;

use anyhow::Result;

fn main(rt: HostRuntime) -> Result<()> {
    script::play(&rt)
}
