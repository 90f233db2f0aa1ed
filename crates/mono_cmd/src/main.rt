//! Gulfezo: reads clauses mixed with predicates over graphs whose edges are Boolean variables, solves and prints them, and
//! checks answers. `run` is the whole program, and `run_over` the whole process: `main` hands it the real words, files and output.
#![tactic(auto)]

/// The whole process, and what it exits with.
pub mod exit;
/// The words behind the program's name.
pub mod given;
/// The whole program.
pub mod run;
#[cfg(test)]
mod tests;
/// Rows that were worked by hand, as the definitions compute them.
#[cfg(test)]
pub mod worked;
/// What `solve` may answer, worked by hand.
#[cfg(test)]
pub mod worked_answers;
/// Bounds, and why they can't be asked for, worked by hand.
#[cfg(test)]
pub mod worked_bounds;
/// Assumptions, and what is found under them, worked by hand.
#[cfg(test)]
pub mod worked_cores;
/// What is promised of a whole run, worked by hand.
#[cfg(test)]
pub mod worked_counted;
/// The file of a command that reads FILE alone, worked by hand.
#[cfg(test)]
pub mod worked_ends;
/// Ends of ranges, and what a refusal and a number to exit with show, worked by hand.
#[cfg(test)]
pub mod worked_families;
/// Verdicts, refusals and what a process exits with, worked by hand.
#[cfg(test)]
pub mod worked_judged;
/// What a run comes to, worked by hand.
#[cfg(test)]
pub mod worked_orders;
/// What is written with a status, worked by hand.
#[cfg(test)]
pub mod worked_runs;
/// Want of memory, answers that are looked for and found, and the bytes of a text, worked by hand.
#[cfg(test)]
pub mod worked_stages;
/// What `team` answers and writes, worked by hand.
#[cfg(test)]
pub mod worked_teams;
/// What is written and behind what, and what answers are, worked by hand.
#[cfg(test)]
pub mod worked_written;

use exit::{Exit, run_over};
use given::SystemWords;
use mono_io::SystemFiles;
use std::io;

fn main(rt: HostRuntime) -> Exit {
    let words = SystemWords::new(&rt);
    let files = SystemFiles::new(&rt);
    let out = io::writer(&rt);
    run_over(rt.alloc(), &words, files, out).exit()
}
