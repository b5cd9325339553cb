//! `workbench`: runs a part of this repository on netlists from files, so that the scripts in `bench/` can measure it
//! beside other tools. It prints what came out, and times nothing itself.
#![tactic(auto)]

mod asking;
mod claiming;
mod hunting;
mod netlist;
mod simulating;

use anyhow::{Result, bail};
use net_core::Graphs;
use std::process::ExitCode;
use std::rt::{Env, Files};
use std::{env, io};

/// The status where the words ask for nothing.
const USAGE: u8 = 2;

fn main(rt: HostRuntime) -> Result<ExitCode> {
    let words = words_after_name(&rt)?;
    run(&rt, words.as_slice())
}

/// The words of the command line after the program's name.
fn words_after_name<R: Env + AllocGlobal>(rt: &R) -> io::Result<Vec<String>> {
    Ok(env::args(rt)?.skip(1).collect(rt.alloc())?)
}

/// Does what the words ask for.
fn run<R: Print + Files + AllocGlobal>(rt: &R, words: &[String]) -> Result<ExitCode> {
    match words {
        [command, first, second, output, value, budget] if command.as_str() == "ask" => {
            let (first, second) = netlist::read_pair(rt, first.as_str(), second.as_str())?;
            let value = bit(value.as_str())?;
            let graphs = Graphs::new(&first, &second);
            asking::run(rt, &graphs, output.parse()?, value, budget.parse()?)?;
        }
        [command, file, words, rounds] if command.as_str() == "simulate" => {
            let graph = netlist::read(rt, file.as_str())?;
            simulating::run(rt, &graph, words.parse()?, rounds.parse()?)?;
        }
        [command, file, rounds] if command.as_str() == "claims" => {
            let graph = netlist::read(rt, file.as_str())?;
            claiming::run(rt, &graph, rounds.parse()?)?;
        }
        [command, file, rounds] if command.as_str() == "hunt" => {
            let graph = netlist::read(rt, file.as_str())?;
            hunting::run(rt, &graph, rounds.parse()?)?;
        }
        _ => {
            print_usage(rt)?;
            return Ok(ExitCode::from(USAGE));
        }
    }
    Ok(ExitCode::SUCCESS)
}

/// The bit that a word is.
fn bit(word: &str) -> Result<bool> {
    match word {
        "0" => Ok(false),
        "1" => Ok(true),
        _ => bail!("a value is 0 or 1"),
    }
}

fn print_usage<R: Print>(rt: &R) -> io::Result<()> {
    println!(rt; "usage: workbench ask FIRST SECOND OUTPUT VALUE BUDGET")?;
    println!(rt; "       workbench claims FILE ROUNDS")?;
    println!(rt; "       workbench simulate FILE WORDS ROUNDS")?;
    println!(rt; "       workbench hunt FILE ROUNDS")
}
