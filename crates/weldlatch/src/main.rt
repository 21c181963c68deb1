// The program weldlatch. Everything that matters is in the libraries; here words become calls, and answers become text.
#![tactic(auto)]

mod arguments;
mod card;
mod failure;
mod files;
mod film_files;
mod levels;
mod make;
mod order;
mod progress;
mod reader;
mod report;
mod scheme;
mod show;
mod text;
mod usage;

use failure::Failure;
use std::env;
use std::process::ExitCode;

fn print_usage(rt: &HostRuntime) -> Result<(), Failure> {
    println!(rt; "{}", usage::TEXT)?;
    Ok(())
}

fn run(rt: &HostRuntime) -> Result<(), Failure> {
    let words: Vec<String> = env::args(rt)?.skip(1).collect(rt.alloc())?;
    let Some((command, rest)) = words.split_first() else {
        return print_usage(rt);
    };
    match command.as_str() {
        "card" => card::run(rt, rest),
        "help" => print_usage(rt),
        "levels" => levels::run(rt, rest),
        "make" => make::run(rt, rest),
        "order" => order::run(rt, rest),
        "scheme" => scheme::run(rt, rest),
        "show" => show::run(rt, rest),
        _ => Err(Failure::Usage),
    }
}

// A failure goes to standard error, and ends the program with status 1.
fn main(rt: HostRuntime) -> ExitCode {
    match run(&rt) {
        Ok(()) => ExitCode::SUCCESS,
        Err(failure) => {
            let _ = eprintln!(rt; "{failure}");
            ExitCode::FAILURE
        }
    }
}
