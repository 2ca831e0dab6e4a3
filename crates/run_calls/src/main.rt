//! Makes the runs of a script, and prints what each answers. A case is a line with its kind and settings, each a name
//! and a value, behind it the lines of its input, and then the line `end`. Between cases a line that begins with `#`
//! is printed as it is. A `run` is that of commands under a `limit` of values and short blobs, or, with `config standard`,
//! under the program's configuration, and ends with the fault that stopped it; a line of its input that begins with `/` ends
//! one run, and the next goes on with the volume as it is (`/again`), with what a crash may leave of its logs
//! (`/crash NAME START END ..`), with a log that begins later, as a prune of it alone leaves it (`/start NAME PLACE`), or with
//! a log of other items (`/put NAME ITEM ..`). Of `failing`, the run is made again with each call of the volume failing in
//! turn, and what is left is opened, and so is each image that a crash may leave of it; a `main` is the top call with its
//! `words`, and ends with its status. Of `lines` each is an input of its own, and so of `hex`, where each is told by its
//! bytes. A `config` is that of its settings, or why these are refused.
#![tactic(auto)]

mod between;
mod configs;
mod error;
mod failing;
mod images;
mod inputs;
mod settings;
mod top_call;
mod volume;
mod whole_run;

use crate::configs::print_config;
use crate::error::ScriptError;
use crate::failing::print_failing;
use crate::inputs::{print_hex, print_lines};
use crate::settings::kind;
use crate::top_call::print_main;
use crate::whole_run::print_run;
use std::alloc::Global;

/// Prints what a case answers.
fn print_case(rt: &impl Print, alloc: Global, head: &str, input: &str) -> Result<(), ScriptError> {
    match kind(head) {
        "run" => print_run(rt, alloc, head, input),
        "failing" => print_failing(rt, alloc, head, input),
        "main" => print_main(rt, alloc, head, input),
        "config" => print_config(rt, alloc, head),
        "lines" => print_lines(rt, alloc, input),
        "hex" => print_hex(rt, alloc, input),
        _ => Err(ScriptError::Script),
    }
}

/// A case of which some lines were read.
#[derive(Drop)]
struct Begun {
    head: String,
    input: String,
}

impl Begun {
    fn new(alloc: Global) -> Self {
        Begun {
            head: String::new(alloc),
            input: String::new(alloc),
        }
    }

    /// Takes the next line, and says whether the case ends with it.
    fn ends_with(&mut self, line: &str) -> Result<bool, ScriptError> {
        if self.head.is_empty() {
            self.head.push_str(line)?;
            return Ok(false);
        }
        if line == "end" {
            return Ok(true);
        }
        self.input.push_str(line)?;
        self.input.push('\n')?;
        Ok(false)
    }
}

fn main(rt: HostRuntime) -> Result<(), ScriptError> {
    let alloc = rt.alloc();
    let mut case = Begun::new(alloc);
    for line in rt.lines(alloc) {
        let line = line?;
        if case.head.is_empty() && line.as_str().starts_with('#') {
            println!(rt; "{line}")?;
        } else if case.ends_with(line.as_str())? {
            print_case(&rt, alloc, case.head.as_str(), case.input.as_str())?;
            case = Begun::new(alloc);
        }
    }
    Ok(())
}
