//! Runs commands over both databases of a folder, and writes the replies.
#![tactic(auto)]

use host_edge::{FolderVolume, StdSink, StdSource};
use std::env;
use std::io::ErrorKind;
use std::process::ExitCode;
use twin_run::{Status, folder_of, twins_main};

/// Runs the program over standard input and output and the folder that the words name, and says how it ends.
fn run_program(rt: &HostRuntime) -> Status {
    let alloc = rt.alloc();
    let args = match env::args(rt) {
        Ok(args) => args,
        Err(e) if e.kind() == ErrorKind::OutOfMemory => return Status::Memory,
        Err(_) => return Status::BadWords,
    };
    let Ok(words) = args.skip(1).collect::<Vec<String>>(alloc) else {
        return Status::Memory;
    };
    let Ok(files) = rt.clone() else {
        return Status::Memory;
    };
    // No file is touched before the first call of the volume.
    let Ok(mut volume) = FolderVolume::new(files, alloc, folder_of(&words)) else {
        return Status::Memory;
    };
    let mut input = StdSource::new(rt.stdin());
    let mut output = StdSink::new(rt.stdout());
    twins_main(alloc, &words, &mut input, &mut output, &mut volume)
}

fn main(rt: HostRuntime) -> ExitCode {
    let status = run_program(&rt);
    if status != Status::Done {
        // The code says it too, where standard error can't be written.
        let _ = eprintln!(rt; "{status}");
    }
    ExitCode::from(status.code())
}
