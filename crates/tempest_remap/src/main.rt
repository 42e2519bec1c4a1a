//! The program: it hands its words, the files and the two outputs of the machine to `run`.
#![tactic(auto)]

use remap_io::{HostFiles, HostSink};
use std::io::ErrorKind;
use std::process::ExitCode;
use std::{env, io};
use tempest_top::run;

// Ends of the program where its words can't be collected.
const NO_MEMORY: u8 = 13;

const NO_WORDS: u8 = 14;

fn main(rt: HostRuntime) -> ExitCode {
    let args = match env::args(&rt) {
        Ok(args) => args,
        Err(error) => {
            return ExitCode::from(if error.kind() == ErrorKind::OutOfMemory {
                NO_MEMORY
            } else {
                NO_WORDS
            });
        }
    };
    let Ok(words) = args.skip(1).collect::<Vec<String>>(rt.alloc()) else {
        return ExitCode::from(NO_MEMORY);
    };
    let stdout = rt.stdout();
    let stderr = rt.stderr();
    let mut files = HostFiles::new(rt);
    let mut out = HostSink::new(io::writer(&stdout));
    let mut err = HostSink::new(io::writer(&stderr));
    let status = run(&rt, rt.alloc(), &words, &mut files, &mut out, &mut err);
    ExitCode::from(status.code())
}
