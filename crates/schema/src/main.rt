//! The program `schema`: protobuf messages between text and wire bytes, by sources that are read as
//! it runs.
#![tactic(auto)]

use reflect_schema::{ReadFault, SourceFiles, run};
use std::alloc::Global;
use std::io::ErrorKind;
use std::process::ExitCode;
use std::rt::Files;
use std::{env, fs, io};

/// The files of the system.
#[derive(Drop)]
struct Disk<'a, R: Files + AllocGlobal> {
    rt: &'a R,
}

impl<'a, R: Files + AllocGlobal> SourceFiles for Disk<'a, R> {
    fn read(&mut self, _alloc: Global, path: &str) -> Result<Vec<u8>, ReadFault> {
        match fs::read(self.rt, path) {
            Ok(bytes) => Ok(bytes),
            Err(error) if error.kind() == ErrorKind::OutOfMemory => Err(ReadFault::Memory),
            Err(_) => Err(ReadFault::Read),
        }
    }
}

/// Runs the program on the process's words and streams.
fn status(rt: &HostRuntime) -> io::Result<u8> {
    let alloc = rt.alloc();
    let words: Vec<String> = env::args(rt)?.skip(1).collect(alloc)?;
    let mut lent: Vec<&str> = Vec::new(alloc);
    for word in &words {
        lent.push(word.as_str())?;
    }
    let mut files = Disk { rt };
    Ok(run(
        alloc,
        lent.as_slice(),
        &mut files,
        &mut rt.stdin(),
        &mut rt.stdout(),
        &mut rt.stderr(),
    ))
}

fn main(rt: HostRuntime) -> ExitCode {
    match status(&rt) {
        Ok(status) => ExitCode::from(status),
        Err(_) => ExitCode::from(5),
    }
}
