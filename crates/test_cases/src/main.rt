//! A program that replays cases: each line of the files that it is given is a case, and it prints
//! those that do not hold and how many of each kind do. Then it prints what comes of the jobs of
//! callers.
//!
//! Answers are worked by hand from the published documentation of the language, the encoding and
//! the text format, or come from `protoc`, from Python's protobuf or from an independent model.
//! docs/TESTS.md says what each file asserts.
#![tactic(auto)]

mod runs;
mod streams;

use runs::tell_run;
use serde_json::Value;
use std::alloc::{AllocError, Global};
use std::io;
use std::process::ExitCode;
use test_json::members::text;
use test_json::{Replays, Told, replay_files};

/// The cases of a file, which has schemas, pools and a `descriptor.proto` of its own.
#[derive(Drop)]
struct Cases {
    alloc: Global,
    of_schemas: test_schema_cases::Replay,
    of_calls: test_calls::Replay,
}

impl Cases {
    /// What is wrong with a case that says under `expect` what has to come.
    fn difference_told(&mut self, case: &Value) -> Result<String, AllocError> {
        let Some(wanted) = case.get("expect") else {
            return String::from_str(self.alloc, "nothing is wanted ");
        };
        let mut told = Told::new(self.alloc, wanted);
        match text(case, "op") {
            "run" => tell_run(self.alloc, case, &mut told),
            _ => self.of_schemas.run(case, &mut told),
        }
        told.into_difference()
    }
}

impl Replays for Cases {
    fn new(alloc: Global) -> Cases {
        Cases {
            alloc,
            of_schemas: test_schema_cases::Replay::new(alloc),
            of_calls: test_calls::Replay::new(alloc),
        }
    }

    fn difference(&mut self, case: &Value) -> Result<String, AllocError> {
        match text(case, "op") {
            "pool" | "type" | "message" | "value" | "values" | "key" => {
                self.of_calls.difference(case)
            }
            _ => self.difference_told(case),
        }
    }
}

/// Replays the cases of the files that the words name, and does the jobs of callers.
fn status(rt: &HostRuntime) -> io::Result<u8> {
    let all_hold = replay_files::<Cases>(rt)?;
    test_callers::tell_all(rt)?;
    Ok(if all_hold { 0 } else { 1 })
}

fn main(rt: HostRuntime) -> ExitCode {
    match status(&rt) {
        Ok(status) => ExitCode::from(status),
        Err(_) => ExitCode::from(4),
    }
}
