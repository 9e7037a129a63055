//! Files of cases, a line of JSON for each: they are replayed in their order, and what does not
//! hold is printed, and how many of each kind do.

use crate::members::text;
use serde_json::Value;
use std::alloc::{AllocError, Global};
use std::collections::BTreeMap;
use std::io::ErrorKind;
use std::{env, fs, io};

/// What replays the cases of a file.
pub trait Replays: Drop {
    /// Nothing is replayed yet.
    fn new(alloc: Global) -> Self;

    /// What is wrong with a case, empty where it holds.
    fn difference(&mut self, case: &Value) -> Result<String, AllocError>;
}

/// How many cases of a kind there are, and how many of them hold.
#[derive(Clone, Copy)]
struct Count {
    all: u32,
    held: u32,
}

/// Counts a case of a kind.
fn add_case(
    alloc: Global,
    counts: &mut BTreeMap<String, Count>,
    kind: &str,
    holds: bool,
) -> Result<(), AllocError> {
    let before = counts
        .get(kind)
        .copied()
        .unwrap_or(Count { all: 0, held: 0 });
    let count = Count {
        all: before.all.saturating_add(1),
        held: before.held.saturating_add(u32::from(holds)),
    };
    counts.insert(String::from_str(alloc, kind)?, count)?;
    Ok(())
}

/// Replays a line: counts it, and says what is wrong with it.
fn replayed<R: Replays>(
    alloc: Global,
    replay: &mut R,
    counts: &mut BTreeMap<String, Count>,
    line: &str,
) -> Result<String, AllocError> {
    let Ok(case) = Value::from_str(alloc, line) else {
        return String::from_str(alloc, "no JSON ");
    };
    let difference = replay.difference(&case)?;
    add_case(alloc, counts, text(&case, "op"), difference.is_empty())?;
    Ok(difference)
}

/// Prints how many cases of each kind hold.
fn print_counts(rt: &HostRuntime, counts: &BTreeMap<String, Count>) -> io::Result<()> {
    for (kind, count) in counts {
        println!(rt; "{kind}: {} of {} hold", count.held, count.all)?;
    }
    Ok(())
}

/// Replays the cases of a text, and prints what does not hold and the counts.
fn replay_all<R: Replays>(rt: &HostRuntime, cases: &str) -> io::Result<bool> {
    let alloc = rt.alloc();
    let mut replay = R::new(alloc);
    let mut counts: BTreeMap<String, Count> = BTreeMap::new(alloc);
    let mut all_held = true;
    for line in cases.lines() {
        let difference = replayed(alloc, &mut replay, &mut counts, line)?;
        if !difference.is_empty() {
            all_held = false;
            println!(rt; "{difference}in {line}")?;
        }
    }
    print_counts(rt, &counts)?;
    Ok(all_held)
}

/// Replays the cases of the files that the program's words name, each file with a replay of its
/// own. Prints the name of each file, the cases that do not hold with what is wrong with them, and
/// how many of each kind hold; true where all do.
///
/// A file that is no text is refused as invalid data.
pub fn replay_files<R: Replays>(rt: &HostRuntime) -> io::Result<bool> {
    let paths: Vec<String> = env::args(rt)?.skip(1).collect(rt.alloc())?;
    let mut all_held = true;
    for path in &paths {
        let bytes = fs::read(rt, path.as_str())?;
        let Ok(cases) = str::from_utf8(bytes.as_slice()) else {
            return Err(io::Error::from(ErrorKind::InvalidData));
        };
        println!(rt; "{path}")?;
        all_held = replay_all::<R>(rt, cases)? && all_held;
    }
    Ok(all_held)
}
