//! The files that a run reads.

ghost use Rattle.std.specs.List.{zip};
ghost use Rattle.std.specs.Prelude.{◌≡◌, ℕ, List, map, IfErr, IfOk, IsUtf8, OnOk, Some};
ghost use Rattle.run_parts.specs.Reads.{IsToldAs, ReadsEach, RefusesSources, Reply};
ghost use Rattle.run_parts.specs.Refusals.{AreTexts, RefusesOne, RefusesText};
ghost use Rattle.run_parts.specs.Statuses.{status_of};
ghost use Rattle.run_parts.specs.Texts.{said};
ghost use Rattle.run_parts.specs.declared.files.FileFault.TheVariants as files;
ghost use Rattle.run_parts.specs.declared.files.ReadFault.{ReadFault};

use schema_words::Request;
use std::alloc::{AllocError, AllocFailed, Global};
use std::fmt;

/// Why a file was not read.
#[derive(Clone, Copy, PartialEq, Eq, Debug)]
pub enum ReadFault {
    /// It is not there, or cannot be read.
    Read,
    /// Want of memory.
    Memory,
}

/// The files that a run may read.
pub trait SourceFiles {
    /// What a read at a path may answer, and what the files are after it: anything, where it is not
    /// told.
    ghost read_gives: { Self → List ℕ → Reply → Self → Type 0 } = { λ _ _ _ _. Unit {0} };

    /// The bytes of the file at a path.
    fn read(&mut self, alloc: Global, path: &str) -> Result<Vec<u8>, ReadFault>
        ensures ok { IfOk result (λ bytes.
            read_gives self.old path.now (Ok bytes.items) self.new) }
        ensures err { IfErr result (λ e. read_gives self.old path.now (Err e) self.new) };
}

/// Why a run has not what it reads of files.
#[derive(Drop)]
pub enum FileFault {
    /// The file at this path cannot be read.
    Read(String),
    /// The source of this name, or the file at this path, is not UTF-8.
    NotUtf8(String),
    /// Want of memory.
    Memory,
}

impl FileFault {
    /// The status that the program ends with.
    pub fn status(&self) -> u8
        ensures { result ≡ status_of self.now }
    {
        match self {
            FileFault::NotUtf8(_) => 1,
            FileFault::Read(_) => 4,
            FileFault::Memory => 5,
        }
    }
}

impl fmt::Display for FileFault {
    ghost output = { λ f. Some (said f) };

    fn fmt<W: fmt::Write>(&self, f: &mut fmt::Formatter<W>) -> fmt::Result {
        match self {
            FileFault::Read(path) => write!(f, "'{path}' cannot be read"),
            FileFault::NotUtf8(name) => write!(f, "'{name}' is not UTF-8"),
            FileFault::Memory => f.write_str("out of memory"),
        }
    }
}

impl From<AllocError> for FileFault {
    ghost from_gives = { λ _ f. f ≡ files.Memory };

    fn from(_error: AllocError) -> FileFault {
        FileFault::Memory
    }
}

impl<T: Drop> From<AllocFailed<T>> for FileFault {
    ghost from_gives = { λ _ f. f ≡ files.Memory };

    fn from(_error: AllocFailed<T>) -> FileFault {
        FileFault::Memory
    }
}

/// The bytes of the file at a path.
pub fn read_file<F: SourceFiles>(
    alloc: Global,
    files: &mut F,
    path: &str,
) -> Result<Vec<u8>, FileFault>
    ensures read { IfOk result (λ bytes.
        F.read_gives files.old path.now (Ok bytes.items) files.new) }
    ensures refused { IfErr result (λ e. (r : ReadFault)
        × F.read_gives files.old path.now (Err r) files.new × IsToldAs path.now r e) }
{
    match files.read(alloc, path) {
        Ok(bytes) => Ok(bytes),
        Err(ReadFault::Read) => Err(FileFault::Read(String::from_str(alloc, path)?)),
        Err(ReadFault::Memory) => Err(FileFault::Memory),
    }
}

/// The bytes of the named files under the root, in order.
pub fn read_sources<F: SourceFiles>(
    alloc: Global,
    files: &mut F,
    wanted: Request<'_>,
) -> Result<Vec<Vec<u8>>, FileFault>
    ensures read { IfOk result (λ contents. ReadsEach F.read_gives wanted.entry.root.now
        (map (λ n. n.now) wanted.entry.names.now) (map (λ c. c.items) contents.items)
        files.old files.new) }
    ensures refused { IfErr result (λ e. RefusesSources F.read_gives wanted.entry.root.now
        (map (λ n. n.now) wanted.entry.names.now) files.old e files.new) }
{
    let mut contents = Vec::new(alloc);
    'names: for name in wanted.names {
        let root = wanted.root;
        let path = format!(in alloc; "{root}/{name}")?;
        contents.push(read_file(alloc, files, path.as_str())?)?;
    }
    Ok(contents)
}

/// The text that the bytes of a file are, which a refusal calls by the name.
pub fn text_of<'a>(alloc: Global, name: &str, bytes: &'a [u8]) -> Result<&'a str, FileFault>
    ensures text { IfOk result (λ text. (text.now ≡ bytes.now) × IsUtf8 bytes.now) }
    ensures refused { IfErr result (RefusesText bytes.now name.now) }
{
    match str::from_utf8(bytes) {
        Ok(text) => Ok(text),
        Err(_) => Err(FileFault::NotUtf8(String::from_str(alloc, name)?)),
    }
}

/// The named sources with their texts.
pub fn sources<'a>(
    alloc: Global,
    names: &'a [&'a str],
    contents: &'a [Vec<u8>],
) -> Result<Vec<(&'a str, &'a str)>, FileFault>
    ensures texts { IfOk result (λ all. map (λ s. (s.0.now, s.1.now)) all.items
        ≡ zip (map (λ n. n.now) names.now) (map (λ c. c.items) contents.now)) }
    ensures utf8 { OnOk result (AreTexts
        (zip (map (λ n. n.now) names.now) (map (λ c. c.items) contents.now))) }
    ensures refused { IfErr result (RefusesOne
        (zip (map (λ n. n.now) names.now) (map (λ c. c.items) contents.now))) }
{
    let mut sources = Vec::new(alloc);
    'named: for (name, bytes) in names.iter().zip(contents) {
        sources.push((*name, text_of(alloc, name, bytes.as_slice())?))?;
    }
    Ok(sources)
}
