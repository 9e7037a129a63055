//! The program `schema`, over any files and any streams.

ghost use Rattle.std.specs.Prelude.{◌≡◌, ◌⊎◌, IfErr, IfOk, OnOk, Some, map, option_map};
ghost use Rattle.reflect_bytes.specs.Written.{pool_bytes};
ghost use Rattle.reflect_schema.specs.Ends.{Ends, IsAnswered, IsRefused};
ghost use Rattle.reflect_schema.specs.Runs.{AddsSet, AddsSources, Begins, MakesSchema, source_names};
ghost use Rattle.reflect_schema.specs.Runs.{RefusesFirst, RefusesNamed, RefusesSchema, RefusesSet};
ghost use Rattle.reflect_schema.specs.Statuses.{status_of};
ghost use Rattle.reflect_schema.specs.Texts.{said};
ghost use Rattle.reflect_schema.specs.declared.program.RunFault.TheVariants as run;
ghost use Rattle.run_parts.specs.Streams.{Gets, between};
ghost use Rattle.schema_core.specs.Serving.{shown};
ghost use Rattle.schema_core.specs.declared.error.SchemaError.TheVariants.{Memory};
ghost use Rattle.schema_core.specs.declared.payload.Fault.TheVariants as fault;

use run_parts::{
    FileFault, SourceFiles, read_file, read_sources, sources, tell_untyped, tell_usage, text_of,
    write_line,
};
use schema_core::{Fault, Schema, SchemaError, serve, write_bytes};
use schema_words::{Request, Task, parse, requested};
use std::alloc::Global;
use std::fmt;
use std::io::{Read, Write};

/// Why a request has no answer.
#[derive(Drop)]
pub enum RunFault {
    /// A file cannot be read, or is no text.
    File(FileFault),
    /// The files make no schema.
    Schema(SchemaError),
    /// The input is refused, or it or the output is at fault.
    Payload(Fault),
}

impl RunFault {
    /// The status that the program ends with.
    pub fn status(&self) -> u8
        ensures { result ≡ status_of self.now }
    {
        match self {
            RunFault::File(fault) => fault.status(),
            RunFault::Schema(SchemaError::Memory) => 5,
            RunFault::Schema(_) => 1,
            RunFault::Payload(Fault::Schema(_) | Fault::NotHex | Fault::NotUtf8) => 3,
            RunFault::Payload(Fault::Read | Fault::Write) => 4,
            RunFault::Payload(Fault::Memory) => 5,
        }
    }
}

impl fmt::Display for RunFault {
    ghost output = { λ f. Some (said f) };

    fn fmt<W: fmt::Write>(&self, f: &mut fmt::Formatter<W>) -> fmt::Result {
        match self {
            RunFault::File(fault) => write!(f, "{fault}"),
            RunFault::Schema(error) => write!(f, "{error}"),
            RunFault::Payload(fault) => write!(f, "{fault}"),
        }
    }
}

impl From<FileFault> for RunFault {
    ghost from_gives = { λ fault e. e ≡ run.File fault };

    fn from(fault: FileFault) -> RunFault {
        RunFault::File(fault)
    }
}

impl From<SchemaError> for RunFault {
    ghost from_gives = { λ error e. e ≡ run.Schema error };

    fn from(error: SchemaError) -> RunFault {
        RunFault::Schema(error)
    }
}

impl From<Fault> for RunFault {
    ghost from_gives = { λ fault e. e ≡ run.Payload fault };

    fn from(fault: Fault) -> RunFault {
        RunFault::Payload(fault)
    }
}

/// The schema of the file that declares the types of options, or one without files.
fn first_schema<F: SourceFiles>(
    alloc: Global,
    files: &mut F,
    descriptor: Option<&str>,
) -> Result<Schema, RunFault>
    ensures begins { IfOk result (λ s. Begins F.read_gives
        (option_map (λ path. path.now) descriptor.entry) files.old s.pool files.new) }
    ensures refused { IfErr result (λ e. RefusesFirst F.read_gives
        (option_map (λ path. path.now) descriptor.entry) files.old e files.new) }
{
    let Some(path) = descriptor else {
        return Ok(Schema::bare(alloc));
    };
    let bytes = read_file(alloc, files, path)?;
    let text = text_of(alloc, path, bytes.as_slice())?;
    Ok(Schema::new(alloc, text)?)
}

/// Adds the descriptor set at the path, where there is one.
fn add_set<F: SourceFiles>(
    alloc: Global,
    files: &mut F,
    set: Option<&str>,
    schema: &mut Schema,
) -> Result<(), RunFault>
    ensures added { OnOk result (AddsSet F.read_gives (option_map (λ path. path.now) set.entry)
        files.old schema.old.pool files.new schema.new.pool) }
    ensures refused { IfErr result (λ e. RefusesSet F.read_gives
        (option_map (λ path. path.now) set.entry) files.old schema.old.pool e files.new) }
{
    let Some(path) = set else {
        return Ok(());
    };
    let bytes = read_file(alloc, files, path)?;
    Ok(schema.add_descriptor_set(bytes.as_slice())?)
}

/// Adds the named sources.
fn add_named<F: SourceFiles>(
    alloc: Global,
    files: &mut F,
    wanted: Request<'_>,
    schema: &mut Schema,
) -> Result<(), RunFault>
    ensures added { OnOk result (AddsSources F.read_gives wanted.entry.root.now
        (source_names wanted.entry) files.old schema.old.pool files.new schema.new.pool) }
    ensures refused { IfErr result (λ e. RefusesNamed F.read_gives wanted.entry.root.now
        (source_names wanted.entry) files.old schema.old.pool e files.new) }
{
    let contents = read_sources(alloc, files, wanted)?;
    let sources = sources(alloc, wanted.names, contents.as_slice())?;
    Ok(schema.add_sources(sources.as_slice())?)
}

/// The schema of the files that are asked for: first what declares the types of options, then the
/// set, then the sources.
fn read_schema<F: SourceFiles>(
    alloc: Global,
    files: &mut F,
    wanted: Request<'_>,
) -> Result<Schema, RunFault>
    ensures made { IfOk result (λ s. MakesSchema F.read_gives wanted.entry files.old s.pool
        files.new) }
    ensures refused { IfErr result (λ e. RefusesSchema F.read_gives wanted.entry files.old e
        files.new) }
{
    let mut schema = first_schema(alloc, files, wanted.descriptor)?;
    add_set(alloc, files, wanted.set, &mut schema)?;
    add_named(alloc, files, wanted, &mut schema)?;
    Ok(schema)
}

/// Writes the schema's descriptor set.
fn write_set<W: Write>(
    alloc: Global,
    schema: &Schema,
    is_hex: bool,
    output: &mut W,
) -> Result<(), RunFault>
    ensures written { OnOk result (Gets (between W.contents output.old output.new)
        (shown is_hex (pool_bytes schema.now.pool))) }
    ensures refused { IfErr result (λ e. (e ≡ run.Payload fault.Write)
        ⊎ (((e ≡ run.Schema Memory) ⊎ (e ≡ run.Payload fault.Memory))
        × (output.new ≡ output.old))) }
{
    let bytes = schema.to_descriptor_set()?;
    Ok(write_bytes(alloc, is_hex, bytes.as_slice(), output)?)
}

/// Does what a request asks for: makes the schema of its files, and writes its set, or reads
/// `input` whole and writes what it is translated to.
///
/// `File` where a file cannot be read or is no text, `Schema` where the files make no schema; then
/// no input is read. `Payload` where the input is refused, or it or the output is at fault. What
/// the schema is refused for comes before what the input is refused for. Before a `Write` fault a
/// part of the answer may be written; before any other, nothing is.
pub fn answer<F: SourceFiles, R: Read, W: Write>(
    alloc: Global,
    wanted: Request<'_>,
    files: &mut F,
    input: &mut R,
    output: &mut W,
) -> Result<(), RunFault>
    ensures done { OnOk result (IsAnswered F.read_gives wanted.entry
        (record {
          before = files.old;
          behind = files.new;
          input = between R.remaining input.old input.new;
          output = between W.contents output.old output.new;
        })) }
    ensures refused { IfErr result (IsRefused F.read_gives wanted.entry
        (record {
          before = files.old;
          behind = files.new;
          input = between R.remaining input.old input.new;
          output = between W.contents output.old output.new;
        })) }
{
    let schema = read_schema(alloc, files, wanted)?;
    let is_hex = wanted.is_hex;
    match wanted.task {
        Task::Set => write_set(alloc, &schema, is_hex, output),
        Task::Payload(action, type_name) => {
            serve(alloc, &schema, action, type_name, is_hex, input, output)?;
            Ok(())
        }
    }
}

/// Runs the program `schema` on its words, without its own name, and gives the status that it ends
/// with.
///
/// 0: answered, or help was asked for. 1: the schema is refused, or a source is not UTF-8. 2: the
/// command line is refused. 3: the payload is refused. 4: a file, the input or the output cannot be
/// read or written. 5: memory ran out. Where the words ask for nothing that can be done, no file is
/// read, nor any input. What is refused is told in a line to `errors`, of which a beginning is
/// written where memory runs out for it or `errors` refuses more; nothing else is written there.
pub fn run<F: SourceFiles, R: Read, W: Write, E: Write>(
    alloc: Global,
    words: &[&str],
    files: &mut F,
    input: &mut R,
    output: &mut W,
    errors: &mut E,
) -> u8
    ensures { Ends F.read_gives (map (λ word. word.now) words.now)
        (record {
          work = record {
            before = files.old;
            behind = files.new;
            input = between R.remaining input.old input.new;
            output = between W.contents output.old output.new;
          };
          errors = between E.contents errors.old errors.new;
        }) result }
{
    let matches = match parse(alloc, words) {
        Ok(matches) => matches,
        Err(error) => return tell_usage(alloc, error, output, errors),
    };
    let Some(wanted) = requested(&matches) else {
        return tell_untyped(alloc, words, errors);
    };
    match answer(alloc, wanted, files, input, output) {
        Ok(()) => 0,
        Err(fault) => {
            let status = fault.status();
            let _ = write_line(alloc, errors, fault);
            status
        }
    }
}
