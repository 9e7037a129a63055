//! What an open slot holds, and what calls do with it.

ghost use Rattle.std.specs.Prelude.{◌≡◌, [], ◌++◌, ◌∷◌, None, IfErr, OnOk, OnErr, map, option_map};
ghost use Rattle.reflect_pool.specs.Linked.{empty_pool};
ghost use Rattle.schema_core.specs.Refusals.{SourcesLinked, SourcesRefused};
ghost use Rattle.schema_slot.specs.Calls.{AddsSet, Decodes, Encodes, Forgets, GivesSet, Links, Recodes, TellsRefusal, Waits, place_in};
ghost use Rattle.schema_core.specs.Places.{told_position};
ghost use Rattle.schema_slot.specs.Held.{IsFaultless, KeepsSession, answer, file, pair_of, pool, position, waiting};
ghost use Rattle.schema_slot.specs.declared.code.Code.TheVariants as code;

use crate::code::Code;
use crate::source::{Source, lent};
use schema_core::{Schema, SchemaError};
use std::alloc::{AllocError, Global};
use std::mem;

/// A place in a source or a text: line and column, both from 1 and the column in bytes; 0 where it
/// is not known.
#[repr(C)]
#[derive(Clone, Copy, Drop)]
pub struct Place {
    pub line: usize,
    pub column: usize,
}

/// A schema, the sources that wait to be linked, and what the last call answered or was refused
/// for.
pub struct Session {
    alloc: Global,
    schema: Schema,
    waiting: Vec<Source>,
    /// The answer, or the text of the refusal.
    answer: Vec<u8>,
    fault: Option<SchemaError>,
    /// Where the fault stands: in the file, or in the text that was refused.
    place: Option<(usize, usize)>,
}

/// Taken apart here once: of a derived drop each call that owns a session would prove anew how its
/// refusal goes.
impl Drop for Session {
    fn drop(self) {
        let Session {
            alloc: _,
            schema: _,
            waiting: _,
            answer: _,
            fault: _,
            place: _,
        } = self;
    }
}

impl Session {
    /// A schema without files, for which no source waits. Takes no memory.
    pub fn new(alloc: Global) -> Session
        ensures bare { pool result ≡ empty_pool }
        ensures none { waiting result ≡ [] }
        ensures unasked { (answer result ≡ []) × IsFaultless result }
    {
        Session {
            alloc,
            schema: Schema::bare(alloc),
            waiting: Vec::new(alloc),
            answer: Vec::new(alloc),
            fault: None,
            place: None,
        }
    }

    /// Keeps what a call answers.
    fn done(&mut self, bytes: Vec<u8>) -> Code
        ensures code { result ≡ code.Done }
        ensures kept { KeepsSession self.old self.new }
        ensures answered { (answer self.new ≡ bytes.items) × IsFaultless self.new }
    {
        self.answer = bytes;
        self.fault = None;
        self.place = None;
        Code::Done
    }

    /// Keeps why a call was refused, and where that stands in a file.
    fn refused(&mut self, error: SchemaError) -> Code
        ensures kept { KeepsSession self.old self.new }
        ensures told { TellsRefusal told_position error result self.new }
    {
        let place = error.position();
        self.refused_at(error, place)
    }

    /// Keeps why a call was refused, where that stands, and its text as the answer: none where
    /// memory runs out for it.
    fn refused_at(&mut self, error: SchemaError, place: Option<(usize, usize)>) -> Code
        ensures kept { KeepsSession self.old self.new }
        ensures told { TellsRefusal (λ _. place) error result self.new }
    {
        self.answer = match format!(in self.alloc; "{error}") {
            Ok(text) => text.into_bytes(),
            Err(_) => Vec::new(self.alloc),
        };
        let code = Code::of(&error);
        self.fault = Some(error);
        self.place = place;
        code
    }

    /// Something was not UTF-8.
    fn unread(&mut self) -> Code
        ensures code { result ≡ code.NotUtf8 }
        ensures kept { KeepsSession self.old self.new }
        ensures answered { (answer self.new ≡ []) × IsFaultless self.new }
    {
        self.answer = Vec::new(self.alloc);
        self.fault = None;
        self.place = None;
        Code::NotUtf8
    }

    /// Keeps a source, by its file's name and its text, until `link`.
    ///
    /// `NotUtf8` where one of them is none, `Memory`; a refusal keeps nothing.
    pub fn source(&mut self, name: &[u8], text: &[u8]) -> Code
        ensures { Waits name.now text.now self.old result self.new }
    {
        let (Ok(name), Ok(text)) = (str::from_utf8(name), str::from_utf8(text)) else {
            return self.unread();
        };
        match self.wait(name, text) {
            Ok(()) => self.done(Vec::new(self.alloc)),
            Err(_) => self.refused(SchemaError::Memory),
        }
    }

    /// A source waits behind the others.
    fn wait(&mut self, name: &str, text: &str) -> Result<(), AllocError>
        ensures schema { pool self.new ≡ pool self.old }
        ensures ok { OnOk result (waiting self.new ≡ waiting self.old ++ (name.now, text.now)
            ∷ []) }
        ensures err { OnErr result (waiting self.new ≡ waiting self.old) }
    {
        let source = Source::new(self.alloc, name, text)?;
        self.waiting.push(source)?;
        Ok(())
    }

    /// Links the sources that wait with each other and with the schema's files, as one batch. None
    /// waits then.
    ///
    /// Refused as `Schema::add_sources` is, which leaves the schema.
    pub fn link(&mut self) -> Code
        ensures { Links self.old result self.new }
    {
        let sources = mem::replace(&mut self.waiting, Vec::new(self.alloc));
        match add(self.alloc, &mut self.schema, &sources) {
            Ok(()) => self.done(Vec::new(self.alloc)),
            Err(error) => self.refused(error),
        }
    }

    /// Lets go of the sources that wait.
    pub fn forget(&mut self) -> Code
        ensures { Forgets self.old result self.new }
    {
        self.waiting = Vec::new(self.alloc);
        self.done(Vec::new(self.alloc))
    }

    /// Links the files of a descriptor set with the schema's, as one batch.
    ///
    /// Refused as `Schema::add_descriptor_set` is, which leaves the schema.
    pub fn add_set(&mut self, bytes: &[u8]) -> Code
        ensures { AddsSet bytes.now self.old result self.new }
    {
        match self.schema.add_descriptor_set(bytes) {
            Ok(()) => self.done(Vec::new(self.alloc)),
            Err(error) => self.refused(error),
        }
    }

    /// The descriptor set of the schema's files. Refused for want of memory alone.
    pub fn set(&mut self) -> Code
        ensures { GivesSet self.old result self.new }
    {
        match self.schema.to_descriptor_set() {
            Ok(bytes) => self.done(bytes),
            Err(error) => self.refused(error),
        }
    }

    /// The wire bytes of the message of a type that a text spells.
    ///
    /// `NotUtf8` where the type's name or the text is none; else refused as `Schema::encode` is: a
    /// text then has the place of its fault.
    pub fn encode(&mut self, type_name: &[u8], text: &[u8]) -> Code
        ensures { Encodes type_name.now text.now self.old result self.new }
    {
        let (Ok(type_name), Ok(text)) = (str::from_utf8(type_name), str::from_utf8(text)) else {
            return self.unread();
        };
        match self.schema.encode(type_name, text) {
            Ok(bytes) => self.done(bytes),
            Err(error) => {
                let place = place_in(text, &error);
                self.refused_at(error, place)
            }
        }
    }

    /// The compact text of the message of a type that wire bytes spell.
    ///
    /// `NotUtf8` where the type's name is none; else refused as `Schema::decode` is.
    pub fn decode(&mut self, type_name: &[u8], bytes: &[u8]) -> Code
        ensures { Decodes type_name.now bytes.now self.old result self.new }
    {
        let Ok(type_name) = str::from_utf8(type_name) else {
            return self.unread();
        };
        match self.schema.decode(type_name, bytes) {
            Ok(text) => self.done(text.into_bytes()),
            Err(error) => self.refused(error),
        }
    }

    /// The one form of the message of a type that wire bytes spell.
    ///
    /// `NotUtf8` where the type's name is none; else refused as `Schema::recode` is.
    pub fn recode(&mut self, type_name: &[u8], bytes: &[u8]) -> Code
        ensures { Recodes type_name.now bytes.now self.old result self.new }
    {
        let Ok(type_name) = str::from_utf8(type_name) else {
            return self.unread();
        };
        match self.schema.recode(type_name, bytes) {
            Ok(bytes) => self.done(bytes),
            Err(error) => self.refused(error),
        }
    }

    /// What the last call answered, or the text of why it was refused.
    pub fn answer(&self) -> &[u8]
        ensures { result.now ≡ answer self.now }
    {
        self.answer.as_slice()
    }

    /// The file in which the fault stands for which the last call was refused, where it is known.
    pub fn file(&self) -> Option<&str>
        ensures { option_map (λ f. f.now) result ≡ file self.now }
    {
        self.fault.as_ref()?.file()
    }

    /// The place there, or of a text that was refused in this text.
    pub fn position(&self) -> Option<(usize, usize)>
        ensures { result ≡ position self.now }
    {
        self.place
    }
}

/// Where a refusal stands: of a text in this text, of anything else in its file.
fn place_in(text: &str, error: &SchemaError) -> Option<(usize, usize)>
    ensures { result ≡ place_in text.now error.now }
{
    match error {
        SchemaError::Text(fault) => fault.position(text),
        _ => error.position(),
    }
}

/// Links sources with the files of a schema, as one batch. A refusal leaves the schema.
fn add(alloc: Global, schema: &mut Schema, sources: &Vec<Source>) -> Result<(), SchemaError>
    ensures ok { OnOk result (SourcesLinked schema.old.pool (map pair_of sources.now.items)
        schema.new.pool) }
    ensures err { IfErr result (SourcesRefused schema.old.pool (map pair_of sources.now.items)) }
    ensures unchanged { OnErr result (schema.new.pool ≡ schema.old.pool) }
{
    let pairs = lent(alloc, sources)?;
    schema.add_sources(pairs.as_slice())
}
