ghost use Rattle.std.specs.Prelude.{◌≡◌, ◌<◌, ◌^◌, ◌∷◌, [], length, Some, OnOk, OnErr, IfOk, IfErr, string_bytes};
ghost use Rattle.linked_view.specs.OneProof.{IsSound-prop};
ghost use Rattle.message_view.specs.Sound.{IsSound};

use crate::error::SchemaError;
use descriptor_records::FileDescriptorProto;
use linked_view::pools_are_whole;
use protox_parse::parse;
use reflect_build::BuildFiles;
use reflect_bytes::PoolBytes;
use reflect_codec::decode_set;
use reflect_dynamic::{DecodeMessage, DynamicMessage, EncodeMessage};
use reflect_link::{DescriptorPool, MessageDescriptor};
use reflect_options::{OptionError, ResolveOptions, copy_typed_options, require_option_types};
use reflect_print::{FormatOptions, WriteError};
use std::alloc::Global;
use text_format::TextFormat;

/// The name under which the types of options are known.
const DESCRIPTOR_NAME: &str = "google/protobuf/descriptor.proto";

/// Protobuf files that fit together, and the messages of their types as text and as bytes.
pub struct Schema {
    alloc: Global,
    pool: DescriptorPool,
    /// Files come into the pool by linking alone, so its types are sound.
    pub ghost sound: { IsSound pool } by { IsSound-prop pool },
}

/// Taken apart here once: of a derived drop each crate that lets a schema go would prove anew how
/// its pool goes.
impl Drop for Schema {
    fn drop(self) {
        let Schema { alloc: _, pool: _ } = self;
    }
}

impl Schema {
    ghost use Rattle.reflect_pool.specs.FindsNames.{FindsMessage};
    ghost use Rattle.reflect_pool.specs.Linked.{empty_pool};
    ghost use Rattle.reflect_bytes.specs.Written.{pool_bytes};
    ghost use Rattle.option_parts.specs.OptionTypes.{ReadsOptions};
    ghost use Rattle.option_parts.specs.declared.option_scope.OptionScope.{OptionScope};
    ghost use Rattle.schema_core.specs.declared.error.SchemaError.TheVariants.{Memory};
    ghost use Rattle.schema_core.specs.Payloads.{IsReadOfType, Encoded, Decoded, Recoded};
    ghost use Rattle.schema_core.specs.Refusals.{TypeRefused, BytesRefused, TextRefused, DescriptorRefused, FilesLinked, FilesRefused, AreSmall, SourcesLinked, SourcesRefused, SetLinked, SetRefused, descriptor_name, sources_of};

    /// A schema without files. Takes no memory.
    pub fn bare(alloc: Global) -> Schema
        ensures { result.pool ≡ empty_pool }
    {
        Schema {
            alloc,
            pool: DescriptorPool::new(alloc),
        }
    }

    /// A schema of one source, which declares the types of options under the name
    /// `google/protobuf/descriptor.proto`.
    ///
    /// Refused as `add_sources` is, and as `Options` where not all of the nine types are there and
    /// can be read by.
    pub fn new(alloc: Global, descriptor_source: &str) -> Result<Schema, SchemaError>
        ensures types { IfOk result (λ s. (scope : OptionScope) → ReadsOptions s.pool scope) }
        ensures linked { IfOk result (λ s. SourcesLinked empty_pool
            ((descriptor_name, descriptor_source.now) ∷ []) s.pool) }
        ensures small { IfOk result (λ _. length descriptor_source.now < 2 ^ 31) }
        ensures err { IfErr result (DescriptorRefused
            ((descriptor_name, descriptor_source.now) ∷ [])) }
    {
        let mut schema = Schema::bare(alloc);
        schema.add_sources(&[(DESCRIPTOR_NAME, descriptor_source)])?;
        pools_are_whole(&schema.pool);
        match require_option_types(alloc, &schema.pool)? {
            Some(kind) => Err(SchemaError::from(OptionError::new(kind, None))),
            None => Ok(schema),
        }
    }

    /// The schema of a descriptor set's files. Refused as `add_descriptor_set` is.
    pub fn from_descriptor_set(alloc: Global, bytes: &[u8]) -> Result<Schema, SchemaError>
        ensures linked { IfOk result (λ s. SetLinked empty_pool bytes.now s.pool) }
        ensures err { IfErr result (SetRefused empty_pool bytes.now) }
    {
        let mut schema = Schema::bare(alloc);
        schema.add_descriptor_set(bytes)?;
        Ok(schema)
    }

    /// The linked files.
    pub fn pool(&self) -> &DescriptorPool
        ensures { result.now ≡ self.now.pool }
    {
        &self.pool
    }

    /// Adds protobuf sources, each a file's name and its text, as one batch.
    ///
    /// They are parsed in order, and the first that is refused ends it (`Parse`, with that file's
    /// name and the place of the first fault in its text). Those whose names the schema has are
    /// passed over; the others are linked with each other and with those that are there (`Link`,
    /// with all faults of the first pass that found one), and their options are read by the types
    /// that the schema has for them (`Options`, with the first fault). Any refusal leaves the
    /// schema as it was.
    pub fn add_sources(&mut self, sources: &[(&str, &str)]) -> Result<(), SchemaError>
        ensures unchanged { OnErr result (self.new.pool ≡ self.old.pool) }
        ensures linked { OnOk result (SourcesLinked self.old.pool (sources_of sources.now)
            self.new.pool) }
        ensures small { OnOk result (AreSmall (sources_of sources.now)) }
        ensures err { IfErr result (SourcesRefused self.old.pool (sources_of sources.now)) }
    {
        let mut files = Vec::new(self.alloc);
        for source in sources {
            files.push(parse(self.alloc, source.0, source.1)?)?;
        }
        self.add_batch(files)
    }

    /// Adds the files of a descriptor set, as protobuf's `FileDescriptorSet` is written, as one
    /// batch.
    ///
    /// `Wire` where the bytes are no set; else as `add_sources` does and refuses with files that
    /// are parsed. Any refusal leaves the schema as it was.
    pub fn add_descriptor_set(&mut self, bytes: &[u8]) -> Result<(), SchemaError>
        ensures unchanged { OnErr result (self.new.pool ≡ self.old.pool) }
        ensures linked { OnOk result (SetLinked self.old.pool bytes.now self.new.pool) }
        ensures err { IfErr result (SetRefused self.old.pool bytes.now) }
    {
        let set = decode_set(self.alloc, bytes)?;
        self.add_batch(set.file)
    }

    /// The descriptor set of all files, in the order in which they were added, with their options
    /// settled.
    ///
    /// Refused for want of memory alone.
    pub fn to_descriptor_set(&self) -> Result<Vec<u8>, SchemaError>
        ensures ok { IfOk result (λ bytes. bytes.items ≡ pool_bytes self.now.pool) }
        ensures err { IfErr result (λ e. e ≡ Memory) }
    {
        Ok(self.pool.encode_to_vec(self.alloc)?)
    }

    /// Links files and settles their options. Any refusal leaves the pool as it was.
    fn add_batch(&mut self, mut files: Vec<FileDescriptorProto>) -> Result<(), SchemaError>
        ensures unchanged { OnErr result (self.new.pool ≡ self.old.pool) }
        ensures linked { OnOk result (FilesLinked self.old.pool files.items self.new.pool) }
        ensures err { IfErr result (FilesRefused self.old.pool files.items) }
    {
        copy_typed_options(&mut files);
        let mark = self.pool.mark();
        self.pool.build_files(self.alloc, files)?;
        pools_are_whole(&self.pool);
        let settled = self.pool.resolve_options(self.alloc, mark);
        if settled.is_err() {
            self.pool.cut(mark);
        }
        Ok(settled?)
    }

    /// The message type of a name.
    fn message_type(&self, type_name: &str) -> Result<MessageDescriptor<'_>, SchemaError>
        ensures pool { IfOk result (λ d. d.pool.now ≡ self.now.pool) }
        ensures ok { IfOk result (λ d. FindsMessage self.now.pool type_name.now (Some d)) }
        ensures err { IfErr result (TypeRefused self.now.pool type_name.now) }
    {
        match self.pool.get_message_by_name(type_name) {
            Some(descriptor) => Ok(descriptor),
            None => {
                let name = String::from_str(self.alloc, type_name)?;
                Err(SchemaError::UnknownType(name))
            }
        }
    }

    /// The message of a type that wire bytes spell.
    fn read(&self, type_name: &str, bytes: &[u8]) -> Result<DynamicMessage<'_>, SchemaError>
        ensures ok { IfOk result (IsReadOfType self.now.pool type_name.now bytes.now) }
        ensures err { IfErr result (BytesRefused self.now.pool type_name.now bytes.now) }
    {
        let descriptor = self.message_type(type_name)?;
        Ok(DynamicMessage::decode(self.alloc, descriptor, bytes)?)
    }

    /// The wire bytes of the message of a type that a text spells. The type's full name may have
    /// one leading dot.
    ///
    /// `UnknownType` where there is no such type, `Text` with the first fault of the text.
    pub fn encode(&self, type_name: &str, text: &str) -> Result<Vec<u8>, SchemaError>
        ensures ok { IfOk result
            (λ written. Encoded self.now.pool type_name.now text.now written.items) }
        ensures err { IfErr result (TextRefused self.now.pool type_name.now text.now) }
    {
        let descriptor = self.message_type(type_name)?;
        let message = DynamicMessage::parse_text_format(self.alloc, descriptor, text)?;
        Ok(message.encode_to_vec()?)
    }

    /// The compact text of the message of a type that wire bytes spell. The type's full name may
    /// have one leading dot.
    ///
    /// `UnknownType` where there is no such type, `Wire` where the bytes are no message of it.
    pub fn decode(&self, type_name: &str, bytes: &[u8]) -> Result<String, SchemaError>
        ensures ok { IfOk result
            (λ text. Decoded self.now.pool type_name.now bytes.now (string_bytes text)) }
        ensures err { IfErr result (BytesRefused self.now.pool type_name.now bytes.now) }
    {
        let message = self.read(type_name, bytes)?;
        let options = FormatOptions::new().expand_any(false);
        match message.to_text_format_with_options(self.alloc, &options) {
            Ok(text) => Ok(text),
            Err(WriteError::Format | WriteError::Memory) => Err(SchemaError::Memory),
        }
    }

    /// The one form in which the message of a type is written that wire bytes spell: declared
    /// fields by ascending number, then the records of undeclared fields by ascending number. The
    /// type's full name may have one leading dot.
    ///
    /// Refused as `decode` is.
    pub fn recode(&self, type_name: &str, bytes: &[u8]) -> Result<Vec<u8>, SchemaError>
        ensures ok { IfOk result (λ written. Recoded self.now.pool type_name.now bytes.now
            written.items) }
        ensures err { IfErr result (BytesRefused self.now.pool type_name.now bytes.now) }
    {
        Ok(self.read(type_name, bytes)?.encode_to_vec()?)
    }
}
