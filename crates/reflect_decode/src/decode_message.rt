ghost use Rattle.std.specs.Prelude.{◌≡◌, IfErr, IfOk, OnOk, OnErr};
ghost use Rattle.reflect_message.specs.Contents.{content_of};
ghost use Rattle.reflect_copies.specs.InOrder.{IsInOrder};
ghost use Rattle.reflect_message.specs.Oneofs.{IsExclusive};
ghost use Rattle.reflect_decode.specs.Spelled.{IsSpelled, IsMerged, TellsWhy};
ghost use Rattle.reflect_decode.specs.Suits.{Suits};

use crate::decode::merge_body;
use reflect_copies::CloneMessage;
use reflect_message::{DynamicMessage, MessageParts};
use reflect_pool::MessageDescriptor;
use reflect_wire::{MAX_LEVELS, WireError};
use std::alloc::Global;

/// Messages that are read from wire bytes (protobuf.dev, "Encoding").
pub trait DecodeMessage<'p>: Sized {
    ghost use Rattle.reflect_message.specs.Names.{DynamicMessage};

    /// The message that it is.
    ghost message: { Self → DynamicMessage };

    /// The message of the type that the bytes spell (protobuf.dev, "Encoding").
    ///
    /// Refused where the bytes are no list of records, where a declared field has another wire type
    /// than its kind, where a string is no UTF-8 and where more than 100 levels of messages and
    /// groups nest.
    fn decode(
        alloc: Global,
        descriptor: MessageDescriptor<'p>,
        bytes: &[u8],
    ) -> Result<Self, WireError>
        ensures same_type { IfOk result (λ m. (message m).descriptor ≡ descriptor.entry) }
        ensures read { IfOk result (λ m. IsSpelled descriptor.entry bytes.now (message m)) }
        ensures exclusive { IfOk result (λ m. IsExclusive (message m)) }
        ensures in_order { IfOk result (λ m. IsInOrder (message m)) }
        ensures fault { IfErr result (TellsWhy descriptor.entry bytes.now) };

    /// Takes in the records that the bytes spell behind those that the message stands for: numbers
    /// and texts are replaced, lists are continued, messages merged.
    ///
    /// Refused as `decode` is; the message is then unchanged.
    fn merge(&mut self, bytes: &[u8]) -> Result<(), WireError>
        ensures type_stays { (message self.new).descriptor ≡ (message self.old).descriptor }
        ensures read { OnOk result (IsMerged (message self.old).descriptor bytes.now
            (message self.old)
            (message self.new)) }
        ensures exclusive { IsExclusive (message self.old) → IsExclusive (message self.new) }
        ensures in_order { OnOk result (IsInOrder (message self.new)) }
        ensures err { OnErr result (self.new ≡ self.old) }
        ensures fault { Suits 100 (message self.old).descriptor (content_of (message self.old))
            → IfErr result (TellsWhy (message self.old).descriptor bytes.now) };
}

impl<'p> DecodeMessage<'p> for DynamicMessage<'p> {
    ghost message = { λ m. m };

    fn decode(
        alloc: Global,
        descriptor: MessageDescriptor<'p>,
        bytes: &[u8],
    ) -> Result<DynamicMessage<'p>, WireError> {
        let mut message = DynamicMessage::new(alloc, descriptor);
        merge_body(&mut message, alloc, bytes, None, MAX_LEVELS)?;
        Ok(message)
    }

    fn merge(&mut self, bytes: &[u8]) -> Result<(), WireError> {
        let mut merged = self.clone()?;
        merge_body(&mut merged, self.allocator(), bytes, None, MAX_LEVELS)?;
        *self = merged;
        Ok(())
    }
}
