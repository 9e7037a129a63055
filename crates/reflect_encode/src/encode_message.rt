ghost use Rattle.std.specs.Prelude.{◌≡◌, ◌<◌, ◌^◌, ◌++◌, length, IfOk, IfErr, OnOk, OnErr, SomeIff};
ghost use Rattle.reflect_wire.specs.declared.wire_error.WireError.TheVariants.{Memory};
ghost use Rattle.reflect_codec.specs.Held.{held};
ghost use Rattle.reflect_message.specs.Bytes.{message_bytes};

use crate::encode::put_message;
use crate::lengths::message_len;
use reflect_codec::Backward;
use reflect_message::{DynamicMessage, MessageParts};
use reflect_wire::WireError;

/// Messages that are written as wire bytes (protobuf.dev, "Encoding").
pub trait EncodeMessage {
    ghost use Rattle.reflect_message.specs.Names.{DynamicMessage};

    /// The message that it is.
    ghost message: { Self → DynamicMessage };

    /// How many bytes `encode` adds, `None` past `usize::MAX`. Takes no memory.
    fn encoded_len(&self) -> Option<usize>
        ensures { let n = length (message_bytes (message self.now)) in SomeIff result
            (n < 2 ^ 64) n };

    /// Adds the message's wire bytes to `out`: declared fields by ascending number, then extensions
    /// and other records by ascending number. What comes of a value that does not suit its field
    /// need not be read again.
    ///
    /// Refused for want of memory alone, which leaves `out`.
    fn encode(&self, out: &mut Vec<u8>) -> Result<(), WireError>
        ensures ok { OnOk result (out.new.items ≡ out.old.items
            ++ message_bytes (message self.now)) }
        ensures err { IfErr result (λ e. e ≡ Memory) }
        ensures left { OnErr result (out.new.items ≡ out.old.items) };

    /// The message's wire bytes. Refused as `encode` is.
    fn encode_to_vec(&self) -> Result<Vec<u8>, WireError>
        ensures ok { IfOk result (λ bytes. bytes.items ≡ message_bytes (message self.now)) }
        ensures err { IfErr result (λ e. e ≡ Memory) };
}

impl EncodeMessage for DynamicMessage<'_> {
    ghost message = { λ m. m };

    fn encoded_len(&self) -> Option<usize> {
        message_len(self)
    }

    fn encode(&self, out: &mut Vec<u8>) -> Result<(), WireError> {
        written(self)?.append_to(out)
    }

    fn encode_to_vec(&self) -> Result<Vec<u8>, WireError> {
        Ok(written(self)?.into_bytes())
    }
}

/// The message's wire bytes, as they are put.
fn written(message: &DynamicMessage<'_>) -> Result<Backward, WireError>
    ensures ok { IfOk result (λ written. held written ≡ message_bytes message.now) }
    ensures err { IfErr result (λ e. e ≡ Memory) }
{
    let mut written = Backward::new(message.allocator());
    put_message(&mut written, message)?;
    Ok(written)
}
