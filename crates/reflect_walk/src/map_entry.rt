ghost use Rattle.std.specs.Prelude.{◌≡◌};
ghost use Rattle.reflect_walk.specs.MapEntries.{says_entry};
ghost use Rattle.reflect_declarations.specs.Tree.{parts_of};

use descriptor_records::DescriptorProto;

/// The message type says that it is the type of a map's entries.
pub fn says_map_entry(message: &DescriptorProto) -> bool
    ensures { result ≡ says_entry (parts_of message.now).options }
{
    match &message.options {
        Some(options) => options.map_entry.unwrap_or(false),
        None => false,
    }
}
