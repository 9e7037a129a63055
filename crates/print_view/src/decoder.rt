//! The function that decodes the bytes of a google.protobuf.Any, which the laws of expansions ask
//! for.
ghost use Rattle.std.specs.Prelude.{Option};
ghost use Rattle.protox_lex.specs.Class.{Text};
ghost use Rattle.reflect_pool.specs.declared.message.MessageDescriptor.{MessageDescriptor};
ghost use Rattle.protobuf_model.specs.Types.{Name};
ghost use Rattle.protobuf_model.specs.Values.{Message};
ghost use Rattle.message_view.specs.Sound.{IsSound};
ghost use Rattle.print_view.specs.Expansions.{DecodesIn};

/// Of the types of a sound pool there is a function that decodes bytes as `decode` does.
pub fn pools_have_a_decoder()
    ensures { (d : MessageDescriptor) → IsSound d.pool.now
        → (decoded : Name → Text → Option Message) × DecodesIn d.pool.now decoded }
{}
