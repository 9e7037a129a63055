//! The schema for C: `include/matzupol.h` declares these calls, and says what a caller owes.
//!
//! Each answers the number of how it ended, 0 for done. No pointer may be null: the header's calls
//! of the same names without `unchecked` test that.
#![tactic(auto)]

ghost use Rattle.std.specs.Prelude.{◌≡◌, None};
ghost use Rattle.schema_slot.specs.Calls.{AddsSet, Copied, Copies, Decodes, Encodes, Forgets, GivesSet, Links, On, Opens, Places, Recodes, Waits, length_in};
ghost use Rattle.schema_slot.specs.Held.{answer, file_text};

use schema_slot::{Code, Place, Session, Slot};
use std::alloc::Global;

/// A schema without files in the slot. One that was there is closed.
#[unsafe(no_mangle)]
pub extern "C" fn matzupol_unchecked_open(slot: &mut Slot, alloc: Global) -> u32
    ensures { Opens result slot.new.value }
{
    slot.close(alloc);
    match Box::new(alloc, Session::new(alloc)) {
        Ok(session) => {
            slot.put(session, alloc);
            Code::Done.number()
        }
        Err(_) => Code::Memory.number(),
    }
}

/// Ends what the slot holds, whose memory is freed. A closed slot stays closed.
#[unsafe(no_mangle)]
pub extern "C" fn matzupol_unchecked_close(slot: &mut Slot, alloc: Global)
    ensures { slot.new.value ≡ None }
{
    slot.close(alloc);
}

/// Keeps a source, by its file's name and its text, for `link`.
#[unsafe(no_mangle)]
pub extern "C" fn matzupol_unchecked_source(
    slot: &mut Slot,
    alloc: Global,
    name: &[u8],
    text: &[u8],
) -> u32
    ensures { On (Waits name.now text.now) slot.old.value result slot.new.value }
{
    let Some(mut session) = slot.take(alloc) else {
        return Code::Closed.number();
    };
    let code = session.source(name, text);
    slot.put(session, alloc);
    code.number()
}

/// Links the sources that were kept with the schema's files, as one batch.
#[unsafe(no_mangle)]
pub extern "C" fn matzupol_unchecked_link(slot: &mut Slot, alloc: Global) -> u32
    ensures { On Links slot.old.value result slot.new.value }
{
    let Some(mut session) = slot.take(alloc) else {
        return Code::Closed.number();
    };
    let code = session.link();
    slot.put(session, alloc);
    code.number()
}

/// Lets go of the sources that were kept.
#[unsafe(no_mangle)]
pub extern "C" fn matzupol_unchecked_forget(slot: &mut Slot, alloc: Global) -> u32
    ensures { On Forgets slot.old.value result slot.new.value }
{
    let Some(mut session) = slot.take(alloc) else {
        return Code::Closed.number();
    };
    let code = session.forget();
    slot.put(session, alloc);
    code.number()
}

/// Links the files of a descriptor set with the schema's, as one batch.
#[unsafe(no_mangle)]
pub extern "C" fn matzupol_unchecked_add_set(slot: &mut Slot, alloc: Global, set: &[u8]) -> u32
    ensures { On (AddsSet set.now) slot.old.value result slot.new.value }
{
    let Some(mut session) = slot.take(alloc) else {
        return Code::Closed.number();
    };
    let code = session.add_set(set);
    slot.put(session, alloc);
    code.number()
}

/// Answers the descriptor set of the schema's files.
#[unsafe(no_mangle)]
pub extern "C" fn matzupol_unchecked_set(slot: &mut Slot, alloc: Global) -> u32
    ensures { On GivesSet slot.old.value result slot.new.value }
{
    let Some(mut session) = slot.take(alloc) else {
        return Code::Closed.number();
    };
    let code = session.set();
    slot.put(session, alloc);
    code.number()
}

/// Answers the wire bytes of the message of a type that a text spells.
#[unsafe(no_mangle)]
pub extern "C" fn matzupol_unchecked_encode(
    slot: &mut Slot,
    alloc: Global,
    type_name: &[u8],
    text: &[u8],
) -> u32
    ensures { On (Encodes type_name.now text.now) slot.old.value result slot.new.value }
{
    let Some(mut session) = slot.take(alloc) else {
        return Code::Closed.number();
    };
    let code = session.encode(type_name, text);
    slot.put(session, alloc);
    code.number()
}

/// Answers the compact text of the message of a type that wire bytes spell.
#[unsafe(no_mangle)]
pub extern "C" fn matzupol_unchecked_decode(
    slot: &mut Slot,
    alloc: Global,
    type_name: &[u8],
    bytes: &[u8],
) -> u32
    ensures { On (Decodes type_name.now bytes.now) slot.old.value result slot.new.value }
{
    let Some(mut session) = slot.take(alloc) else {
        return Code::Closed.number();
    };
    let code = session.decode(type_name, bytes);
    slot.put(session, alloc);
    code.number()
}

/// Answers the one form of the message of a type that wire bytes spell.
#[unsafe(no_mangle)]
pub extern "C" fn matzupol_unchecked_recode(
    slot: &mut Slot,
    alloc: Global,
    type_name: &[u8],
    bytes: &[u8],
) -> u32
    ensures { On (Recodes type_name.now bytes.now) slot.old.value result slot.new.value }
{
    let Some(mut session) = slot.take(alloc) else {
        return Code::Closed.number();
    };
    let code = session.recode(type_name, bytes);
    slot.put(session, alloc);
    code.number()
}

/// How long the answer is, or the text of why the last call was refused.
#[unsafe(no_mangle)]
pub extern "C" fn matzupol_unchecked_answer_len(slot: &mut Slot, alloc: Global) -> usize
    ensures len { result ≡ length_in answer slot.old.value }
    ensures kept { slot.new.value ≡ slot.old.value }
{
    let Some(session) = slot.take(alloc) else {
        return 0;
    };
    let len = session.answer().len();
    slot.put(session, alloc);
    len
}

/// Copies the answer, or the text of why the last call was refused, to the front of a buffer.
#[unsafe(no_mangle)]
pub extern "C" fn matzupol_unchecked_answer(slot: &mut Slot, alloc: Global, into: &mut [u8]) -> u32
    ensures copied { Copies answer slot.old.value result into.old into.new }
    ensures kept { slot.new.value ≡ slot.old.value }
{
    let Some(session) = slot.take(alloc) else {
        return Code::Closed.number();
    };
    let code = copy(session.answer(), into);
    slot.put(session, alloc);
    code.number()
}

/// How long the name of the file is in which the fault stands for which the last call was refused;
/// 0 where it is not known.
#[unsafe(no_mangle)]
pub extern "C" fn matzupol_unchecked_file_len(slot: &mut Slot, alloc: Global) -> usize
    ensures len { result ≡ length_in file_text slot.old.value }
    ensures kept { slot.new.value ≡ slot.old.value }
{
    let Some(session) = slot.take(alloc) else {
        return 0;
    };
    let len = session.file().unwrap_or("").len();
    slot.put(session, alloc);
    len
}

/// Copies that name to the front of a buffer.
#[unsafe(no_mangle)]
pub extern "C" fn matzupol_unchecked_file(slot: &mut Slot, alloc: Global, into: &mut [u8]) -> u32
    ensures copied { Copies file_text slot.old.value result into.old into.new }
    ensures kept { slot.new.value ≡ slot.old.value }
{
    let Some(session) = slot.take(alloc) else {
        return Code::Closed.number();
    };
    let code = copy(session.file().unwrap_or("").as_bytes(), into);
    slot.put(session, alloc);
    code.number()
}

/// Tells the line and the column at which that fault begins, both from 1; 0 where they are not
/// known.
#[unsafe(no_mangle)]
pub extern "C" fn matzupol_unchecked_place(slot: &mut Slot, alloc: Global, place: &mut Place) -> u32
    ensures told { Places slot.old.value result (place.old.line, place.old.column)
        (place.new.line, place.new.column) }
    ensures kept { slot.new.value ≡ slot.old.value }
{
    let Some(session) = slot.take(alloc) else {
        return Code::Closed.number();
    };
    let (line, column) = session.position().unwrap_or((0, 0));
    *place = Place { line, column };
    slot.put(session, alloc);
    Code::Done.number()
}

/// Copies a text to the front of a buffer, where it fits.
fn copy(text: &[u8], into: &mut [u8]) -> Code
    ensures { Copied text.now result into.old into.new }
{
    if text.len() > into.len() {
        return Code::Room;
    }
    into[..text.len()].copy_from_slice(text);
    Code::Done
}
