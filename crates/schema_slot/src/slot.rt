//! A session behind a struct of C's.

ghost use Rattle.std.specs.Prelude.{◌≡◌, Option, Some, None};
ghost use Rattle.std.specs.Coded.{codes};
ghost use Rattle.schema_slot.specs.Slot.{slot_owns, loosened, unboxed};
ghost use Rattle.schema_slot.specs.contracts.session.Session.{the_row};
ghost use Rattle.schema_slot.specs.declared.session.Session.{Session};

use crate::loose::Loose;
use crate::session::Session;
use std::alloc::Global;
use std::marker::Model;
use std::mem::replace;
use std::ptr::null_mut;

/// What C holds of a session: its pointer, and whether there is one. Zeroed memory is an empty
/// slot.
///
/// It has no `Drop`, since C lets it go as it likes: `close` or `finish` ends what it holds.
#[repr(C)]
pub struct Slot {
    at: *mut u8,
    full: bool,
    pub ghost value: { Option Session } by { Prim.hlevel (codes, the_row.coded) },
}

impl Model for Slot {
    ghost also_owns = { λ s. slot_owns s.full s.at s.value };
}

impl Slot {
    /// A slot that holds nothing.
    pub fn empty() -> Slot
        ensures { result.value ≡ None }
    {
        Slot {
            at: null_mut(),
            full: false,
        }
    }

    fn of_loose(session: Loose<Session, Global>) -> Slot
        ensures { result.value ≡ Some session.value }
    {
        let Loose { at, alloc: _ } = session;
        Slot {
            at: at as *mut u8,
            full: true,
        }
    }

    fn into_loose(self, alloc: Global) -> Option<Loose<Session, Global>>
        ensures { loosened result ≡ self.value }
    {
        let Slot { at, full } = self;
        if full {
            Some(Loose {
                at: at as *mut Session,
                alloc,
            })
        } else {
            None
        }
    }

    /// Takes what the slot holds, which leaves it empty. Takes no memory.
    pub fn take(&mut self, alloc: Global) -> Option<Box<Session>>
        ensures taken { unboxed result ≡ self.old.value }
        ensures empty { self.new.value ≡ None }
    {
        match replace(self, Slot::empty()).into_loose(alloc) {
            Some(loose) => Some(loose.into_box()),
            None => None,
        }
    }

    /// Puts a session into the slot; one that was there is closed. Takes no memory.
    pub fn put(&mut self, session: Box<Session>, alloc: Global)
        ensures { self.new.value ≡ Some session.value }
    {
        replace(self, Slot::of_loose(Loose::of(session))).finish(alloc);
    }

    /// Ends the slot, with what it holds.
    pub fn finish(self, alloc: Global) {
        match self.into_loose(alloc) {
            Some(loose) => drop(loose.into_box()),
            None => {}
        }
    }

    /// Ends what the slot holds, which leaves it empty.
    pub fn close(&mut self, alloc: Global)
        ensures { self.new.value ≡ None }
    {
        drop(self.take(alloc));
    }
}
