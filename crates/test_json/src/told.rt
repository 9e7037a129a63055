//! What comes of a case, beside what is wanted.

use crate::text::Text;
use serde_json::Value;
use std::alloc::{AllocError, Global};
use std::fmt::Display;

/// What is wanted of a case, member by member, and the differences of what came.
///
/// Each member that is wanted has to come, as the same text. What comes under a name that is not
/// asked for is passed over. Want of memory is told when the differences are taken.
#[derive(Drop)]
pub struct Told<'c> {
    alloc: Global,
    wanted: &'c Value,
    met: usize,
    difference: Text,
}

impl<'c> Told<'c> {
    /// Nothing has come yet of what the members of an object say.
    pub fn new(alloc: Global, wanted: &'c Value) -> Told<'c> {
        Told {
            alloc,
            wanted,
            met: 0,
            difference: Text::new(alloc),
        }
    }

    /// The text that is wanted under a name.
    fn wanted_text(&self, name: &'static str) -> Option<&'c str> {
        self.wanted.get(name).and_then(Value::as_str)
    }

    /// Whether something is wanted under the name.
    pub fn asks(&self, name: &'static str) -> bool {
        self.wanted.get(name).is_some()
    }

    /// Says that there was no room.
    pub fn give_up(&mut self) {
        self.difference.give_up();
    }

    /// Takes what came under a name, which comes once.
    pub fn tell(&mut self, name: &'static str, came: impl Display + Drop) {
        if let Some(wanted) = self.wanted_text(name) {
            self.met = self.met.saturating_add(1);
            match format!(in self.alloc; "{came}") {
                Ok(came) => self.compare(name, came.as_str(), wanted),
                Err(_) => self.give_up(),
            }
        }
    }

    /// Notes where another text came than is wanted.
    fn compare(&mut self, name: &'static str, came: &str, wanted: &str) {
        if came != wanted {
            let difference = &mut self.difference;
            write!(difference, "{name}: {came} instead of {wanted}; ");
        }
    }

    /// Takes a text that came under a name.
    pub fn tell_text(&mut self, name: &'static str, came: Text) {
        match came.into_string() {
            Ok(came) => self.tell(name, came.as_str()),
            Err(_) => self.give_up(),
        }
    }

    /// Takes bytes that came under a name, which are wanted as hex text.
    pub fn tell_bytes(&mut self, name: &'static str, came: &[u8]) {
        if self.asks(name) {
            match hex::encode(self.alloc, came) {
                Ok(came) => self.tell(name, came.as_str()),
                Err(_) => self.give_up(),
            }
        }
    }

    /// What is wrong with what came, empty where all that is wanted came.
    pub fn into_difference(self) -> Result<String, AllocError> {
        let Told {
            alloc: _,
            wanted,
            met,
            mut difference,
        } = self;
        if wanted.as_object().map_or(0, |members| members.len()) != met {
            write!(difference, "{met} members came ");
        }
        difference.into_string()
    }
}
