//! Labels, and which of them are in contact.

ghost use Rattle.std.specs.Prelude.{◌≡◌, ℕ, [], OnOk};
ghost use Rattle.outer_components.specs.Contacts.{AddsContact, HasNoContacts};

use sp_ids::{Id, OutOfMemory};
use std::alloc::Global;
use std::marker::Model;

/// What stands for no label, and for no number.
pub const NONE: u32 = u32::MAX;

/// How many labels were given, which are the numbers below that, and which pairs of them came into
/// contact: the first and the second of each pair.
#[derive(Drop)]
pub struct Contacts {
    pub count: u32,
    pub firsts: Vec<u32>,
    pub seconds: Vec<u32>,
}

impl Contacts {
    /// No labels, and no contacts. Takes no memory.
    pub fn new(alloc: Global) -> Contacts
        ensures count { result.count ≡ 0 }
        ensures empty { HasNoContacts result }
    {
        Contacts {
            count: 0,
            firsts: Vec::new(alloc),
            seconds: Vec::new(alloc),
        }
    }

    /// One contact more.
    #[inline(always)]
    pub fn add(&mut self, first: u32, second: u32) -> Result<(), OutOfMemory>
        ensures { OnOk result (AddsContact self.old first second self.new) }
    {
        self.firsts.push(first)?;
        self.seconds.push(second)?;
        Ok(())
    }

    /// So many labels, and no contacts.
    pub fn restart(&mut self, count: u32)
        ensures count { self.new.count ≡ count }
        ensures empty { HasNoContacts self.new }
    {
        self.count = count;
        self.firsts.clear();
        self.seconds.clear();
    }
}

/// A contact, by its place on the list.
#[derive(Clone, Copy)]
pub struct Contact(u32);

impl Model for Contact {
    ghost Value = { ℕ };

    ghost view = { λ c. c.0 };

    ghost inverse = { λ n. record { 0 = n } };
}

impl Id for Contact {
    ghost number = { λ c. c };

    fn number(self) -> u32 {
        self.0
    }

    fn of(at: u32) -> Contact {
        Contact(at)
    }
}
