//! When each meter of a list was asked, and when it was heard.

ghost use Rattle.std.specs.Prelude.{◌≡◌, IfOk, replicate, slice_set};
ghost use Rattle.fw_plan.specs.Silence.{no_contact};
ghost use Rattle.fw_rollout.specs.Contacts.{asked_in, contact_in, contacts_of, heard_in, seconds_of};

use crate::timing::SECOND;
use fw_plan::Contact;
use std::alloc::{AllocError, Global};

/// The seconds of a time in microseconds.
pub(crate) fn seconds_of(time: u64) -> u64
    ensures { result ≡ seconds_of time }
{
    time / SECOND
}

/// A contact for each meter of a list, at its place.
#[derive(Drop)]
pub(crate) struct Contacts {
    items: Vec<Contact>,
}

impl Contacts {
    /// Those of so many meters that were never asked.
    pub(crate) fn new(alloc: Global, count: usize) -> Result<Contacts, AllocError>
        ensures { IfOk result (λ contacts. contacts_of contacts ≡ replicate count no_contact) }
    {
        let mut items = Vec::new(alloc);
        items.resize(count, Contact::NONE)?;
        Ok(Contacts { items })
    }

    /// That of the meter at this place.
    pub(crate) fn at(&self, place: usize) -> Contact
        ensures { result ≡ contact_in (contacts_of self.now) place }
    {
        match self.items.get(place) {
            Some(contact) => *contact,
            None => Contact::NONE,
        }
    }

    /// The meter at this place is asked at this time, in microseconds.
    pub(crate) fn asked(&mut self, place: usize, now: u64)
        ensures { contacts_of self.new ≡ asked_in place (seconds_of now) (contacts_of self.old) }
    {
        let contact = self.at(place).asked_at(seconds_of(now));
        self.set(place, contact);
    }

    /// Something is heard of it at this time.
    pub(crate) fn heard(&mut self, place: usize, now: u64)
        ensures { contacts_of self.new ≡ heard_in place (seconds_of now) (contacts_of self.old) }
    {
        let contact = self.at(place).heard_at(seconds_of(now));
        self.set(place, contact);
    }

    /// The contact of the meter at this place is this one now.
    fn set(&mut self, place: usize, contact: Contact)
        ensures { contacts_of self.new ≡ slice_set (contacts_of self.old) place contact }
    {
        if let Some(at) = self.items.get_mut(place) {
            *at = contact;
        }
    }
}
