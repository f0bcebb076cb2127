//! The records of one type in a section.
ghost use Rattle.std.specs.Prelude.{◌≡◌, ⊤};

use crate::message::{Record, Records};
use octseq::AsOctets;
use octseq_dns_data::Rtype;
use std::alloc::AllocError;

/// An iterator over the records of one type in a section, in their order.
#[derive(Debug)]
pub struct RecordsOfType<R: AsOctets> {
    records: Records<R>,
    rtype: Rtype,
}

impl<R: AsOctets + Copy> Copy for RecordsOfType<R> {}

impl<R: AsOctets + Copy> Clone for RecordsOfType<R> {
    ghost is_clone = { λ walk copy. copy ≡ walk };

    ghost is_infallible = { λ _. ⊤ };

    fn clone(&self) -> Result<Self, AllocError> {
        Ok(*self)
    }
}

impl<R: AsOctets + Copy> Records<R> {
    ghost use Rattle.octseq_dns_message.specs.Limited.{limited_left};
    ghost use Rattle.octseq_dns_message.specs.OfType.{of_type};
    ghost use Rattle.octseq_dns_message.specs.Walk.{records_left};

    /// Returns an iterator over the records of one type, in their order.
    pub fn limit_to(self, rtype: Rtype) -> RecordsOfType<R>
        ensures { limited_left result ≡ of_type rtype (records_left self) }
    {
        RecordsOfType {
            records: self,
            rtype,
        }
    }
}

impl<R: AsOctets + Copy> Iterator for RecordsOfType<R> {
    ghost use Rattle.std.specs.Iterator.{YieldsFirstBy, item_count};
    ghost use Rattle.octseq_dns_message.specs.Said.{record_of};
    ghost use Rattle.octseq_dns_message.specs.Limited.{limited_left};

    type Item = Record<R>;

    ghost next_gives = { YieldsFirstBy record_of limited_left };

    ghost remaining = { item_count limited_left };

    fn next(&mut self) -> Option<Record<R>> {
        let mut records = self.records;
        let rtype = self.rtype;
        'passed: while let Some(entry) = records.next() {
            if entry.rtype() == rtype {
                self.records = records;
                return Some(entry);
            }
        }
        self.records = records;
        None
    }
}
