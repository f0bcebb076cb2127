//! Messages composed of octets and of names, which are compressed.
ghost use Rattle.std.specs.Prelude.{◌≡◌, ◌≤◌, ◌+◌, ◌*◌, ◌⊎◌, length, true, OnErr};
ghost use Rattle.octseq.specs.Limit.{ExceedsLimit};
ghost use Rattle.octseq.specs.Refusal.{IsShort, append_error};
ghost use Rattle.octseq_dns_compress.specs.Composed.{message_limit, Composes};
ghost use Rattle.octseq_dns_compress.specs.Sound.{IsSoundMessage, sound_once};

use crate::append::{append, append_name, append_value, write_over};
use crate::table::Compressor;
use octseq::builder::AsOctetsMut;
use octseq::{AppendError, AsOctets, OctetsBuilder, Truncate, Turns};
use octseq_dns_name::ParsedName;
use octseq_format::Format;
use std::marker::Model;

/// The length of a header: RFC 1035, 4.1.1.
const HEADER_LEN: usize = 12;

/// The length of an RDLENGTH field: RFC 1035, 4.1.3.
const COUNT_LEN: usize = 2;

/// A message that is being composed: its octets, and a table of the labels that pointers may lead to.
#[derive(Drop)]
pub struct Composer<B: AsOctets, T: Compressor> {
    octets: B,
    table: T,
    entry_start: usize,
    data_start: usize,
    ghost sound: { IsSoundMessage T.most (B.content octets) (T.held table) entry_start data_start } by { sound_once
        T.most (B.content octets) (T.held table) entry_start data_start },
}

impl<B: AsOctets, T: Compressor> Model for Composer<B, T> {
    ghost use Rattle.std.specs.Coded.{codes};
    ghost use Rattle.octseq_dns_compress.specs.Composed.{Composed};
    ghost use Rattle.octseq_dns_compress.specs.NamesOf.{names_code};
    ghost use Rattle.octseq_dns_compress.specs.Sound.{composed_of};

    ghost Value = { Composed B T };

    ghost coded = { Prim.hlevel (codes, names_code) };

    ghost view = { λ c. composed_of c.octets c.table c.sound };
}

impl<B: OctetsBuilder, T: Compressor> Composer<B, T> {
    ghost use Rattle.octseq_dns_compress.specs.State.{with_octets};

    /// Returns the octets so far.
    pub fn as_slice(&self) -> &[u8]
        ensures { result.now ≡ self.now.state.octets }
    {
        self.octets.as_ref()
    }

    /// Returns the builder and the table, which can be used for another message.
    pub fn finish(self) -> (B, T)
        ensures octets { result.0 ≡ self.octets }
        ensures table { result.1 ≡ self.table }
        ensures content { B.content result.0 ≡ self.state.octets }
    {
        (self.octets, self.table)
    }

    /// Appends octets.
    ///
    /// # Errors
    ///
    /// `Short` exactly if the message would exceed the limit of the builder's type or 65,535 octets, and `Memory` if a
    /// request for memory was refused. The octets are then unchanged.
    pub fn append_slice(&mut self, slice: &[u8]) -> Result<(), AppendError>
        ensures composed { Composes (message_limit B.limit) (B.asks ≡ true) result
            (with_octets self.old.state slice.now) self.old self.new }
        ensures err { OnErr result (self.new.state ≡ self.old.state) }
        ensures past { ExceedsLimit (message_limit B.limit) (length self.old.state.octets + length slice.now)
            → IsShort append_error result }
        ensures borrows { B.borrows self.new.octets ≡ B.borrows self.old.octets }
    {
        append(&mut self.octets, slice)
    }
}

impl<B: OctetsBuilder + Truncate, T: Compressor> Composer<B, T> {
    ghost use Rattle.std.specs.Prelude.{◌↔◌, IfOk, OnOk, replicate};
    ghost use Rattle.std.specs.FinMap.{empty};
    ghost use Rattle.octseq.specs.Refusal.{IsMemory};
    ghost use Rattle.octseq_dns_compress.specs.Fits.{NameFits};
    ghost use Rattle.octseq_dns_compress.specs.State.{with_name, with_octets};
    ghost use Rattle.octseq_dns_name.specs.Read.{labels_of};

    /// Appends the octets of a value in a format.
    ///
    /// # Errors
    ///
    /// `Short` exactly if the message would exceed the limit of the builder's type or 65,535 octets, and `Memory` if a
    /// request for memory was refused. The octets are then unchanged.
    pub fn append_value<R: AsOctets + Copy, F: Format<R>>(
        &mut self,
        value: &F::Value,
    ) -> Result<(), AppendError>
        requires fits { F.fits (F.says (F.found value.now)) }
        ensures composed { Composes (message_limit B.limit) (B.asks ≡ true) result
            (with_octets self.old.state (F.octets (F.says (F.found value.now)))) self.old self.new }
        ensures err { OnErr result (self.new.state ≡ self.old.state) }
        ensures past { ExceedsLimit (message_limit B.limit)
            (length self.old.state.octets + length (F.octets (F.says (F.found value.now))))
            → IsShort append_error result }
        ensures borrows { B.borrows self.new.octets ≡ B.borrows self.old.octets }
    {
        append_value::<B, R, F>(&mut self.octets, value)
    }

    /// Returns a message that is a header of zeros. What the builder and the table hold is removed.
    ///
    /// # Errors
    ///
    /// `Short` exactly if the limit of the builder's type is below 12 octets, and `Memory` if a request for memory was
    /// refused. The builder and the table are then dropped.
    pub fn from_builder(octets: B, table: T) -> Result<Composer<B, T>, AppendError>
        ensures state { IfOk result (λ c. c.state ≡ record { octets = replicate 12 0; names = empty }) }
        ensures short { IsShort append_error result ↔ ExceedsLimit B.limit 12 }
        ensures memory { IsMemory append_error result → B.asks ≡ true }
        ensures borrows { IfOk result (λ c. B.borrows c.octets ≡ B.borrows octets) }
    {
        let mut octets = octets;
        let mut table = table;
        octets.truncate(0);
        octets.append_slice(&[0; HEADER_LEN])?;
        table.keep_before(0);
        Ok(Composer {
            octets,
            table,
            entry_start: HEADER_LEN,
            data_start: 0,
        })
    }

    /// Appends a name. A pointer replaces its longest suffix that is in the table.
    ///
    /// # Errors
    ///
    /// `Short` exactly if the message would exceed the limit of the builder's type or 65,535 octets, and `Memory` if a
    /// request for memory was refused. The octets and the names are then unchanged.
    pub fn append_name<R: AsOctets + Copy>(
        &mut self,
        name: &ParsedName<R>,
        turns: &mut Turns,
    ) -> Result<(), AppendError>
        ensures composed { Composes (message_limit B.limit) ((B.asks ≡ true) ⊎ (T.asks ≡ true)) result
            (with_name T.most self.old.state (labels_of name.now)) self.old self.new }
        ensures err { OnErr result (self.new.state ≡ self.old.state) }
        ensures past { ExceedsLimit (message_limit B.limit)
            (length (with_name T.most self.old.state (labels_of name.now)).octets) → IsShort append_error result }
        ensures fits { NameFits (labels_of name.now) }
        ensures borrows { B.borrows self.new.octets ≡ B.borrows self.old.octets }
        ensures on { turns.old ≤ turns.new }
        ensures turns { turns.new ≤ turns.old + 17 * length (labels_of name.now) }
        ensures least { OnOk result (turns.old + length (labels_of name.now) + length self.old.state.octets
            ≤ turns.new + length self.new.state.octets) }
    {
        append_name(&mut self.octets, &mut self.table, name, turns)
    }

    /// Begins an entry: what is appended from now on can be removed.
    pub fn begin_entry(&mut self)
        ensures state { self.new.state ≡ self.old.state }
        ensures begun { self.new.begun ≡ self.old.state }
        ensures data_start { self.new.data_start ≡ 0 }
        ensures borrows { B.borrows self.new.octets ≡ B.borrows self.old.octets }
    {
        self.entry_start = self.octets.len();
        self.data_start = 0;
    }

    /// Removes what was appended since the last entry began.
    pub fn rollback(&mut self)
        ensures state { self.new.state ≡ self.old.begun }
        ensures begun { self.new.begun ≡ self.old.begun }
        ensures borrows { B.borrows self.new.octets ≡ B.borrows self.old.octets }
    {
        self.octets.truncate(self.entry_start);
        self.table.keep_before(self.entry_start);
        self.data_start = 0;
    }
}

impl<B: OctetsBuilder + Truncate + AsOctetsMut, T: Compressor> Composer<B, T> {
    ghost use Rattle.std.specs.Prelude.{◌-◌, ◌++◌, take, drop, OnOk, [], ◌∷◌};
    ghost use Rattle.octseq.specs.Integer.{octets_be};
    ghost use Rattle.octseq.specs.Refusal.{IsMemory};
    ghost use Rattle.std.specs.List.{AllByRecursion};
    ghost use Rattle.octseq_dns_compress.specs.Fits.{FitsField};
    ghost use Rattle.octseq_dns_compress.specs.State.{with_octets, with_counted, with_header, label_count};

    /// Overwrites the header of the message.
    pub fn put_header(&mut self, header: &[u8; 12])
        ensures state { self.new.state ≡ with_header self.old.state header.now }
        ensures begun { self.new.begun ≡ with_header self.old.begun header.now }
        ensures borrows { B.borrows self.new.octets ≡ B.borrows self.old.octets }
    {
        write_over(&mut self.octets, 0, header);
    }

    /// Begins data: appends two octets for the length of what is appended up to [`end_data`](Self::end_data).
    ///
    /// # Errors
    ///
    /// `Short` if the message would exceed the limit of the builder's type or 65,535 octets, and `Memory` if a request
    /// for memory was refused. The octets are then unchanged.
    pub fn begin_data(&mut self) -> Result<(), AppendError>
        ensures ok { OnOk result (self.new.state ≡ with_octets self.old.state (0 ∷ 0 ∷ [])) }
        ensures data_start { OnOk result (self.new.data_start ≡ length self.new.state.octets) }
        ensures err { OnErr result (self.new.state ≡ self.old.state) }
        ensures short { IsShort append_error result
            → ExceedsLimit (message_limit B.limit) (length self.old.state.octets + 2) }
        ensures memory { IsMemory append_error result → B.asks ≡ true }
        ensures begun { self.new.begun ≡ self.old.begun }
        ensures before { length self.old.begun.octets ≤ length self.old.state.octets }
        ensures borrows { B.borrows self.new.octets ≡ B.borrows self.old.octets }
    {
        if let Err(error) = append(&mut self.octets, &[0; COUNT_LEN]) {
            return Err(error);
        }
        self.data_start = self.octets.len();
        Ok(())
    }

    /// Ends data: writes its length into the two octets before it.
    pub fn end_data(&mut self)
        requires { length self.old.begun.octets + 2 ≤ self.old.data_start }
        ensures octets { self.new.state.octets ≡ take (self.old.data_start - 2) self.old.state.octets
            ++ (octets_be 2 (length self.old.state.octets - self.old.data_start)
            ++ drop self.old.data_start self.old.state.octets) }
        ensures names { self.new.state.names ≡ self.old.state.names }
        ensures begun { self.new.begun ≡ self.old.begun }
        ensures short { length self.old.state.octets ≤ 65535 }
        ensures borrows { B.borrows self.new.octets ≡ B.borrows self.old.octets }
    {
        let len = self.octets.len() - self.data_start;
        let count = (len as u16).to_be_bytes();
        write_over(&mut self.octets, self.data_start - COUNT_LEN, &count);
        self.data_start = 0;
    }
}
