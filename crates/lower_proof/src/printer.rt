//! The text of a certificate.
ghost use Rattle.std.specs.Prelude.{◌≡◌, ℕ, ◌<◌, ◌≤◌, ◌++◌, ◌^◌, IfOk, length, is_some, Option as Maybe};
ghost use Rattle.std.specs.List.{count_by};
ghost use Rattle.plan_model.specs.NameLists.{NamesFit};
ghost use Rattle.plan_model.specs.Network.{count};
ghost use Rattle.printed_rows.specs.Records.{row_of_fields, text_of_records};
ghost use Rattle.lower_proof.specs.Steps.{AllFit};
ghost use Rattle.lower_proof.specs.Reading.{ReadsBack};
ghost use Rattle.lower_proof.specs.CertificateTexts.{bounds_record, value_record, entry_text, value_records, certificate_text};
ghost use Rattle.clock_text.specs.Civil.{last_printable};

use crate::LowerBounds;
use clock_text::{write_moment, write_nanos};
use itoa::Buffer;
use plan_model::{ConnectionId, Names, Network, NoMemory, Query};
use printed_rows::put_row;
use std::alloc::Global;

/// The number of connections that have a value.
fn number_of(values: &[Option<u64>]) -> usize
    ensures { result ≡ count_by is_some values.now }
{
    values.iter().filter(|value| value.is_some()).count()
}

/// What is needed to print the rows of a certificate: a network with the names of its places and runs, the
/// question that the certificate is for, and the value of each connection.
#[derive(Drop)]
struct Printer<'a> {
    network: &'a Network,
    names: &'a Names,
    query: &'a Query,
    values: &'a [Option<u64>],
    ghost as_many: { length values.now ≡ count network.now },
    ghost fit: { NamesFit names.now network.now },
    ghost source: { query.now.source.0 < length network.now.change },
    ghost target: { query.now.target.0 < length network.now.change },
    ghost start: { query.now.start.0 ≤ last_printable },
    ghost deadline: { query.now.deadline.0 ≤ last_printable },
}

impl<'a> Printer<'a> {
    /// Adds the first row to a text.
    fn put_bounds(&self, text: Vec<u8>) -> Result<Vec<u8>, NoMemory>
        ensures { IfOk result (λ whole. whole.items ≡ text.items
            ++ row_of_fields (bounds_record self.now.names.now self.now.query.now self.now.values.now)) }
    {
        let start = write_moment(self.query.start);
        let deadline = write_moment(self.query.deadline);
        let mut number = Buffer::new();
        put_row(
            text,
            &[
                b"bounds".as_slice(),
                b"1".as_slice(),
                self.names.place_name(self.query.source).as_bytes(),
                self.names.place_name(self.query.target).as_bytes(),
                start.as_slice(),
                deadline.as_slice(),
                number.format(number_of(self.values)).as_bytes(),
            ],
        )
    }

    /// Adds the row of a connection to a text, if it has a value.
    fn put_value(
        &self,
        text: Vec<u8>,
        id: ConnectionId,
        value: Option<u64>,
    ) -> Result<Vec<u8>, NoMemory>
        requires { id.0 < count self.now.network.now }
        ensures text { IfOk result (λ whole. whole.items ≡ text.items
            ++ entry_text self.now.network.now self.now.names.now id.0 value) }
        ensures fits { (v : ℕ) → value ≡ Maybe.Some v → v < 2 ^ 64 }
    {
        let Some(value) = value else {
            return Ok(text);
        };
        let connection = self.network.get(id);
        let nanos = write_nanos(value);
        let mut step = Buffer::new();
        put_row(
            text,
            &[
                b"value".as_slice(),
                self.names.run_name(connection.run).as_bytes(),
                step.format(connection.step).as_bytes(),
                nanos.as_slice(),
            ],
        )
    }

    /// Adds a row for each connection that has a value to a text.
    fn put_values(&self, mut text: Vec<u8>) -> Result<Vec<u8>, NoMemory>
        ensures text { IfOk result (λ whole. whole.items ≡ text.items
            ++ text_of_records (value_records self.now.network.now self.now.names.now 0 self.now.values.now)) }
        ensures fit { IfOk result (λ _. AllFit (length self.now.values.now) self.now.values.now) }
    {
        for i in 0..self.network.count() {
            text = self.put_value(text, ConnectionId(i), self.values[i as usize])?;
        }
        Ok(text)
    }
}

/// The text of a certificate with the query that it is for: a first row, and one for each connection that has
/// a value, in their order. It reads back if the start is not after the deadline.
pub fn write_text(
    alloc: Global,
    proof: &LowerBounds,
    query: &Query,
    network: &Network,
    names: &Names,
) -> Result<Vec<u8>, NoMemory>
    requires as_many { length proof.now.values ≡ count network.now }
    requires names { NamesFit names.now network.now }
    requires source { query.now.source.0 < length network.now.change }
    requires target { query.now.target.0 < length network.now.change }
    requires start { query.now.start.0 ≤ last_printable }
    requires deadline { query.now.deadline.0 ≤ last_printable }
    ensures text { IfOk result (λ text. text.items ≡ certificate_text network.now names.now query.now proof.now.values) }
    ensures reads_back { IfOk result (λ text. query.now.start.0 ≤ query.now.deadline.0
        → ReadsBack network.now names.now query.now proof.now.values text.items) }
{
    let are_named = names.places() == network.places();
    prove!(are_named);
    let printer = Printer {
        network,
        names,
        query,
        values: proof.values.as_slice(),
    };
    let text = printer.put_bounds(Vec::new(alloc))?;
    printer.put_values(text)
}
