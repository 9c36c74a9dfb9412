// Packing: the case file of a demand, planner's rows and, in edition 2, a b1 for each of them. Every check comes before the first write.
#![tactic(auto)]

ghost use Rattle.std.specs.Prelude.{Ok, ◌≡◌, ◌++◌, ◌+◌, ◌*◌, ◌≤◌, length};
ghost use Rattle.fields.specs.Field.{bytes, bytes_of_each};
ghost use Rattle.rules.specs.Lists.{each, over};
ghost use Rattle.rules.specs.Layout.{in_second, body_length, body_of_unit, contents_from, bodies_of, bodies_length, file_in};
ghost use Rattle.rules.specs.Refusal.{in_order, unit_verdict};
ghost use Rattle.rules.specs.Calls.{rows_invalid, packed_in, packed, packed2};
ghost use Rattle.unit.specs.UnitHeld.{unit_held};
ghost use Rattle.packing.specs.Clauses.{WordsFit, row_count, unit_in, units_in, AreSound};

mod reading;

use crate::reading::Rows;
use fields::Number;
use rules::Refusal;
use unit::{Unit, check_unit};

// So many in edition 2, none in edition 1.
fn in_second(edition: u16, n: usize) -> usize
    ensures { (result ≡ in_second edition n) × (result ≤ n) }
{
    if edition == 2 { n } else { 0 }
}

// The length of a unit's body.
fn body_length(edition: u16, u: Unit) -> usize
    requires { (unit_held u).zone_count ≤ 4 }
    ensures { (result ≡ body_length edition (unit_held u).zone_count) × (result ≤ 46) }
{
    let z = u.zone_count as usize;
    26 + in_second(edition, 4) + 4 * z
}

// Writes the head to the start of `file`.
fn write_head(file: &mut [u8], edition: u16, n: usize, demand: u32)
    requires { (n ≤ 32) × (8 ≤ length file.old) }
    ensures { file.new ≡ over (bytes 2 edition ++ bytes 2 n ++ bytes 4 demand) file.old }
{
    fields::write(file, 0, edition);
    fields::write(file, 2, n as u16);
    fields::write(file, 4, demand);
}

// Writes numbers, 16 bits each, to the start of `part`.
fn write_words(part: &mut [u8], words: &[u32])
    requires words_fit { WordsFit words.now }
    requires words_in_bounds { 2 * length words.now ≤ length part.old }
    ensures { part.new ≡ over (bytes_of_each 2 words.now) part.old }
{
    for (k, word) in words.iter().enumerate() {
        fields::write(part, 2 * k, *word as u16);
    }
}

// Writes a unit's body to the start of `part`.
fn write_body(part: &mut [u8], edition: u16, u: Unit)
    requires u_value { unit_verdict (unit_held u) ≡ Ok tt }
    requires u_in_bounds { body_length edition (unit_held u).zone_count ≤ length part.old }
    ensures { part.new ≡ over (body_of_unit edition (unit_held u)) part.old }
{
    let words = [
        u.c2,
        u.b,
        u.least,
        u.greatest,
        u.previous,
        u.up,
        u.down,
        u.mark,
        u.zone_count,
    ];
    let edges = u.edges;
    let used = 2 * u.zone_count as usize;
    let width = in_second(edition, 4);
    let loss = u.b1.into_field();
    fields::write(part, 0, u.c0);
    fields::write(part, 4, u.c1);
    write_words(&mut part[8..], &words);
    fields::write_number(part, 26, width, loss);
    let start = 26 + width;
    write_words(&mut part[start..], &edges[..used]);
}

impl Rows<'_> {
    // Whether the numbers are no list of 1 to 32 rows, or not with so many b1.
    fn invalid(self) -> bool
        ensures { result ≡ rows_invalid self.entry.edition (length self.entry.numbers.now) (length self.entry.b1.now) }
    {
        let length = self.numbers.len();
        self.b1.len() != in_second(self.edition, length / 19)
            || length == 0
            || length % 19 != 0
            || length > 608
    }

    // The first refusal of the rows, in order.
    fn check(self) -> Result<(), Refusal>
        ensures { result ≡ in_order (each (row_count self.entry) (λ i. unit_verdict (unit_in self.entry i))) }
    {
        for i in 0..self.count() {
            check_unit(self.unit(i))?;
        }
        Ok(())
    }

    // The length of the rows' file.
    fn file_length(self) -> usize
        requires { AreSound self }
        ensures { result ≡ 8 + 4 * row_count self.entry + bodies_length self.entry.edition (units_in self.entry) }
    {
        let n = self.count();
        let mut length = 8 + 4 * n;
        for i in 0..n {
            length += body_length(self.edition, self.unit(i));
        }
        length
    }

    // Writes the entries of the rows to the start of `contents`.
    fn write_contents(self, contents: &mut [u8])
        requires sound { AreSound self }
        requires in_bounds { 4 * row_count self ≤ length contents.old }
        ensures { contents.new ≡ over (contents_from self.entry.edition (8 + 4 * row_count self.entry) (units_in self.entry)) contents.old }
    {
        let n = self.count();
        let mut offset = 8 + 4 * n;
        for i in 0..n {
            let size = body_length(self.edition, self.unit(i));
            fields::write(contents, 4 * i, offset as u16);
            fields::write(contents, 4 * i + 2, size as u16);
            offset += size;
        }
    }

    // Writes the bodies of the rows to the start of `part`.
    fn write_bodies(self, part: &mut [u8])
        requires sound { AreSound self }
        requires in_bounds { bodies_length self.edition (units_in self) ≤ length part.old }
        ensures { part.new ≡ over (bodies_of self.entry.edition (units_in self.entry)) part.old }
    {
        let mut at = 0;
        for i in 0..self.count() {
            let u = self.unit(i);
            write_body(&mut part[at..], self.edition, u);
            at += body_length(self.edition, u);
        }
    }

    // Writes the file of a demand and the rows to the start of `file`.
    fn write_file(self, file: &mut [u8], demand: u32)
        requires sound { AreSound self }
        requires in_bounds { 8 + 4 * row_count self + bodies_length self.edition (units_in self) ≤ length file.old }
        ensures { file.new ≡ over (file_in self.entry.edition demand (units_in self.entry)) file.old }
    {
        let n = self.count();
        write_head(file, self.edition, n, demand);
        self.write_contents(&mut file[8..]);
        let bodies = 8 + 4 * n;
        self.write_bodies(&mut file[bodies..]);
    }

    // The length of the file of a demand and the rows, which it writes to the start of `file`.
    fn pack(&self, demand: u32, file: &mut [u8]) -> Result<usize, Refusal>
        ensures { packed_in self.now.edition demand self.now.numbers.now self.now.b1.now file.old ≡ record { answer = result; file = file.new } }
    {
        if self.invalid() {
            return Err(Refusal::RowsInvalid);
        }
        if demand > 320000 {
            return Err(Refusal::DemandOutOfRange);
        }
        self.check()?;
        let length = self.file_length();
        let short = file.len() < length;
        if short {
            return Err(Refusal::FileBufferTooShort);
        }
        self.write_file(file, demand);
        Ok(length)
    }
}

// The length of the file of edition 1, of a demand and rows, which it writes to the start of `file`.
pub fn pack(demand: u32, rows: &[u32], file: &mut [u8]) -> Result<usize, Refusal>
    ensures { packed demand rows.now file.old ≡ record { answer = result; file = file.new } }
{
    let rows = Rows {
        edition: 1,
        numbers: rows,
        b1: &[],
    };
    rows.pack(demand, file)
}

// The length of the file of edition 2, of a demand, rows and a b1 for each, which it writes to the start of `file`.
pub fn pack2(demand: u32, rows: &[u32], b1: &[i32], file: &mut [u8]) -> Result<usize, Refusal>
    ensures { packed2 demand rows.now b1.now file.old ≡ record { answer = result; file = file.new } }
{
    let rows = Rows {
        edition: 2,
        numbers: rows,
        b1,
    };
    rows.pack(demand, file)
}
