//! The comma form: a record for each edge, with commas between its fields.
ghost use Rattle.std.specs.Prelude.{◌≡◌, [], map, IfOk, IfErr, MatchBool};
ghost use Rattle.std.specs.Char.{is_ascii_digit};
ghost use Rattle.csv.specs.Records.{fields_of};
ghost use Rattle.pg_import.specs.Comma.{csv_of, is_header, reading_of_record, trimmed};
ghost use Rattle.pg_import.specs.Import.{Gives, begins_with, no_memory};
ghost use Rattle.pg_import.specs.Records.{IsBetweenRecords, TakesRecord, records_left};

use crate::list::{add_reading, read_edge};
use crate::text::after_blanks;
use crate::{ImportFault, ImportKind, Line};
use csv::{ByteRecord, Reader, ReaderBuilder};
use std::alloc::Global;
use std::io::Read;

// The number of the record that may be a header.
const HEADER: u64 = 1;

/// The edges of a text in comma form, in their order, or its first faulty record.
///
/// Blanks and tabs at the ends of a field are passed over. The first record is too where it is a
/// header: it has two fields or more, and neither of the first two begins with a digit. A fault's line
/// is the number of the record, the header counted. Costs O(n) for n bytes.
pub fn read_csv(alloc: Global, text: &[u8]) -> Result<Vec<Line>, ImportFault>
    ensures { Gives (λ lines. lines.items) result (csv_of text.now) }
{
    let mut reader = ReaderBuilder::new()
        .has_headers(false)
        .flexible(true)
        .from_reader(alloc, text);
    let mut row = ByteRecord::new(alloc);
    let mut lines = Vec::new(alloc);
    let mut number = 0;
    while next_record(&mut reader, &mut row)? {
        number += 1;
        if number == HEADER && is_header(&row) {
            continue;
        }
        add_reading(&mut lines, number, read_record(&row))?;
    }
    Ok(lines)
}

// Takes the next record, and says whether there was one. Bytes in memory are read without a fault,
// and records of any length are taken, so only memory can be wanted.
fn next_record<R: Read>(reader: &mut Reader<R>, row: &mut ByteRecord) -> Result<bool, ImportFault>
    requires { IsBetweenRecords R.remaining reader.old }
    ensures ok { IfOk result (λ found.
        MatchBool found (TakesRecord R.remaining reader.old reader.new (fields_of row.new))
        (records_left R.remaining reader.old ≡ [])) }
    ensures err { IfErr result (λ fault. fault ≡ no_memory) }
{
    reader
        .read_byte_record(row)
        .map_err(|_| ImportFault::NO_MEMORY)
}

fn is_header(row: &ByteRecord) -> bool
    ensures { result ≡ is_header (map trimmed (fields_of row.now)) }
{
    let Some(first) = row.get(0) else {
        return false;
    };
    let Some(second) = row.get(1) else {
        return false;
    };
    !begins_with_digit(first) && !begins_with_digit(second)
}

// Whether a field begins with a digit, blanks and tabs aside.
fn begins_with_digit(field: &[u8]) -> bool
    ensures { result ≡ begins_with is_ascii_digit (trimmed field.now) }
{
    trim_blanks(field)
        .first()
        .is_some_and(|byte| byte.is_ascii_digit())
}

fn read_record(row: &ByteRecord) -> Result<Option<Line>, ImportKind>
    ensures { result ≡ reading_of_record (map trimmed (fields_of row.now)) }
{
    let Some(source) = row.get(0) else {
        return Err(ImportKind::FieldCount);
    };
    let Some(target) = row.get(1) else {
        return Err(ImportKind::FieldCount);
    };
    if row.get(3).is_some() {
        return Err(ImportKind::FieldCount);
    }
    let weight = row.get(2).map(trim_blanks);
    let line = read_edge(trim_blanks(source), trim_blanks(target), weight)?;
    Ok(Some(line))
}

// A field without the blanks and tabs at its ends.
fn trim_blanks(field: &[u8]) -> &[u8]
    ensures { result.now ≡ trimmed field.now }
{
    let mut rest = after_blanks(field);
    while let [before @ .., b' ' | b'\t'] = rest {
        rest = before;
    }
    rest
}
