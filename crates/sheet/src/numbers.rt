// The table of entries as plain numbers, four for an entry, of any length, for callers that hold it so. `entry_of` and `set_entry` have it as entries.
ghost use Rattle.std.specs.Prelude.{◌≡◌, get_or};
ghost use Rattle.sheet.specs.Numbers.{entry_in_numbers, with_entry};

use crate::{MAX_SHEET, NO_ENTRY, SheetEntry};

// The numbers of a sheet's table: four for each entry.
pub const MAX_FIELDS: usize = 4 * MAX_SHEET;

// The number at a place of a table; past its end 0.
fn field_at(fields: &[u16], p: usize) -> u16
    ensures { result ≡ get_or fields.now p 0 }
{
    fields.get(p).copied().unwrap_or(0)
}

// Entry i of a table; past its end the numbers are 0.
#[tactic(auto, using(crate::proofs::Fields::read_past, crate::proofs::Fields::read_at))]
pub fn entry_at(fields: &[u16], i: usize) -> SheetEntry
    ensures { result ≡ entry_in_numbers fields.now i }
{
    if fields.len() / 4 < i {
        return NO_ENTRY;
    }
    let p = 4 * i;
    SheetEntry {
        kind: field_at(fields, p),
        literal: field_at(fields, p + 1),
        rule: field_at(fields, p + 2),
        group: field_at(fields, p + 3),
    }
}

// An entry becomes entry i of a table; what lies past its end is left out.
#[tactic(auto, using(crate::proofs::Fields::stored_past, crate::proofs::Fields::stored_at))]
pub fn put_entry(fields: &mut [u16], i: usize, e: SheetEntry)
    ensures { fields.new ≡ with_entry fields.old i e }
{
    if fields.len() / 4 < i {
        return;
    }
    let p = 4 * i;
    store::put16(fields, p, e.kind);
    store::put16(fields, p + 1, e.literal);
    store::put16(fields, p + 2, e.rule);
    store::put16(fields, p + 3, e.group);
}
