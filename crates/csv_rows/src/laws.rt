//! The numbers of the standard limits, and that the form of a text does not matter.
ghost use Rattle.std.specs.Prelude.{◌≡◌, ◌∷◌, ℕ, List as Sequence, map};
ghost use Rattle.csv.specs.Reading.{strip_bom};
ghost use Rattle.csv_rows.specs.Forms.{IsTextOf};
ghost use Rattle.csv_rows.specs.Limits.{standard};
ghost use Rattle.csv_rows.specs.Spaces.{trimmed_text};
ghost use Rattle.csv_rows.specs.Tables.{table_of};

/// A law, with no code: the standard limits are these numbers.
pub fn standard_numbers()
    ensures bytes { standard.bytes ≡ 1073741824 }
    ensures stops { standard.stops ≡ 1048576 }
    ensures routes { standard.routes ≡ 65536 }
    ensures trips { standard.trips ≡ 4194304 }
    ensures stop_times { standard.stop_times ≡ 33554432 }
    ensures frequencies { standard.frequencies ≡ 65536 }
    ensures calendar { standard.calendar ≡ 1048576 }
    ensures calendar_dates { standard.calendar_dates ≡ 16777216 }
    ensures transfers { standard.transfers ≡ 4194304 }
    ensures cut_rows { standard.cut_rows ≡ 8388608 }
    ensures connections { standard.connections ≡ 8388608 }
    ensures entries { standard.entries ≡ 67108864 }
{}

/// A law, with no code: a text in whatever form, with double quotes round a field or with none where it needs none, lines that
/// LF, CR or both end, an end of the last line or none, blank lines or none, and a byte-order mark or none, is read as its
/// records, with no space round a field.
pub fn a_text_is_read_as_its_records()
    ensures { (rows : Sequence (Sequence (Sequence ℕ))) (text : Sequence ℕ) → IsTextOf rows text
        → table_of text ≡ map (λ row. map trimmed_text row) rows }
{}

/// A law, with no code: two forms of the same records are one table.
pub fn forms_are_one_table()
    ensures { (rows : Sequence (Sequence (Sequence ℕ))) (text other : Sequence ℕ) → IsTextOf rows text → IsTextOf rows other
        → table_of text ≡ table_of other }
{}

/// A law, with no code: a byte-order mark before a text that begins with none changes nothing.
pub fn a_mark_is_no_record()
    ensures { (text : Sequence ℕ) → strip_bom text ≡ text → table_of (0xEF ∷ 0xBB ∷ 0xBF ∷ text) ≡ table_of text }
{}
