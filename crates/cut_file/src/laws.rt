//! The numbers of a cut file.
ghost use Rattle.std.specs.Prelude.{◌≡◌};
ghost use Rattle.cut_file.specs.declared.fields.TheConstants.{LAST_TYPE};
ghost use Rattle.cut_file.specs.declared.lines.TheConstants.{MOST_STEP};

/// A law, with no code: the greatest step and the greatest route type of a row.
pub fn cut_numbers()
    ensures step { MOST_STEP ≡ 999999999 }
    ensures types { LAST_TYPE ≡ 65534 }
{}
