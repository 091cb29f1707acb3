//! A chance as text.
ghost use Rattle.std.specs.Prelude.{◌≡◌, ◌≤◌};
ghost use Rattle.plan_model.specs.Bounds.{certainty};
ghost use Rattle.late_chance.specs.Chances.{chance_text};

/// The text of a chance that is given in units of 10 to the -18: a digit, a point and 18 digits.
pub fn write_chance(chance: u64) -> [u8; 20]
    requires { chance ≤ certainty }
    ensures { result ≡ chance_text chance }
{
    [
        b'0' + (chance / 1_000_000_000_000_000_000 % 10) as u8,
        b'.',
        b'0' + (chance / 100_000_000_000_000_000 % 10) as u8,
        b'0' + (chance / 10_000_000_000_000_000 % 10) as u8,
        b'0' + (chance / 1_000_000_000_000_000 % 10) as u8,
        b'0' + (chance / 100_000_000_000_000 % 10) as u8,
        b'0' + (chance / 10_000_000_000_000 % 10) as u8,
        b'0' + (chance / 1_000_000_000_000 % 10) as u8,
        b'0' + (chance / 100_000_000_000 % 10) as u8,
        b'0' + (chance / 10_000_000_000 % 10) as u8,
        b'0' + (chance / 1_000_000_000 % 10) as u8,
        b'0' + (chance / 100_000_000 % 10) as u8,
        b'0' + (chance / 10_000_000 % 10) as u8,
        b'0' + (chance / 1_000_000 % 10) as u8,
        b'0' + (chance / 100_000 % 10) as u8,
        b'0' + (chance / 10_000 % 10) as u8,
        b'0' + (chance / 1_000 % 10) as u8,
        b'0' + (chance / 100 % 10) as u8,
        b'0' + (chance / 10 % 10) as u8,
        b'0' + (chance % 10) as u8,
    ]
}
