//! Numbers of millionths, with six decimals.

ghost use Rattle.std.specs.Fmt.{WritesOnOk};
ghost use Rattle.line_causes.specs.Decimals.{energy_text, millionths_text};

use exact_money::Millionths;
use std::fmt;

const MILLION: u128 = 1_000_000;

/// Writes a number of millionths of at least 0, as `12.500000`.
pub fn write_energy<W: fmt::Write>(f: &mut fmt::Formatter<W>, millionths: u128) -> fmt::Result
    ensures { WritesOnOk W.write_str_gives f.old result (energy_text millionths) f.new }
{
    let whole = millionths / MILLION;
    let decimals = millionths % MILLION;
    write!(f, "{whole}.{decimals:06}")
}

/// Writes a number of millionths, as `-0.500000`.
#[tactic(auto, unfolding(crate::specs::Decimals::millionths_text))]
pub fn write_millionths<W: fmt::Write>(
    f: &mut fmt::Formatter<W>,
    millionths: Millionths,
) -> fmt::Result
    ensures { WritesOnOk W.write_str_gives f.old result (millionths_text millionths) f.new }
{
    let value = millionths.get();
    let size = u128::from(value.unsigned_abs());
    if value < 0 {
        f.write_str("-")?;
        return write_energy(f, size);
    }
    write_energy(f, size)
}
