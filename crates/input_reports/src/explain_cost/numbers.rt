//! The texts of numbers.

ghost use Rattle.std.specs.Prelude.{◌≡◌, ◌++◌, ◌<◌, ◌≤◌, decimal, IfOk, OnOk};
ghost use Rattle.input_reports.specs.explain_cost.Numbers.{behind_point, cost_text, last_digits, millionths_text, ninths_text, without_last_zeros};

use std::alloc::{AllocError, Global};

/// A number of so many decimal places.
#[derive(Clone, Copy)]
struct Decimals {
    places: u32,
    number: u128,
}

fn write_number(text: &mut Vec<u8>, number: u128) -> Result<(), AllocError>
    ensures { OnOk result (text.new.items ≡ text.old.items ++ decimal number) }
{
    let digits = number.to_string(*text.allocator())?;
    text.extend_from_slice(digits.as_bytes())
}

// The last digits of a number, so many.
fn write_last_digits(text: &mut Vec<u8>, places: u32, number: u128) -> Result<(), AllocError>
    requires { places ≤ 12 }
    ensures { OnOk result (text.new.items ≡ text.old.items ++ last_digits places number) }
{
    let mut left = places;
    while 0 < left {
        left -= 1;
        text.push(b'0' + (number / 10_u128.pow(left) % 10) as u8)?;
    }
    Ok(())
}

// Without the zeros at its end.
fn without_last_zeros(places: u32, number: u128) -> Decimals
    ensures value { last_digits result.places result.number ≡ without_last_zeros places number }
    ensures places { result.places ≤ places }
{
    let mut left = Decimals { places, number };
    while 0 < left.places && left.number % 10 == 0 {
        left.places -= 1;
        left.number /= 10;
    }
    left
}

// A point and the last digits of a number without zeros at their end, where there are any.
fn write_fraction(text: &mut Vec<u8>, places: u32, number: u128) -> Result<(), AllocError>
    requires { places ≤ 12 }
    ensures { OnOk result (text.new.items ≡ text.old.items ++ behind_point (without_last_zeros places number)) }
{
    let decimals = without_last_zeros(places, number);
    if decimals.places == 0 {
        return Ok(());
    }
    text.push(b'.')?;
    write_last_digits(text, decimals.places, decimals.number)
}

// All twelve decimals, and ninths of the twelfth.
fn write_ninths(text: &mut Vec<u8>, number: u128, ninths: u8) -> Result<(), AllocError>
    requires { ninths < 9 }
    ensures { OnOk result (text.new.items ≡ text.old.items ++ ninths_text number ninths) }
{
    text.push(b'.')?;
    write_last_digits(text, 12, number)?;
    text.extend_from_slice(&[b' ', b'0' + ninths, b'/', b'9'])
}

/// Appends units of a cost: up to twelve decimals, and ninths of the twelfth where some are left.
pub fn write_cost(text: &mut Vec<u8>, units: u128) -> Result<(), AllocError>
    ensures { OnOk result (text.new.items ≡ text.old.items ++ cost_text units) }
{
    write_number(text, units / 9_000_000_000_000)?;
    let ninths = (units % 9) as u8;
    if ninths == 0 {
        write_fraction(text, 12, units / 9)
    } else {
        write_ninths(text, units / 9, ninths)
    }
}

/// A number without decimals.
pub fn number_text(alloc: Global, number: u128) -> Result<Vec<u8>, AllocError>
    ensures { IfOk result (λ text. text.items ≡ decimal number) }
{
    let mut text = Vec::new(alloc);
    write_number(&mut text, number)?;
    Ok(text)
}

/// Millionths, with up to six decimals.
pub fn millionths_text(alloc: Global, millionths: u128) -> Result<Vec<u8>, AllocError>
    ensures { IfOk result (λ text. text.items ≡ millionths_text millionths) }
{
    let mut text = Vec::new(alloc);
    write_number(&mut text, millionths / 1_000_000)?;
    write_fraction(&mut text, 6, millionths)?;
    Ok(text)
}
