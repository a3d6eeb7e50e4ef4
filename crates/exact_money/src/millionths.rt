ghost use Rattle.std.specs.Prelude.{◌≡◌, ℕ, ◌+◌, ◌*◌, ◌^◌, ◌<◌, ◌≤◌, ◌++◌, length, IsTrue, ◌↔◌, IfSome, IfNone, List};
ghost use Rattle.std.specs.Fmt.{sign_text};
ghost use Rattle.std.specs.List.{prefix_len};
ghost use Rattle.std.specs.Char.{is_ascii_digit};
ghost use Rattle.std.specs.Str.Parse.{AllDigits, digits_value, digits_value_after};
ghost use Rattle.exact_money.specs.Numeral.{IsNearest, Numeral, IsPlain, IsWhole, IsFraction, behind_point, spelling};
ghost use Rattle.exact_money.specs.Millionths.{MillionthsOfIsValue};

use std::marker::Model;

/// A whole number of millionths, as of a price or of a quantity: at most 10^15 either way.
#[derive(Clone, Copy, PartialEq, Eq, PartialOrd, Ord)]
pub struct Millionths {
    value: i64,
}

impl Model for Millionths {
    ghost use Rattle.std.specs.Prelude.{ℤ};
    ghost use Rattle.exact_money.specs.Millionths.{IsWithinLimit};

    ghost Value = { ℤ };

    ghost view = { λ m. m.value };

    ghost invariant = { λ m. IsWithinLimit m.value };

    ghost inverse = { λ z. record { value = z } };
}

impl Millionths {
    ghost use Rattle.std.specs.Prelude.{◌≡◌, ℤ, pos, neg_ℤ, ◌≤ℤ◌, ◌≤◌, ◌^◌, SomeIff, IfSome, IfNone};
    ghost use Rattle.exact_money.specs.Numeral.{Numeral, IsPlain, spelling, signed};
    ghost use Rattle.exact_money.specs.Millionths.{IsWithinLimit, IsMillionthsOf, millionths_of};

    pub fn zero() -> Millionths
        ensures { result ≡ pos 0 }
    {
        Millionths { value: 0 }
    }

    /// `None` is the answer outside the limit of 10^15 either way.
    pub fn from_millionths(value: i64) -> Option<Millionths>
        ensures { SomeIff result (IsWithinLimit value) value }
    {
        if -1_000_000_000_000_000 <= value && value <= 1_000_000_000_000_000 {
            Some(Millionths { value })
        } else {
            None
        }
    }

    pub fn get(self) -> i64
        ensures value { result ≡ self }
        ensures low { neg_ℤ (pos (10 ^ 15)) ≤ℤ self }
        ensures high { self ≤ℤ pos (10 ^ 15) }
    {
        self.value
    }

    fn of_size(negative: bool, size: u64) -> Millionths
        requires { size ≤ 10 ^ 15 }
        ensures { result ≡ signed negative size }
    {
        let value = size as i64;
        Millionths {
            value: if negative { -value } else { value },
        }
    }

    /// The number that a text is, rounded half away from zero to a millionth.
    ///
    /// A number is an optional minus, 1 to 9 digits with no leading zero, and then
    /// optionally a point and 1 to 30 digits. Any other text gives `None`.
    pub fn read(text: &[u8]) -> Option<Millionths>
        ensures value { IfSome result (IsMillionthsOf text.now) }
        ensures none { IfNone result ((n : Numeral) → IsPlain n → text.now ≡ spelling n → ⊥) }
        ensures computed { result ≡ millionths_of text.now }
    {
        let (negative, unsigned) = sign_of(text);
        let (whole, fraction) = parts_of(unsigned)?;
        Some(Millionths::of_size(negative, rounded(whole, fraction)))
    }
}

/// States that the definition `millionths_of` is the value by the rounding rule.
pub fn millionths_of_is_value()
    ensures { MillionthsOfIsValue }
{}

// The digits of n, with these behind them.
fn value_after(n: u64, digits: &[u8]) -> u64
    requires digits { AllDigits 10 digits.now }
    requires small { (n + 1) * 10 ^ length digits.now ≤ 10 ^ 15 }
    ensures value { result ≡ digits_value_after 10 n digits.now }
    ensures bound { result < (n + 1) * 10 ^ length digits.now }
{
    let mut value = n;
    for digit in digits {
        value = value * 10 + u64::from(*digit - b'0');
    }
    value
}

// How many millionths one unit of the last of so many decimals is.
fn millionths_per_unit(places: usize) -> u64
    requires { places ≤ 6 }
    ensures { result * 10 ^ places ≡ 10 ^ 6 }
{
    match places {
        0 => 1_000_000,
        1 => 100_000,
        2 => 10_000,
        3 => 1_000,
        4 => 100,
        5 => 10,
        _ => 1,
    }
}

// The size in millionths: six decimals are kept, and the seventh rounds.
fn rounded(whole: &[u8], fraction: &[u8]) -> u64
    requires whole_digits { AllDigits 10 whole.now }
    requires fraction_digits { AllDigits 10 fraction.now }
    requires few_digits { length whole.now ≤ 9 }
    ensures nearest { IsNearest (digits_value 10 (whole.now ++ fraction.now)) (10 ^ length fraction.now) result }
    ensures bound { result ≤ 10 ^ 15 }
{
    let kept = fraction.len().min(6);
    let (front, back) = fraction.split_at(kept);
    let head = value_after(value_after(0, whole), front);
    match back.split_first() {
        Some((digit, _)) => { if *digit >= b'5' { head + 1 } else { head } }
        None => head * millionths_per_unit(kept),
    }
}

fn digits_len(text: &[u8]) -> usize
    ensures in_range { result ≤ length text.now }
    ensures longest { result ≡ prefix_len is_ascii_digit text.now }
{
    for (index, byte) in text.iter().enumerate() {
        if !byte.is_ascii_digit() {
            return index;
        }
    }
    text.len()
}

fn is_whole(digits: &[u8]) -> bool
    requires { AllDigits 10 digits.now }
    ensures { IsTrue result ↔ IsWhole digits.now }
{
    let len = digits.len();
    len == 1 || (1 < len && len <= 9 && digits[0] != b'0')
}

fn are_digits(text: &[u8]) -> bool
    ensures { IsTrue result ↔ AllDigits 10 text.now }
{
    digits_len(text) == text.len()
}

fn is_fraction(digits: &[u8]) -> bool
    ensures { IsTrue result ↔ (IsFraction digits.now × (0 < length digits.now)) }
{
    if digits.is_empty() || 30 < digits.len() {
        return false;
    }
    are_digits(digits)
}

// Whether a minus stands first, and what is left without it.
fn sign_of(text: &[u8]) -> (bool, &[u8])
    ensures found { text.now ≡ sign_text result.0 ++ result.1.now }
    ensures only { (n : Numeral) → IsPlain n → text.now ≡ spelling n
        → (result.0 ≡ n.negative) × (result.1.now ≡ n.whole ++ behind_point n.fraction) }
{
    match text {
        [b'-', unsigned @ ..] => (true, unsigned),
        _ => (false, text),
    }
}

// The digits before the point, and those behind it.
fn parts_of(text: &[u8]) -> Option<(&[u8], &[u8])>
    ensures found { IfSome result (λ p. IsWhole p.0.now × IsFraction p.1.now × (text.now ≡ p.0.now ++ behind_point p.1.now)) }
    ensures none { IfNone result ((whole fraction : List ℕ) → IsWhole whole → IsFraction fraction
        → text.now ≡ whole ++ behind_point fraction → ⊥) }
{
    let (whole, tail) = text.split_at(digits_len(text));
    if !is_whole(whole) {
        return None;
    }
    match tail.split_first() {
        None => Some((whole, tail)),
        Some((first, fraction)) => {
            if *first == b'.' && is_fraction(fraction) {
                Some((whole, fraction))
            } else {
                None
            }
        }
    }
}
