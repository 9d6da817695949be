// Numbers (ECMA-262, 12.9.3), and how JavaScript writes them (6.1.6.1.20).
use crate::integer::{base_of, digits_of};
use ryu::Buffer;
use std::alloc::{AllocError, Global};
use swc_lexical::number::{Base, number_len};

/// A number below this has room for one digit more, of any base.
const ROOM: u64 = 1 << 58;

/// The value of a numeric literal that is no big integer, rounded to the nearest number; infinity where it is too large.
/// `None` where the text is no such literal. The only error is out of memory.
pub fn number(alloc: Global, raw: &str) -> Result<Option<f64>, AllocError> {
    if !is_number(raw.as_bytes()) {
        return Ok(None);
    }
    let digits = digits_of(raw.as_bytes());
    match base_of(raw.as_bytes()) {
        Base::Binary => Ok(Some(value_in(alloc, digits, 2, 1)?)),
        Base::Octal => Ok(Some(value_in(alloc, digits, 8, 3)?)),
        Base::Hexadecimal => Ok(Some(value_in(alloc, digits, 16, 4)?)),
        Base::Decimal => {
            let plain = without_separators(alloc, raw)?;
            Ok(Some(parsed(plain.as_str())))
        }
    }
}

/// Whether all of the text is a numeric literal without an `n`.
fn is_number(text: &[u8]) -> bool {
    let begins = match text {
        [b'.', digit, ..] | [digit, ..] => digit.is_ascii_digit(),
        [] => false,
    };
    begins && number_len(text) == Some(text.len())
}

/// The value of decimal digits, with a fraction and an exponent or without.
fn parsed(digits: &str) -> f64 {
    fast_float::parse::<f64, _>(digits).unwrap_or(f64::INFINITY)
}

/// A literal without its separators.
fn without_separators(alloc: Global, raw: &str) -> Result<String, AllocError> {
    let mut digits = String::new(alloc);
    for part in raw.split('_') {
        digits.push_str(part)?;
    }
    Ok(digits)
}

/// The value of digits in a radix, which is 2 to the power of `bits`. It is rounded to the nearest: of the digits that
/// don't fit in a word, only their number, by which the value is doubled, and one bit for whether any isn't 0 are kept.
fn value_in(alloc: Global, digits: &[u8], radix: u32, bits: u32) -> Result<f64, AllocError> {
    let (mut word, mut doublings, mut has_rest) = (0u64, 0u32, false);
    for byte in digits {
        let Some(digit) = (*byte as char).to_digit(16) else {
            continue;
        };
        if word < ROOM {
            word = word
                .saturating_mul(u64::from(radix))
                .saturating_add(u64::from(digit));
        } else {
            doublings = doublings.saturating_add(bits);
            has_rest |= digit != 0;
        }
    }
    let text = format!(in alloc; "{}", word | u64::from(has_rest))?;
    Ok(doubled(parsed(text.as_str()), doublings))
}

/// The value, doubled so often.
fn doubled(mut value: f64, doublings: u32) -> f64 {
    for _ in 0..doublings {
        value *= 2.0;
    }
    value
}

/// A number as JavaScript writes it: with the fewest digits that are read as it again. The only error is out of memory.
pub fn number_text(alloc: Global, value: f64) -> Result<String, AllocError> {
    let mut text = String::new(alloc);
    append_number(&mut text, value)?;
    Ok(text)
}

/// Appends a number as `number_text` writes it. The only error is out of memory.
pub fn append_number(out: &mut String, value: f64) -> Result<(), AllocError> {
    if value.is_nan() {
        return out.push_str("NaN");
    }
    if value < 0.0 {
        out.push('-')?;
    }
    if !value.is_finite() {
        return out.push_str("Infinity");
    }
    let mut buffer = Buffer::new();
    let text = buffer.format_finite(value);
    append_decimal(out, text.strip_prefix('-').unwrap_or(text))
}

/// Appends a number that is written with a point, an exponent or both.
fn append_decimal(out: &mut String, text: &str) -> Result<(), AllocError> {
    let (mantissa, exponent) = text.split_once('e').unwrap_or((text, "0"));
    let (whole, fraction) = mantissa.split_once('.').unwrap_or((mantissa, ""));
    let exponent = exponent.parse::<i32>().unwrap_or(0);
    let point = exponent.saturating_add(count_of(whole));
    let mut digits = String::new(*out.allocator());
    digits.push_str(whole)?;
    digits.push_str(fraction)?;
    let found = digits.as_str().trim_start_matches('0');
    let point = point.saturating_sub(count_of(digits.as_str()).saturating_sub(count_of(found)));
    append_digits(out, found.trim_end_matches('0'), point)
}

/// How many bytes a short text has.
fn count_of(text: &str) -> i32 {
    i32::try_from(text.len()).unwrap_or(0)
}

/// Appends the digits of a number, whose point is after the first `point` of them, or before them by so many zeros.
fn append_digits(out: &mut String, digits: &str, point: i32) -> Result<(), AllocError> {
    let count = count_of(digits);
    if digits.is_empty() {
        out.push('0')
    } else if count <= point && point <= 21 {
        out.push_str(digits)?;
        append_zeros(out, point.saturating_sub(count))
    } else if 0 < point && point <= 21 {
        append_parts(out, digits, usize::try_from(point).unwrap_or(0))
    } else if -6 < point && point <= 0 {
        out.push_str("0.")?;
        append_zeros(out, 0i32.saturating_sub(point))?;
        out.push_str(digits)
    } else {
        append_parts(out, digits, 1)?;
        let exponent = point.saturating_sub(1);
        let sign = if exponent < 0 { "" } else { "+" };
        write!(out, "e{sign}{exponent}")
    }
}

/// Appends the digits with a point after the first `count`, unless there are no others.
fn append_parts(out: &mut String, digits: &str, count: usize) -> Result<(), AllocError> {
    let whole = digits.get(..count).unwrap_or(digits);
    out.push_str(whole)?;
    match digits.get(count..) {
        Some(fraction) if !fraction.is_empty() => {
            out.push('.')?;
            out.push_str(fraction)
        }
        _ => Ok(()),
    }
}

fn append_zeros(out: &mut String, count: i32) -> Result<(), AllocError> {
    for _ in 0..count {
        out.push('0')?;
    }
    Ok(())
}
