// Numbers as fields spell them.
ghost use Rattle.std.specs.Prelude.{◌≡◌, ◌≤◌, ◌^◌, pos, neg_ℤ};
ghost use Rattle.query_model.specs.Names.{numeral_below, spelled_int as int_spelled, with_digit, with_digits};

/// The most numbers to which any digit can be added, below 2^64.
const ROOMY: u64 = 1_844_674_407_370_955_161;

/// The number with one digit more, or none where the byte is no digit or the number would be too
/// large.
fn add_digit(number: u64, b: u8) -> Option<u64>
    ensures { result ≡ with_digit number b }
{
    if b < b'0' || b > b'9' {
        return None;
    }
    let digit = u64::from(b - b'0');
    if number < ROOMY || (number == ROOMY && digit < 6) {
        Some(number * 10 + digit)
    } else {
        None
    }
}

/// The number that digits spell, 0 where there are none, if it is a UInt64.
pub fn digits_value(digits: &[u8]) -> Option<u64>
    ensures { result ≡ with_digits 0 digits.now }
{
    let mut number = 0;
    for b in digits {
        match add_digit(number, *b) {
            Some(more) => number = more,
            None => return None,
        }
    }
    Some(number)
}

/// The UInt64 that the field spells: one or more digits, with any number of zeros in front.
pub fn spelled_uint(field: &[u8]) -> Option<u64>
    ensures { result ≡ numeral_below (2 ^ 64) field.now }
{
    if field.is_empty() {
        return None;
    }
    digits_value(field)
}

/// The same below a limit.
fn spelled_below(limit: u64, field: &[u8]) -> Option<u64>
    ensures { result ≡ numeral_below limit field.now }
{
    match spelled_uint(field) {
        Some(number) => { if number < limit { Some(number) } else { None } }
        None => None,
    }
}

/// The number with the sign turned.
fn negated(size: u64) -> i64
    requires { size ≤ 2 ^ 63 }
    ensures { result ≡ neg_ℤ (pos size) }
{
    if size == 1 << 63 {
        i64::MIN
    } else {
        -(size as i64)
    }
}

/// The Int64 that the field spells: digits as of a UInt64, with one `-` or nothing in front.
pub fn spelled_int(field: &[u8]) -> Option<i64>
    ensures { result ≡ int_spelled field.now }
{
    if field.is_empty() {
        return None;
    }
    if field[0] == b'-' {
        match spelled_below((1 << 63) + 1, &field[1..]) {
            Some(size) => Some(negated(size)),
            None => None,
        }
    } else {
        match spelled_below(1 << 63, field) {
            Some(size) => Some(size as i64),
            None => None,
        }
    }
}
