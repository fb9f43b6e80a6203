// Numbers as fields spell them, without a test at each digit.
ghost use Rattle.std.specs.Prelude.{◌≡◌, ◌+◌, ◌-◌, ◌*◌, ◌<◌, ◌^◌, true};
ghost use Rattle.std.specs.Char.{is_ascii_digit};
ghost use Rattle.query_model.specs.Names.{numeral_below, spelled_int as int_spelled};

use query_model::numerals;

/// So many digits never spell a number that is too large.
const SHORT: usize = 18;

// The number with one digit more, where it is small.
#[inline(always)]
fn with_digit(number: u64, b: u8) -> u64
    ensures { number < 10 ^ 17 → is_ascii_digit b ≡ true → result ≡ number * 10 + (b - 48) }
{
    number
        .wrapping_mul(10)
        .wrapping_add(u64::from(b.wrapping_sub(b'0')))
}

/// The UInt64 that the field spells. All bytes of a short one are read, whatever they are, since a
/// way out in the middle would cost more.
#[inline(always)]
pub(crate) fn spelled_uint(field: &[u8]) -> Option<u64>
    ensures { result ≡ numeral_below (2 ^ 64) field.now }
{
    if field.is_empty() || field.len() > SHORT {
        return numerals::spelled_uint(field);
    }
    let mut number = 0;
    let mut good = true;
    for b in field {
        good &= b.is_ascii_digit();
        number = with_digit(number, *b);
    }
    if good { Some(number) } else { None }
}

#[inline(always)]
pub(crate) fn spelled_int(field: &[u8]) -> Option<i64>
    ensures { result ≡ int_spelled field.now }
{
    if field.is_empty() {
        return None;
    }
    if field[0] == b'-' {
        0i64.checked_sub_unsigned(spelled_uint(&field[1..])?)
    } else {
        0i64.checked_add_unsigned(spelled_uint(field)?)
    }
}
