// Numbers in the texts that clap found.
ghost use Rattle.std.specs.Prelude.{◌≡◌, ◌≤◌, ◌<◌, ◌^◌, ◌&&◌, length, nat_le};
ghost use Rattle.std.specs.List.{list_all};
ghost use Rattle.command_model.specs.Options.{is_digit, has_no_leading_zero, value_of_digits, number_in, number_up_to};
ghost use Rattle.command_words.specs.Numbers.{is_number};

/// The number of 1 to 10 digits without a leading zero, below 2^32.
pub(crate) fn number(word: &str) -> Option<u32>
    ensures { result ≡ number_in word.now }
{
    let digits = word.as_bytes();
    if !is_number(digits) {
        return None;
    }
    let value = value_of(digits);
    if value <= u32::MAX as u64 {
        Some(value as u32)
    } else {
        None
    }
}

/// Such a number of at most 100.
pub(crate) fn percentage(word: &str) -> Option<u32>
    ensures { result ≡ number_up_to 100 word.now }
{
    let number = number(word)?;
    if number <= 100 { Some(number) } else { None }
}

// Whether bytes are 1 to 10 digits without a leading zero.
fn is_number(digits: &[u8]) -> bool
    ensures { result ≡ is_number digits.now }
{
    has_no_leading_zero(digits) && digits.len() <= 10 && are_digits(digits)
}

fn are_digits(bytes: &[u8]) -> bool
    ensures { result ≡ list_all is_digit bytes.now }
{
    bytes.iter().all(|b| 48 <= *b && *b <= 57)
}

// Whether bytes are a single one, or several that don't begin with 0.
fn has_no_leading_zero(digits: &[u8]) -> bool
    ensures { result ≡ has_no_leading_zero digits.now }
{
    match digits {
        [] => false,
        [_] => true,
        [first, ..] => *first != b'0',
    }
}

// The number of some digits.
fn value_of(digits: &[u8]) -> u64
    requires { length digits.now ≤ 10 }
    ensures { result ≡ value_of_digits digits.now }
{
    let mut value: u64 = 0;
    for digit in digits {
        value = 10 * value + u64::from(*digit).saturating_sub(48);
    }
    value
}
