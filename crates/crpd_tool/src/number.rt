// A command word that is a number.
ghost use Rattle.std.specs.Prelude.{◌≡◌, ◌^◌, ◌<◌, ◌≤◌, true, length, option_map};
ghost use Rattle.std.specs.List.{list_all};
ghost use Rattle.crpd_tool.specs.Numbers as spec;
ghost use Rattle.crpd_tool.specs.Numbers.{command_number};

/// The number of a generated input, below 2^31.
#[derive(Clone, Copy)]
pub struct Seed {
    /// The number itself: 0 to 2^31 - 1.
    pub number: u32,
    ghost small: { number < 2 ^ 31 },
}

fn is_digit(byte: u8) -> bool
    ensures { result ≡ spec.is_digit byte }
{
    b'0' <= byte && byte <= b'9'
}

fn is_short(word: &[u8]) -> bool
    ensures { result ≡ spec.is_short word.now }
{
    1 <= word.len() && word.len() <= 10
}

fn has_no_leading_zero(word: &[u8]) -> bool
    requires { 1 ≤ length word.now }
    ensures { result ≡ spec.has_no_leading_zero word.now }
{
    word.len() == 1 || word[0] != b'0'
}

fn are_digits(word: &[u8]) -> bool
    ensures { result ≡ list_all spec.is_digit word.now }
{
    word.iter().all(|byte| is_digit(*byte))
}

/// Whether a word is 1 to 10 digits, without a leading 0 if there are several.
fn is_number(word: &[u8]) -> bool
    ensures { result ≡ spec.is_number word.now }
{
    is_short(word) && has_no_leading_zero(word) && are_digits(word)
}

/// The number that digits write.
fn value(digits: &[u8]) -> u64
    requires few { length digits.now ≤ 10 }
    requires digits { list_all spec.is_digit digits.now ≡ true }
    ensures { result ≡ spec.value_after 0 digits.now }
{
    let mut number = 0u64;
    for digit in digits {
        number = 10 * number + u64::from(*digit - b'0');
    }
    number
}

/// The number that a word writes: 0, or 1 to 10 decimal digits without a leading 0; below 2^31.
pub fn read_number(word: &str) -> Option<Seed>
    ensures { option_map (λ seed. seed.number) result ≡ command_number word.now }
{
    if !is_number(word.as_bytes()) {
        return None;
    }
    let number = value(word.as_bytes());
    if number < 0x8000_0000 {
        return Some(Seed {
            number: number as u32,
        });
    }
    None
}
