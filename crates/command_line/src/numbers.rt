ghost use Rattle.std.specs.Prelude.{◌≡◌, ◌≤◌, length};
ghost use Rattle.command_line.specs.Numbers.{digits_number, number_of};

/// The most digits of a number word.
const MOST_DIGITS: usize = 10;

/// The number of a word of 1 to 10 decimal digits, where it is below 2^32.
pub fn read_number(word: &str) -> Option<u32>
    ensures { result ≡ number_of word.now }
{
    let digits = word.as_bytes();
    if digits.is_empty() || digits.len() > MOST_DIGITS {
        return None;
    }
    u32::try_from(number_of_digits(digits)?).ok()
}

/// The number of some decimal digits, or none where one of them is none.
fn number_of_digits(digits: &[u8]) -> Option<u64>
    requires { length digits.now ≤ MOST_DIGITS }
    ensures { result ≡ digits_number 0 digits.now }
{
    let mut number = 0u64;
    for digit in digits {
        if !digit.is_ascii_digit() {
            return None;
        }
        number = number * 10 + u64::from(*digit - b'0');
    }
    Some(number)
}
