//! Digits at the head of a text.
ghost use Rattle.std.specs.Prelude.{◌≡◌, ◌<◌, ◌≤◌, ◌^◌, length, slice_index, take, true, false};
ghost use Rattle.std.specs.Char.{is_digit};
ghost use Rattle.std.specs.List.{list_all};
ghost use Rattle.std.specs.Str.Parse.{digits_value};

/// Digits at the head of a text.
#[derive(Clone, Copy, Debug, PartialEq, Eq)]
pub struct Digits {
    /// The number that they write.
    pub value: u64,
    /// How many they are.
    pub len: usize,
}

/// The decimal digits at the head of a text, at most so many, found and read by one pass.
#[inline(always)]
pub fn read_digits(text: &[u8], most: usize) -> Digits
    requires { most ≤ 10 }
    ensures value { result.value ≡ digits_value 10 (take result.len text.now) }
    ensures digits { list_all (λ c. is_digit c 10) (take result.len text.now) ≡ true }
    ensures within { result.len ≤ length text.now }
    ensures short { result.len ≤ most }
    ensures whole { result.len < length text.now → result.len < most →
        is_digit (slice_index text.now result.len) 10 ≡ false }
    ensures small { result.value < 10 ^ result.len }
{
    let mut len = 0usize;
    let mut value = 0u64;
    while len < text.len() && len < most {
        let byte = text[len];
        if !byte.is_ascii_digit() {
            return Digits { value, len };
        }
        value = value * 10 + (byte - b'0') as u64;
        len += 1;
    }
    Digits { value, len }
}
