//! Numbers as words: digits, of which the first is 0 only where it stands alone.
#![tactic(auto)]

ghost use Rattle.std.specs.Prelude.{◌≡◌, ◌↔◌, ◌≤◌, ◌<◌, ℕ, length, slice_index, decimal, Some, IfSome, IsTrue};
ghost use Rattle.std.specs.Option.{SomeIff};
ghost use Rattle.std.specs.Str.Parse.{AllDigits, digits_value};
ghost use Rattle.species_decimal.specs.Number.{number_of};

/// The number that the word writes, if it is at most `most`. There is no sign and no leading zero.
pub fn read_decimal(word: &[u8], most: u64) -> Option<u64>
    ensures value { result ≡ number_of most word.now }

    // The same in the words of what a number is written as.
    ensures written { IfSome result (λ n. (word.now ≡ decimal n) × (n ≤ most)) }
    ensures read { (n : ℕ) → n ≤ most → word.now ≡ decimal n → result ≡ Some n }
{
    if begins_well(word) {
        number(word, most)
    } else {
        None
    }
}

/// Something stands there, and a leading zero stands alone.
fn begins_well(word: &[u8]) -> bool
    ensures { IsTrue result ↔ ((0 < length word.now) × (slice_index word.now 0 ≡ 48 → length word.now ≡ 1)) }
{
    !word.is_empty() && (word[0] != b'0' || word.len() == 1)
}

/// The number that the digits write, if they are digits and it is at most `most`.
fn number(digits: &[u8], most: u64) -> Option<u64>
    ensures { SomeIff result (AllDigits 10 digits.now × (digits_value 10 digits.now ≤ most)) (digits_value 10 digits.now) }
{
    let mut number: u128 = 0;
    for digit in digits {
        let Some(value) = char::from(*digit).to_digit(10) else {
            return None;
        };
        number = number * 10 + u128::from(value);
        if number > u128::from(most) {
            return None;
        }
    }
    Some(number as u64)
}

#[cfg(test)]
mod tests {
    use super::read_decimal;
    use std::test::Fail;

    #[test]
    fn words_are_read(rt: HostRuntime) -> Result<(), Fail> {
        let numbers: [(&[u8], u64, Option<u64>); 10] = [
            (b"0", 0, Some(0)),
            (b"10", 10, Some(10)),
            (b"11", 10, None),
            (b"18446744073709551615", u64::MAX, Some(u64::MAX)),
            (b"18446744073709551616", u64::MAX, None),
            (b"", 9, None),
            (b"01", 9, None),
            (b"00", 9, None),
            (b"+1", 9, None),
            (b"1a", 99, None),
        ];
        for (word, most, number) in numbers {
            assert_eq!(rt; read_decimal(word, most), number);
        }
        Ok(())
    }
}
