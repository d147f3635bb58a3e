//! The schedule of a traced run: numbers apart by blanks.
#![tactic(auto)]

ghost use Rattle.std.specs.Prelude.{◌≡◌, ◌+◌, ◌≤◌, ℕ, length, Ok, Err, IfOk};
ghost use Rattle.std.specs.List.{prefix_len};
ghost use Rattle.species_ast.specs.Limits.{most_bytes};
ghost use Rattle.species_ast.specs.Text.Characters.{is_blank};
ghost use Rattle.species_decimal.specs.Words.{is_solid, words_at};
ghost use Rattle.bones_schedule.specs.Schedule.{numbers_of};

use species_decimal::read_decimal;
use std::alloc::{AllocError, AllocFailed, Global};

/// Why a text is no schedule.
#[derive(Clone, Copy, Debug, PartialEq, Eq)]
pub enum ScheduleRefusal {
    /// The word at this place is no number of 32 bits.
    Syntax(u32),
    Memory,
}

impl From<AllocError> for ScheduleRefusal {
    ghost use Rattle.std.specs.Prelude.{◌≡◌};
    ghost use Rattle.bones_schedule.specs.declared.ScheduleRefusal.TheVariants.{Memory};

    ghost from_gives = { λ _ e. e ≡ Memory };

    fn from(_: AllocError) -> ScheduleRefusal {
        ScheduleRefusal::Memory
    }
}

impl<T: Drop> From<AllocFailed<T>> for ScheduleRefusal {
    ghost use Rattle.std.specs.Prelude.{◌≡◌};
    ghost use Rattle.bones_schedule.specs.declared.ScheduleRefusal.TheVariants.{Memory};

    ghost from_gives = { λ _ e. e ≡ Memory };

    fn from(_: AllocFailed<T>) -> ScheduleRefusal {
        ScheduleRefusal::Memory
    }
}

/// The numbers of a schedule, whose text stands at the place `base` of the input.
pub fn read_schedule(alloc: Global, text: &[u8], base: u32) -> Result<Vec<u32>, ScheduleRefusal>
    requires { base + length text.now ≤ most_bytes }
    ensures numbers { IfOk result (λ v. numbers_of (words_at is_blank base text.now) ≡ Ok v.items) }
    ensures syntax { (place : ℕ) → result ≡ Err (ScheduleRefusal.Syntax place) → numbers_of (words_at is_blank base text.now) ≡ Err place }
{
    let mut numbers = Vec::new(alloc);
    let mut at = 0;
    while at < text.len() {
        let len = word_len(&text[at..]);
        if len == 0 {
            at += 1;
        } else {
            let word = &text[at..at + len];
            match read_decimal(word, 4_294_967_295) {
                Some(number) => numbers.push(number as u32)?,
                None => return Err(ScheduleRefusal::Syntax(base + at as u32)),
            }
            at += len;
        }
    }
    Ok(numbers)
}

/// How many bytes of a word stand at the front.
fn word_len(bytes: &[u8]) -> usize
    ensures value { result ≡ prefix_len (is_solid is_blank) bytes.now }
    ensures within { result ≤ length bytes.now }
{
    bytes.iter().take_while(|b| is_solid(**b)).count()
}

/// No space, tab, line feed, vertical tab, form feed or carriage return.
fn is_solid(b: u8) -> bool
    ensures { result ≡ is_solid is_blank b }
{
    b != b' ' && (b < 9 || 13 < b)
}

#[cfg(test)]
mod tests {
    use super::{ScheduleRefusal, read_schedule};
    use std::test::Fail;

    #[test]
    fn numbers_are_read(rt: HostRuntime) -> Result<(), Fail> {
        let texts: [(&[u8], &[u32]); 5] = [
            (b"3 2 1 0 0 0 0 0\n", &[3, 2, 1, 0, 0, 0, 0, 0]),
            (b"2 0 1", &[2, 0, 1]),
            (b"", &[]),
            (b" \t\r\n\x0b\x0c", &[]),
            (b"\n4294967295\x0b7\x0c0", &[4_294_967_295, 7, 0]),
        ];
        for (text, numbers) in texts {
            match read_schedule(rt.alloc(), text, 7) {
                Ok(read) => assert!(rt; read.as_slice() == numbers),
                Err(refusal) => assert!(rt; false, "{refusal:?}"),
            }
        }
        Ok(())
    }

    #[test]
    fn other_words_are_refused(rt: HostRuntime) -> Result<(), Fail> {
        let texts: [(&[u8], u32, u32); 6] = [
            (b"3 x", 118, 120),
            (b"3\n%%\n1", 118, 120),
            (b"1 01 02", 0, 2),
            (b"4294967296", 4_194_294, 4_194_294),
            (b" +1", 0, 1),
            (b"1,2", 9, 9),
        ];
        for (text, base, place) in texts {
            match read_schedule(rt.alloc(), text, base) {
                Ok(_) => assert!(rt; false, "{place}"),
                Err(refusal) => assert!(rt; refusal == ScheduleRefusal::Syntax(place), "{place}"),
            }
        }
        Ok(())
    }
}
