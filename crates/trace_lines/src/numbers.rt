//! Numbers in front of what is left of a line, each read as its end is looked for.
ghost use Rattle.std.specs.Prelude.{◌≡◌, ◌≤◌, true, Some, IfSome, length, take};
ghost use Rattle.std.specs.List.{list_all};
ghost use Rattle.std.specs.Str.Parse.{digits_value};
ghost use Rattle.rams_model.specs.Texts.{is_digit, number_in, one, words_of};
ghost use Rattle.trace_lines.specs.{words_left};

/// Most digits of a number.
const MOST_DIGITS: usize = 15;

/// The number that the first word of the bytes is, and what stands after its space; none where it is no
/// number, or is longer than one.
pub fn first_number(bytes: &[u8]) -> Option<(u64, Option<&[u8]>)>
    ensures { IfSome result (λ read. one number_in (words_of bytes.now) ≡ Some (read.0, words_left read.1)) }
{
    let (value, count) = leading_digits(bytes);
    if count == 0 {
        return None;
    }
    if (count > 1) & (bytes[0] == b'0') {
        return None;
    }
    if count == bytes.len() {
        return Some((value, None));
    }
    if bytes[count] != b' ' {
        return None;
    }
    Some((value, Some(&bytes[count + 1..])))
}

// What the digits in front stand for, and how many there are; no more than a number may have.
fn leading_digits(bytes: &[u8]) -> (u64, usize)
    ensures few { result.1 ≤ 15 }
    ensures within { result.1 ≤ length bytes.now }
    ensures digits { list_all is_digit (take result.1 bytes.now) ≡ true }
    ensures value { result.0 ≡ digits_value 10 (take result.1 bytes.now) }
{
    let most = bytes.len().min(MOST_DIGITS);
    let mut value = 0;
    'digits: for count in 0..most {
        if !bytes[count].is_ascii_digit() {
            return (value, count);
        }
        value = value * 10 + u64::from(bytes[count] - b'0');
    }
    (value, most)
}
