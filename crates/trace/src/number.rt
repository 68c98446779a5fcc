// Numbers: decimal, with no leading zero.
ghost use Rattle.std.specs.Prelude.{◌≡◌, ◌<◌, length};
ghost use Rattle.std.specs.Result.{result_ok};
ghost use Rattle.trace.specs.Numbers.{ReadsDecimal, digits_on, number, read_as};

// Why a text is read as none of the numbers that a field may take.
#[derive(Clone, Copy, PartialEq, Eq, Debug)]
pub(crate) enum NumberFault {
    NotANumber,
    TooLarge,
}

// The number that `s` writes. It only adds the law to what is computed below, so that one lemma proves it.
pub(crate) fn read_number(s: &[u8]) -> Result<u64, NumberFault>
    ensures value { result ≡ read_as (number s.now) }
    ensures decimal { ReadsDecimal s.now (result_ok result) }
{
    without_leading_zero(s)
}

fn without_leading_zero(s: &[u8]) -> Result<u64, NumberFault>
    ensures { result ≡ read_as (number s.now) }
{
    match s {
        [] => Err(NumberFault::NotANumber),
        // Most words are one digit, which needs no parse.
        [digit @ b'0'..=b'9'] => Ok((*digit - b'0') as u64),
        [b'0', _, ..] => Err(NumberFault::NotANumber),
        _ => read_digits(s),
    }
}

fn read_digits(s: &[u8]) -> Result<u64, NumberFault>
    requires { 0 < length s.now }
    ensures { result ≡ read_as (digits_on 0 s.now) }
{
    if !s.iter().all(u8::is_ascii_digit) {
        return Err(NumberFault::NotANumber);
    }
    let Ok(text) = str::from_utf8(s) else {
        return Err(NumberFault::NotANumber);
    };
    u64::from_str_radix(text, 10).map_err(|_| NumberFault::TooLarge)
}
