// Numbers, in decimal without leading zeros.
ghost use Rattle.std.specs.Prelude.{◌≡◌, ◌≤◌, IfSome};
ghost use Rattle.notation.specs.Numbers.{scan, read_number, some_seen};

// The digits at the front of `s`, and the text after them; 1000 stands for all larger numbers.
fn digits(mut s: &[u8]) -> (u16, &[u8])
    ensures read { (result.0, result.1.now) ≡ scan 0 s.now }
    ensures small { result.0 ≤ 1000 }
{
    let mut n = 0;
    while let [d @ b'0'..=b'9', rest @ ..] = s {
        n = (n * 10 + u16::from(*d - b'0')).min(1000);
        s = rest;
    }
    (n, s)
}

// The number at the front of `s`, at most `most`, and the text after it.
pub(crate) fn number(most: u16, s: &[u8]) -> Option<(u16, &[u8])>
    ensures read { some_seen result ≡ read_number most s.now }
    ensures small { IfSome result (λ p. p.0 ≤ 1000) }
{
    match s {
        [b'0', b'0'..=b'9', ..] => None,
        [b'0'..=b'9', ..] => {
            let (n, rest) = digits(s);
            (n <= most).then_some((n, rest))
        }
        _ => None,
    }
}
