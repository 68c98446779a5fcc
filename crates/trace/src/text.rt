// A text cut at a separator.
ghost use Rattle.std.specs.Prelude.{◌≡◌, ◌<◌, length, IfSome};
ghost use Rattle.std.specs.Option.{option_map};
ghost use Rattle.trace.specs.Pieces.{CutAt, before, after};

// What stands before the first `end`, and what follows it, if there is one.
pub fn cut(s: &[u8], end: u8) -> (&[u8], Option<&[u8]>)
    ensures first { result.0.now ≡ before end s.now }
    ensures rest { option_map (λ x. x.now) result.1 ≡ after end s.now }
    ensures law { CutAt end s.now result.0.now (option_map (λ x. x.now) result.1) }
    ensures less { IfSome result.1 (λ t. length t.now < length s.now) }
{
    match s.iter().position(|b| *b == end) {
        Some(at) => (&s[..at], Some(&s[at + 1..])),
        None => (s, None),
    }
}
