//! Numbers in a script.

ghost use Rattle.std.specs.Prelude.{◌≡◌, ◌≤◌, ◌↔◌, length, IsSome, IfSome};
ghost use Rattle.std.specs.Str.Parse.{IsNumeral, digits_value};

/// Returns the number that 1 to 9 decimal digits write.
#[tactic(auto, using(crate::proofs::Numbers::numeral_parses))]
pub fn parse_number(text: &str) -> Option<usize>
    ensures number { IsSome result ↔ (IsNumeral 10 text.now × (length text.now ≤ 9)) }
    ensures value { IfSome result (λ number. number ≡ digits_value 10 text.now) }
{
    if text.len() > 9 || text.starts_with('+') {
        return None;
    }
    match text.parse() {
        Ok(number) => Some(number),
        Err(_) => None,
    }
}
