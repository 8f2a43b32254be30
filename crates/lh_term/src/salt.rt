//! Numbers by which constants are hashed.
ghost use Rattle.std.specs.Prelude.{◌≡◌};
ghost use Rattle.lh_types.specs.Values.{data_row};
ghost use Rattle.lh_types.specs.ValueOf.{datum_of};
ghost use Rattle.lh_term.specs.Fed as fed;

use lh_types::val::{Val, ValList};

/// A number that tells constants apart, mostly: all that the value has goes into it, as constants that differ in little are many.
#[cycle(salt)]
pub(crate) fn salt_of_value(v: &Val) -> u128
    ensures { result ≡ fed.salt_of_value (datum_of v.now) }
{
    match v {
        Val::Int { width, bits } => mix(*width as u128, *bits),
        Val::Time(d) => mix(mix(d.fs as u128, d.delta as u128), d.eps as u128),
        Val::Array(vs) => salt_of_parts(129, vs),
        Val::Tuple(vs) => salt_of_parts(130, vs),
    }
}

/// The number of these parts behind a first number.
#[cycle(salt)]
fn salt_of_parts(first: u128, vs: &ValList) -> u128
    ensures { result ≡ fed.salt_of_row first (data_row vs.now) }
{
    let mut salt = first;
    for v in vs.as_slice() {
        salt = mix(salt, salt_of_value(v));
    }
    salt
}

/// One number for two.
#[tactic(auto, unfolding(crate::specs::Fed::mixed))]
fn mix(first: u128, second: u128) -> u128
    ensures { result ≡ fed.mixed first second }
{
    first.wrapping_mul(6364136223846793005).wrapping_add(second)
}
