// Numbers that look random: those of SplitMix64, and each place of an order once.
use crate::chance::{Chance, Scatter, mixed};
use crate::digest::Digest;
use std::test::Fail;

// How many numbers an order has here.
const COUNT: u64 = 64;

#[test]
fn numbers_are_those_of_split_mix(rt: HostRuntime) -> Result<(), Fail> {
    // the first two of the seed 1234567, as they are widely listed
    let step: u64 = 0x9E37_79B9_7F4A_7C15;
    let first = step.wrapping_add(1_234_567);
    assert!(&rt; mixed(first) == 6_457_827_717_110_365_317);
    assert!(&rt; mixed(first.wrapping_add(step)) == 3_203_168_211_198_807_973);
    Ok(())
}

#[test]
fn an_order_has_each_number_once(rt: HostRuntime) -> Result<(), Fail> {
    let order = Scatter::of(COUNT, &mut Chance::new(7));
    let mut met: u64 = 0;
    for place in 0..COUNT {
        let number = order.at(place);
        assert!(&rt; number < COUNT);
        met |= 1 << (number % COUNT);
    }
    assert!(&rt; met == u64::MAX);
    Ok(())
}

#[test]
fn a_digest_tells_an_order(rt: HostRuntime) -> Result<(), Fail> {
    let mut digest = Digest::new();
    digest.add_bytes(b"ninebytes");
    let mut other = Digest::new();
    other.add_bytes(b"ninebytse");
    assert!(&rt; digest.number != other.number);
    Ok(())
}
