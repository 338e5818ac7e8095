// A comparison of elements that take `beyond` as it is, as those of another crate may.
#![tactic(auto)]

ghost use Rattle.std.specs.Prelude.{ℕ, ◌-◌, Bool, eqb, min, length, slice_index};

use super::*;

// Beyond what is expected one is as expected if it repeats the last byte of that, or is 0 where nothing is.
impl Element for u16 {
    ghost untouched = { 0 };

    ghost count = { λ n. n };

    ghost same = { λ out expected i. eqb (slice_index out i) (slice_index expected (min i (length expected - 1))) };

    fn untouched() -> u16 {
        0
    }

    fn count(expected: &[u8]) -> usize {
        expected.len()
    }

    fn same(out: &[u16], expected: &[u8], i: usize) -> bool {
        let at = i.min(expected.len().saturating_sub(1));
        out[i] == u16::from(expected.get(at).copied().unwrap_or(0))
    }
}

#[test]
fn other_elements_are_compared_with_what_is_expected(rt: HostRuntime) {
    let mut out: [u16; 100] = untouched();
    assert!(rt; holds(&out, &[]));
    assert!(rt; !holds(&out, &[3]));
    out = [3; 100];
    assert!(rt; holds(&out, &[3]));
    out[99] = 0;
    assert!(rt; !holds(&out, &[3]));
    assert!(rt; !holds(&out[..1], &[3, 3]));
}
