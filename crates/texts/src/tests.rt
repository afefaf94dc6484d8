// The worked examples: each expected text is written out by hand.
use crate::decimal::{decimal_length, put_decimal};
use crate::short::TextTooShort;
use crate::writing::put_all;

#[test]
fn stands_where_it_is_put(rt: HostRuntime) {
    let mut text = *b"..........";
    put_decimal(&mut text, 3, 65535);
    assert_eq!(rt; text, *b"...65535..");
    put_all(&mut text, 0, b"no");
    assert_eq!(rt; text, *b"no.65535..");
}

#[test]
fn is_cut_where_the_text_ends(rt: HostRuntime) {
    let mut text = *b"....";
    put_decimal(&mut text, 2, 9078);
    assert_eq!(rt; text, *b"..90");
    put_all(&mut text, 18446744073709551615, b"past");
    assert_eq!(rt; text, *b"..90");
    assert_eq!(rt; TextTooShort.number(), 36);
}

#[test]
fn has_so_many_digits(rt: HostRuntime) {
    assert_eq!(rt; decimal_length(0), 1);
    assert_eq!(rt; decimal_length(10), 2);
    assert_eq!(rt; decimal_length(18446744073709551615), 20);
}
