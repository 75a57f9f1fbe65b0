//! Numbers as they are read and written.
use ad_base::{digits, number};

// Texts, and the numbers that they are the decimals of.
static TEXTS: [(&str, Option<u64>); 10] = [
    ("0", Some(0)),
    ("7", Some(7)),
    ("4294967295", Some(4_294_967_295)),
    ("9999999999", Some(9_999_999_999)),
    ("", None),
    ("00", None),
    ("07", None),
    ("+7", None),
    ("7 ", None),
    ("10000000000", None),
];

#[test]
fn numbers_of_texts(rt: HostRuntime) {
    for (text, value) in &TEXTS {
        assert!(rt; number(text.as_bytes()) == *value, "at {text}");
    }
}

#[test]
fn digits_of_the_largest(rt: HostRuntime) {
    let mut out = [b'x'; 20];
    let count = digits(18_446_744_073_709_551_615, &mut out);
    assert!(rt; count == 20);
    assert!(rt; out.as_slice() == b"18446744073709551615".as_slice());
}
