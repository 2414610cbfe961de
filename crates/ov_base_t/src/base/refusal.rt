//! Numbers and words of refusals.

use ov_base::Refusal;

#[test]
fn numbers_and_words(rt: HostRuntime) {
    let words = [
        "Taken",
        "NoUser",
        "NoFile",
        "NoPath",
        "Listed",
        "NotListed",
        "UsersFull",
        "FilesFull",
        "BytesFull",
        "NodesFull",
        "Spent",
    ];
    let mut number = 0u8;
    for word in words {
        number = number.saturating_add(1);
        let refusal = Refusal::from_number(number).expect(&rt, "a refusal");
        assert_eq!(rt; refusal.number(), number);
        assert_eq!(rt; refusal.word(), word);
    }
    for number in [0, 12, 255] {
        assert!(rt; Refusal::from_number(number).is_none());
    }
}
