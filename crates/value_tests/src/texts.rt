use crate::makers::name;
use svc_values::{Ltxid, Name, NameFault, Octets, Text, TextFault, TryCopy, has_name};

#[test]
fn names_keep_to_their_letters(rt: HostRuntime) {
    for text in ["a", "a_9", "z234567890123456"] {
        assert!(rt; Name::new(rt.alloc(), text).is_ok(), "{text}");
    }
    let others = [
        "",
        "9a",
        "_a",
        "A",
        "aB",
        "a-b",
        "a b",
        "ä",
        "z2345678901234567",
    ];
    for text in others {
        let made = Name::new(rt.alloc(), text);
        assert!(rt; matches!(made, Err(NameFault::BadName)), "{text}");
    }
}

#[test]
fn a_name_is_copied_where_it_lies(rt: HostRuntime) {
    let copied = name(&rt, rt.alloc(), "z234567890123456").copied();
    assert_eq!(rt; copied.as_str(), "z234567890123456");
    assert!(rt; copied.copy(rt.alloc()).is_ok_and(|copy| copy == copied));
}

const LONGEST: &str = "0123456789abcdef0123456789abcdef0123456789abcdef0123456789abcdef";

const LONGER: &str = "0123456789abcdef0123456789abcdef0123456789abcdef0123456789abcdef.";

#[test]
fn texts_have_at_most_64_bytes(rt: HostRuntime) {
    assert!(rt; Text::new(rt.alloc(), LONGEST).is_ok());
    assert!(rt; matches!(Text::new(rt.alloc(), LONGER), Err(TextFault::TooLong)));
}

#[test]
fn octets_are_at_most_64(rt: HostRuntime) {
    let bytes = [b'x'; 65];
    assert!(rt; Octets::new(rt.alloc(), &bytes[..64]).is_ok());
    assert!(rt; matches!(Octets::new(rt.alloc(), &bytes), Err(TextFault::TooLong)));
}

#[test]
fn identifiers_end_at_two_to_the_63(rt: HostRuntime) {
    let most = 1 << 63;
    let (incarnation, session) = (most, most);
    for (number, wanted) in [(most, true), (most + 1, false)] {
        let ltxid = Ltxid {
            incarnation,
            session,
            number,
        };
        assert_eq!(rt; ltxid.is_ltxid(), wanted);
    }
}

#[test]
fn a_name_is_one_of_these(rt: HostRuntime) {
    let names = [name(&rt, rt.alloc(), "a"), name(&rt, rt.alloc(), "b")];
    assert!(rt; has_name(&names, &name(&rt, rt.alloc(), "b")));
    assert!(rt; !has_name(&names, &name(&rt, rt.alloc(), "c")));
}
