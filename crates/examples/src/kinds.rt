//! Kinds of delay.
use delay::{Contact, Delay, Early, Picoseconds};

#[test]
fn a_million_picoseconds_are_lawful(rt: HostRuntime) {
    assert!(rt; Picoseconds(1_000_000).lawful());
    assert!(rt; !Picoseconds(1_000_001).lawful());
    assert!(rt; Early(Picoseconds(1_000_000)).lawful());
    assert!(rt; !Early(Picoseconds(1_000_001)).lawful());
}

#[test]
fn contacts_are_lawful_up_to_255(rt: HostRuntime) {
    assert!(rt;
        Contact {
            picoseconds: 1_000_000,
            contacts: 255,
        }
        .lawful()
    );
    assert!(rt;
        !Contact {
            picoseconds: 1_000_001,
            contacts: 255,
        }
        .lawful()
    );
    assert!(rt;
        !Contact {
            picoseconds: 1_000_000,
            contacts: 256,
        }
        .lawful()
    );
}

#[test]
fn picoseconds_come_before_contacts(rt: HostRuntime) {
    let few = Contact {
        picoseconds: 3,
        contacts: 9,
    };
    let many = Contact {
        picoseconds: 4,
        contacts: 0,
    };
    assert!(rt; few.below(many));
    assert!(rt; !many.below(few));
    assert!(rt;
        Contact {
            picoseconds: 3,
            contacts: 0,
        }
        .below(few)
    );
}

#[test]
fn the_early_kind_turns_the_order(rt: HostRuntime) {
    assert!(rt; Early(Picoseconds(2)).below(Early(Picoseconds(1))));
    assert!(rt; !Early(Picoseconds(1)).below(Early(Picoseconds(2))));
    assert!(rt; !Early(Picoseconds(1)).below(Early(Picoseconds(1))));
}

#[test]
fn no_sum_wraps(rt: HostRuntime) {
    assert_eq!(rt; Picoseconds(u32::MAX).plus(Picoseconds(1)).0, u32::MAX);
    assert_eq!(rt;
        Picoseconds(4_094_000_000).plus(Picoseconds(1_000_000)).0,
        4_095_000_000
    );
}

#[test]
fn readings(rt: HostRuntime) {
    let late: Picoseconds = <Picoseconds as Delay>::read(7, 3);
    assert_eq!(rt; late.0, 7);
    let contact: Contact = <Contact as Delay>::read(7, 3);
    assert_eq!(rt; contact.picoseconds, 7);
    assert_eq!(rt; contact.contacts, 3);
}
