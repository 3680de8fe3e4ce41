//! Admission of a new client to the clients of a service.
use service_rules::{Admission, Client, admit, first_to_go};
use std::alloc::Global;
use std::test::Fail;

// The number of places.
const PLACES: usize = 64;

// This number of clients, each heard at the moment 50,000, except these.
fn clients(alloc: Global, count: usize, others: &[Client]) -> Result<Vec<Client>, Fail> {
    let mut clients = Vec::new(alloc);
    for key in 0..count {
        let mut client = Client {
            key,
            heard: 50_000,
            listens: false,
        };
        for other in others {
            if other.key == key {
                client = *other;
            }
        }
        clients.push(client)?;
    }
    Ok(clients)
}

// Of clients heard at these moments, 7 and then 9 are replaced first. The client with key 5 listens.
const OTHERS: [Client; 4] = [
    Client {
        key: 9,
        heard: 40_000,
        listens: false,
    },
    Client {
        key: 7,
        heard: 40_000,
        listens: false,
    },
    Client {
        key: 5,
        heard: 30_000,
        listens: true,
    },
    Client {
        key: 3,
        heard: 41_000,
        listens: false,
    },
];

#[test]
fn the_longest_idle_client_goes_for_a_newcomer(rt: HostRuntime) -> Result<(), Fail> {
    let full = clients(rt.alloc(), PLACES, &OTHERS)?;
    assert!(rt; matches!(admit(&full, PLACES, 49_999), Admission::Busy));
    assert!(rt; matches!(admit(&full, PLACES, 50_000), Admission::InsteadOf(7)));
    assert!(rt; matches!(admit(&full, PLACES, 60_000), Admission::InsteadOf(7)));
    Ok(())
}

#[test]
fn a_newcomer_has_a_free_place(rt: HostRuntime) -> Result<(), Fail> {
    let some = clients(rt.alloc(), PLACES - 1, &OTHERS)?;
    assert!(rt; matches!(admit(&some, PLACES, 60_000), Admission::Free));
    assert!(rt; matches!(first_to_go(&some, 60_000), Some(Client { key: 7, .. })));
    assert!(rt; first_to_go(&some, 49_999).is_none());
    Ok(())
}
