use super::*;
use std::test::*;

/// A body of 21 bytes.
const BODY: [u8; 21] = [
    0, 0, 2, 1, 0, 0, 0, 0, 0, 0, 0, 1, 1, 0, 0, 0, 0, 0, 0, 0, 10,
];

/// Call 1 at point 4 with that body.
const SP: [u8; 38] = [
    1, 0, 0, 0, 1, 0, 0, 0, 0, 0, 0, 0, 4, 0, 0, 0, 21, 0, 0, 2, 1, 0, 0, 0, 0, 0, 0, 0, 1, 1, 0,
    0, 0, 0, 0, 0, 0, 10,
];

/// The same call of client 1.
const CLIENT_SP: [u8; 39] = [
    4, 0, 0, 0, 1, 1, 0, 0, 0, 0, 0, 0, 0, 4, 0, 0, 0, 21, 0, 0, 2, 1, 0, 0, 0, 0, 0, 0, 0, 1, 1,
    0, 0, 0, 0, 0, 0, 0, 10,
];

/// Transaction 6 is aborted as call 5 of client 7 at point 9, with the reply 1, 2.
const CLIENT_ABORTED: [u8; 29] = [
    5, 0, 0, 0, 0, 0, 0, 0, 6, 2, 0, 0, 0, 5, 7, 0, 0, 0, 0, 0, 0, 0, 9, 0, 0, 0, 2, 1, 2,
];

/// Round 2 of transaction 258 with the body 7, 8, and a byte after it.
const FRAG: [u8; 18] = [2, 0, 0, 0, 0, 0, 0, 1, 2, 0, 2, 0, 0, 0, 2, 7, 8, 99];

/// Transaction 6 is kept as call 5 at point 9.
const KEPT: [u8; 22] = [
    3, 0, 0, 0, 0, 0, 0, 0, 6, 1, 0, 0, 0, 5, 0, 0, 0, 0, 0, 0, 0, 9,
];

#[test]
fn bytes(rt: HostRuntime) -> Result<(), Fail> {
    let alloc = rt.alloc();
    let copied = Bytes::of(alloc, b"abc")?.copy(alloc)?;
    assert_eq!(rt; copied.as_slice(), b"abc".as_slice());
    let held = copied.into_vec();
    assert_eq!(rt; held.as_slice(), b"abc".as_slice());
    assert_eq!(rt; Bytes::from_vec(held).as_slice(), b"abc".as_slice());
    Ok(())
}

#[test]
fn written(rt: HostRuntime) -> Result<(), Fail> {
    let alloc = rt.alloc();
    let body = Bytes::of(alloc, &BODY)?;
    let call = Entry::Sp {
        call: 1,
        client: 0,
        point: 4,
        body,
    };
    assert_eq!(rt; call.encode(alloc)?.as_slice(), SP.as_slice());
    let body = Bytes::of(alloc, &BODY)?;
    let call = Entry::Sp {
        call: 1,
        client: 1,
        point: 4,
        body,
    };
    assert_eq!(rt; call.encode(alloc)?.as_slice(), CLIENT_SP.as_slice());
    let outcome = Outcome::Kept {
        call: 5,
        client: 0,
        point: 9,
        reply: Bytes::of(alloc, &[])?,
    };
    let end = Entry::Done {
        transaction: 6,
        outcome,
    };
    assert_eq!(rt; end.encode(alloc)?.as_slice(), KEPT.as_slice());
    let outcome = Outcome::Aborted {
        call: 5,
        client: 7,
        point: 9,
        reply: Bytes::of(alloc, &[1, 2])?,
    };
    let end = Entry::Done {
        transaction: 6,
        outcome,
    };
    assert_eq!(rt; end.encode(alloc)?.as_slice(), CLIENT_ABORTED.as_slice());
    Ok(())
}

#[test]
fn read(rt: HostRuntime) -> Result<(), Fail> {
    one_spelling();
    let alloc = rt.alloc();
    match Entry::decode(alloc, &SP)? {
        Some(
            (
                Entry::Sp {
                    call,
                    client,
                    point,
                    body,
                },
                38,
            ),
        ) => {
            assert_eq!(rt; (call, client, point), (1, 0, 4));
            assert_eq!(rt; body.as_slice(), BODY.as_slice());
        }
        _ => return Err("the bytes are a call".into()),
    }
    match Entry::decode(alloc, &CLIENT_SP)? {
        Some(
            (
                Entry::Sp {
                    call,
                    client,
                    point,
                    body,
                },
                39,
            ),
        ) => {
            assert_eq!(rt; (call, client, point), (1, 1, 4));
            assert_eq!(rt; body.as_slice(), BODY.as_slice());
        }
        _ => return Err("the bytes are a client's call".into()),
    }
    match Entry::decode(alloc, &FRAG)? {
        Some(
            (
                Entry::Frag {
                    transaction,
                    round,
                    body,
                },
                17,
            ),
        ) => {
            assert_eq!(rt; (transaction, round), (258, 2));
            assert_eq!(rt; body.as_slice(), [7, 8].as_slice());
        }
        _ => return Err("the bytes are a round".into()),
    }
    match Entry::decode(alloc, &KEPT)? {
        Some(
            (
                Entry::Done {
                    transaction,
                    outcome,
                },
                22,
            ),
        ) => {
            assert_eq!(rt; transaction, 6);
            match outcome {
                Outcome::Kept {
                    call,
                    client,
                    point,
                    reply,
                } => {
                    assert_eq!(rt; (call, client, point), (5, 0, 9));
                    assert!(rt; reply.as_slice().is_empty());
                }
                _ => return Err("it was kept".into()),
            }
        }
        _ => return Err("the bytes are an end".into()),
    }
    match Entry::decode(alloc, &CLIENT_ABORTED)? {
        Some(
            (
                Entry::Done {
                    transaction,
                    outcome: Outcome::Aborted {
                        call,
                        client,
                        point,
                        reply,
                    },
                },
                29,
            ),
        ) => {
            assert_eq!(rt; transaction, 6);
            assert_eq!(rt; (call, client, point), (5, 7, 9));
            assert_eq!(rt; reply.as_slice(), [1, 2].as_slice());
        }
        _ => return Err("the bytes are the end of a client's call".into()),
    }
    Ok(())
}

#[test]
fn not_read(rt: HostRuntime) -> Result<(), Fail> {
    let alloc = rt.alloc();
    let unknown_outcome = [
        3, 0, 0, 0, 0, 0, 0, 0, 6, 4, 0, 0, 0, 0, 0, 0, 0, 0, 0, 0, 0, 0,
    ];
    let dropped_at_a_point = [
        3, 0, 0, 0, 0, 0, 0, 0, 6, 0, 0, 0, 0, 0, 0, 0, 0, 0, 0, 0, 0, 9,
    ];
    assert!(rt; Entry::decode(alloc, &[])?.is_none());
    assert!(rt; Entry::decode(alloc, &[4])?.is_none());
    assert!(rt; Entry::decode(alloc, &SP[..37])?.is_none());
    assert!(rt; Entry::decode(alloc, &unknown_outcome)?.is_none());
    assert!(rt; Entry::decode(alloc, &dropped_at_a_point)?.is_none());
    // A kind that has a client has one above 0.
    let mut call = CLIENT_SP;
    call[5] = 0;
    assert!(rt; Entry::decode(alloc, &call)?.is_none());
    let mut end = CLIENT_ABORTED;
    end[9] = 0;
    assert!(rt; Entry::decode(alloc, &end)?.is_none());
    Ok(())
}
