use super::{AccountCall, AccountMaker, print_reply};
use std::alloc::{AllocError, Global};
use std::process::Abort;
use std::test::Fail;
use volt_base::{Applied, Bytes, Engine, Entry, MakeEngine, Outcome, Stamp};

/// Put 1 10, as it was written down by hand.
const PUT_1_10: [u8; 21] = [
    0, 0, 2, 1, 0, 0, 0, 0, 0, 0, 0, 1, 1, 0, 0, 0, 0, 0, 0, 0, 10,
];

/// Get of the least value, -9223372036854775807.
const GET_LEAST: [u8; 12] = [0, 1, 1, 1, 128, 0, 0, 0, 0, 0, 0, 1];

#[test]
fn calls_have_these_bodies(rt: HostRuntime) -> Result<(), Fail> {
    let put = AccountCall::Put { id: 1, balance: 10 };
    assert!(rt; put.is_valid());
    assert_eq!(rt; put.encode(rt.alloc())?.as_slice(), PUT_1_10.as_slice());
    assert_eq!(rt; AccountCall::decode(&PUT_1_10), Some(put));

    let get = AccountCall::Get { id: -i64::MAX };
    assert!(rt; get.is_valid());
    assert_eq!(rt; get.encode(rt.alloc())?.as_slice(), GET_LEAST.as_slice());
    assert_eq!(rt; AccountCall::decode(&GET_LEAST), Some(get));

    assert!(rt; !AccountCall::Get { id: i64::MIN }.is_valid());
    assert_eq!(rt;
        AccountCall::decode(&[0, 1, 1, 1, 128, 0, 0, 0, 0, 0, 0, 0]),
        None
    );
    assert_eq!(rt;
        AccountCall::decode(&[0, 2, 1, 1, 0, 0, 0, 0, 0, 0, 0, 1]),
        None
    );
    assert_eq!(rt; AccountCall::decode(&PUT_1_10[..20]), None);
    Ok(())
}

/// The reply of a call that comes at a point.
fn reply_of<E: Engine>(
    rt: &impl Abort,
    alloc: Global,
    engine: &mut E,
    applied: Applied,
    call: AccountCall,
) -> Result<Bytes, AllocError> {
    assert!(rt; call.is_valid());
    let entry = Entry::Sp {
        call: applied.call,
        client: 1,
        point: applied.point,
        body: call.encode(alloc)?,
    };
    assert!(rt; engine.fits(alloc, &entry)?);
    engine.apply(alloc, &entry)
}

#[test]
fn calls_are_carried_out(rt: HostRuntime) -> Result<(), Fail> {
    let alloc = rt.alloc();
    let mut engine = AccountMaker.make(alloc, 0)?;
    let calls = [
        AccountCall::Put { id: 1, balance: 10 },
        AccountCall::Put { id: 1, balance: 11 },
        AccountCall::Put {
            id: -2,
            balance: -3,
        },
        AccountCall::Get { id: 1 },
        AccountCall::Get { id: 2 },
    ];
    let mut text = Vec::new(alloc);
    for (place, call) in calls.iter().enumerate() {
        let applied = Applied {
            call: place as u32,
            point: 10 * place as Stamp,
        };
        let reply = reply_of(&rt, alloc, &mut engine, applied, *call)?;
        print_reply(reply.as_slice(), &mut text)?;
    }
    let printed = b"ok 1\n 1\nabort fault Duplicate\nok 1\n 1\nok 1\n 10\nok 0\n";
    assert_eq!(rt; text.as_slice(), printed.as_slice());
    assert_eq!(rt;
        engine.dump(alloc)?.as_slice(),
        b" acct -2 -3\n acct 1 10\n".as_slice()
    );

    let applied = engine.applied();
    assert_eq!(rt; applied.len(), 5);
    assert_eq!(rt; applied[1], Applied { call: 1, point: 10 });

    let replies = engine.replies();
    assert_eq!(rt; replies.len(), 1);
    assert_eq!(rt; (replies[0].client, replies[0].call), (1, 4));
    Ok(())
}

#[test]
fn only_whole_calls_fit(rt: HostRuntime) -> Result<(), Fail> {
    let alloc = rt.alloc();
    let engine = AccountMaker.make(alloc, 0)?;
    let misspelled = Entry::Sp {
        call: 1,
        client: 1,
        point: 1,
        body: Bytes::of(alloc, &PUT_1_10[..20])?,
    };
    assert!(rt; !engine.fits(alloc, &misspelled)?);
    let fragment = Entry::Frag {
        transaction: 1,
        round: 1,
        body: Bytes::of(alloc, &PUT_1_10)?,
    };
    assert!(rt; !engine.fits(alloc, &fragment)?);
    let end = Entry::Done {
        transaction: 1,
        outcome: Outcome::Dropped,
    };
    assert!(rt; !engine.fits(alloc, &end)?);
    Ok(())
}

#[test]
fn evaluated_rows_return() {
    super::put_has_this_body();
    super::four_calls_answer_so();
    super::first_run_is_this();
    super::first_report_is_sound();
    super::first_report_is_spelled_so();
    super::wrong_reports_are_not_sound();
    super::replies_are_given();
}
