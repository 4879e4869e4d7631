use super::*;
use std::test::*;
use volt_base::Applied;
use volt_wire::{Actor, Event};

#[test]
fn lines(rt: HostRuntime) -> Result<(), Fail> {
    example_ends();
    example_faults();
    example_report();
    let mut out = Vec::new(rt.alloc());
    print_opening(&mut out)?;
    print_head(&mut out, b"calls", 12)?;
    print_call_head(&mut out, 4_294_967_295, 255, 18_446_744_073_709_551_615, 0)?;
    print_head(&mut out, b"ok", 0)?;
    print_copy_head(&mut out, b"copy", 10, 407, 23)?;
    let want = b"volt 1\ncalls 12\n4294967295 255 18446744073709551615 0 ok 0\ncopy 10 407 23\n";
    assert_eq!(rt; out.as_slice(), want.as_slice());
    Ok(())
}

#[test]
fn serial_lists(rt: HostRuntime) -> Result<(), Fail> {
    let serial = [
        Applied { call: 3, point: 9 },
        Applied {
            call: 10,
            point: 1204,
        },
    ];
    let mut out = Vec::new(rt.alloc());
    print_serial(&mut out, &serial)?;
    print_serial(&mut out, &[])?;
    assert_eq!(rt;
        out.as_slice(),
        b"serial 2\n9 3\n1204 10\nserial 0\n".as_slice()
    );
    Ok(())
}

#[test]
fn event_lines(rt: HostRuntime) {
    let cases = [
        (Event::Submit(2), "submit c2\n"),
        (
            Event::Deliver {
                to: Actor::Agent(1),
                from: Actor::Client(20),
            },
            "deliver h1 c20\n",
        ),
        (
            Event::Deliver {
                to: Actor::Director,
                from: Actor::Site(0),
            },
            "deliver d s0\n",
        ),
        (
            Event::Deliver {
                to: Actor::Site(255),
                from: Actor::Agent(100),
            },
            "deliver s255 h100\n",
        ),
        (Event::Sync(14), "sync s14\n"),
        (Event::Scan(31), "scan x31\n"),
        (Event::Recover, "recover\n"),
        (Event::Item, "item\n"),
        (Event::Idle(Actor::Agent(0)), "idle h0\n"),
        (Event::Idle(Actor::Scanner(8)), "idle x8\n"),
    ];
    for (event, want) in cases {
        assert_eq!(rt; event_line(event).as_str(), want);
    }
}
